//! Edits of labels.
use ml_ratio::Text;
use ml_store::Row;

/// An edit of the live labels. A label that comes has its number and its slot already.
#[derive(Debug, Drop)]
pub enum LabelEdit {
    /// This label comes; none has its id.
    Add(Box<Row>),
    /// The label with this id goes.
    Remove(Text),
    /// This label comes in place of that with its id.
    Replace(Box<Row>),
}
