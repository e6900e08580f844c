//! Edits of a map.
use ml_ratio::{Feature, Text};
use ml_style::Style;

/// An edit of a map.
#[derive(Debug, Drop)]
pub enum Edit {
    /// This feature comes in behind all others. None has its id.
    Add(Feature),
    /// This feature takes the place of that with its id.
    Replace(Feature),
    /// The feature with this id goes, and the others close up.
    Remove(Text),
    /// This style takes the place of the style. The features stay.
    Restyle(Style),
}
