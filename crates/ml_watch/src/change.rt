//! What an edit changes of a label.
use ml_cone::Span;
use ml_ratio::{Duplicate, Text};
use std::alloc::AllocError;

/// For an id, the active range of its label before an edit and after it; none where there is no such
/// label.
#[derive(Debug, Drop)]
pub struct Change {
    pub id: Text,
    pub before: Option<Span>,
    pub after: Option<Span>,
}

impl Duplicate for Change {
    fn duplicate(&self) -> Result<Change, AllocError> {
        Ok(Change {
            id: self.id.copy()?,
            before: self.before,
            after: self.after,
        })
    }
}
