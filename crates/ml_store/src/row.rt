//! Live labels.
ghost use Rattle.std.specs.Prelude.{◌≡◌};

use ml_cone::{Label, Slot, Span};

/// A live label with its number and its slot.
#[derive(Debug, Drop)]
pub struct Row {
    pub number: u32,
    pub label: Label,
    pub slot: Slot,
}

impl Row {
    // The active range.
    pub(crate) fn span(&self) -> Span
        ensures { result ≡ record { min = self.now.label.min; until = self.now.slot.until } }
    {
        Span {
            min: self.label.min(),
            until: self.slot.until,
        }
    }
}
