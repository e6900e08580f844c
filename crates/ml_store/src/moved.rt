//! A new slot of a label.
use ml_cone::Slot;

/// A new slot of a label that stays, by its number.
#[derive(Clone, Copy, Debug, PartialEq, Eq)]
pub struct Moved {
    pub number: u32,
    pub slot: Slot,
}
