//! What refuses the text of slots.
ghost use Rattle.std.specs.Prelude.{◌≡◌};
ghost use Rattle.ml_cert.specs.declared.fault.SlotsFault.TheVariants.{Memory};

use std::alloc::{AllocError, AllocFailed};
use thiserror::Error;

/// Why a text is not read as slots.
#[derive(Clone, Copy, Debug, PartialEq, Eq, Error)]
pub enum SlotsFault {
    /// The line with this number is the first at fault; all lines are counted, from 1.
    #[error("line {0} is at fault")]
    BadLine(usize),
    /// Out of memory.
    #[error("out of memory")]
    Memory,
}

impl From<AllocError> for SlotsFault {
    ghost from_gives = { λ _ e. e ≡ Memory };

    fn from(_error: AllocError) -> SlotsFault {
        SlotsFault::Memory
    }
}

impl<T: Drop> From<AllocFailed<T>> for SlotsFault {
    ghost from_gives = { λ _ e. e ≡ Memory };

    fn from(_error: AllocFailed<T>) -> SlotsFault {
        SlotsFault::Memory
    }
}
