//! What refuses a label table.
ghost use Rattle.std.specs.Prelude.{◌≡◌};
ghost use Rattle.ml_pass.specs.declared.fault.TableFault.TheVariants.{Memory};

use std::alloc::{AllocError, AllocFailed};
use thiserror::Error;

/// Why a table is not read. Lines are counted from 1, empty ones too.
#[derive(Clone, Copy, Debug, PartialEq, Eq, Error)]
pub enum TableFault {
    /// The line with this number is the first at fault, and writes no label.
    #[error("line {0} writes no label")]
    BadLine(usize),
    /// The line with this number is the first at fault, and its id stands on an earlier line.
    #[error("line {0} has the id of an earlier line")]
    SameId(usize),
    /// More than 32,768 labels.
    #[error("more than 32768 labels")]
    Full,
    /// Out of memory.
    #[error("out of memory")]
    Memory,
}

impl From<AllocError> for TableFault {
    ghost from_gives = { λ _ e. e ≡ Memory };

    fn from(_error: AllocError) -> TableFault {
        TableFault::Memory
    }
}

impl<T: Drop> From<AllocFailed<T>> for TableFault {
    ghost from_gives = { λ _ e. e ≡ Memory };

    fn from(_error: AllocFailed<T>) -> TableFault {
        TableFault::Memory
    }
}
