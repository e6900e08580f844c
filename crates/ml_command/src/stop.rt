//! Why a command ends without an answer of its own.
ghost use Rattle.std.specs.Prelude.{◌≡◌};
ghost use Rattle.ml_command.specs.declared.stop.Stop.TheVariants.{Memory};

use ml_ratio::Seq;
use std::alloc::{AllocError, AllocFailed};

/// What ends a command early.
#[derive(Drop)]
pub enum Stop {
    /// A style is refused; the line that says why.
    StyleRefused(Seq<u8>),
    /// A table, slots or a map are refused; the line that says why.
    InputRefused(Seq<u8>),
    /// The file that is due is missing, or its reading failed.
    FileFault,
    /// The file that is due is too long.
    TooLong,
    /// Out of memory.
    Memory,
}

impl From<AllocError> for Stop {
    ghost from_gives = { λ _ e. e ≡ Memory };

    fn from(_error: AllocError) -> Stop {
        Stop::Memory
    }
}

impl<T: Drop> From<AllocFailed<T>> for Stop {
    ghost from_gives = { λ _ e. e ≡ Memory };

    fn from(_error: AllocFailed<T>) -> Stop {
        Stop::Memory
    }
}
