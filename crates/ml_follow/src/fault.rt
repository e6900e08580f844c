//! What refuses a file of states, or a state.
ghost use Rattle.std.specs.Prelude.{◌≡◌};

use ml_cert::Verdict;
use std::alloc::{AllocError, AllocFailed};
use thiserror::Error;

/// Why a file is not read as states.
#[derive(Clone, Copy, Debug, PartialEq, Eq, Error)]
pub enum StateFault {
    /// The line with this number is the first at fault, or the file ends where it is due. All lines are
    /// counted, from 1.
    #[error("line {0} is at fault")]
    BadState(usize),
    /// Out of memory.
    #[error("out of memory")]
    Memory,
}

impl From<AllocError> for StateFault {
    ghost use Rattle.std.specs.Prelude.{◌≡◌};
    ghost use Rattle.ml_follow.specs.declared.fault.StateFault.TheVariants.{Memory};

    ghost from_gives = { λ _ e. e ≡ Memory };

    fn from(_error: AllocError) -> StateFault {
        StateFault::Memory
    }
}

impl<T: Drop> From<AllocFailed<T>> for StateFault {
    ghost use Rattle.std.specs.Prelude.{◌≡◌};
    ghost use Rattle.ml_follow.specs.declared.fault.StateFault.TheVariants.{Memory};

    ghost from_gives = { λ _ e. e ≡ Memory };

    fn from(_error: AllocFailed<T>) -> StateFault {
        StateFault::Memory
    }
}

/// Why a state is not adopted.
#[derive(Clone, Copy, Debug, PartialEq, Eq, Error)]
pub enum OfferFault {
    /// Its revision is not above the one that is held, which is this.
    #[error("not above the revision {0}")]
    Stale(u64),
    /// Its slots are not the longest choice with its blockers; what is wrong with them.
    #[error("not the longest choice")]
    NotBest(Verdict),
    /// Out of memory.
    #[error("out of memory")]
    Memory,
}

impl From<AllocError> for OfferFault {
    ghost use Rattle.std.specs.Prelude.{◌≡◌};
    ghost use Rattle.ml_follow.specs.declared.fault.OfferFault.TheVariants.{Memory};

    ghost from_gives = { λ _ e. e ≡ Memory };

    fn from(_error: AllocError) -> OfferFault {
        OfferFault::Memory
    }
}
