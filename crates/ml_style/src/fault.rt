//! Why a style is refused.
ghost use Rattle.std.specs.Prelude.{◌≡◌};
ghost use Rattle.ml_style.specs.declared.fault.StyleFault.TheVariants.{Memory};

use ml_ratio::Text;
use std::alloc::{AllocError, AllocFailed};
use thiserror::Error;

/// Why bytes are no style. Classes are counted from 0.
#[derive(Debug, PartialEq, Eq, Drop, Error)]
pub enum StyleFault {
    /// The bytes are no TOML text.
    #[error("not TOML")]
    NotToml,
    /// The version is neither of the whole numbers 1 and 2.
    #[error("the version is neither 1 nor 2")]
    Version,
    /// The font of this name is the first that is not valid, in byte order of names.
    #[error("the font {0:?} is not valid")]
    BadFont(Text),
    /// This field of the class with this number has a wrong value.
    #[error("class {0} has a wrong {1:?}")]
    BadClass(usize, Text),
    /// The class with this number names a font that is not there.
    #[error("class {0} names an unknown font")]
    UnknownFont(usize),
    /// The class with this number has no scale to be shown at.
    #[error("class {0} has an empty range of scales")]
    EmptyRange(usize),
    /// Out of memory.
    #[error("out of memory")]
    Memory,
}

impl From<AllocError> for StyleFault {
    ghost from_gives = { λ _ e. e ≡ Memory };

    fn from(_error: AllocError) -> StyleFault {
        StyleFault::Memory
    }
}

impl<T: Drop> From<AllocFailed<T>> for StyleFault {
    ghost from_gives = { λ _ e. e ≡ Memory };

    fn from(_error: AllocFailed<T>) -> StyleFault {
        StyleFault::Memory
    }
}
