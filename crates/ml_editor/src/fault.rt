//! Why maps are not loaded, and edits refused.
ghost use Rattle.std.specs.Prelude.{◌≡◌};
ghost use Rattle.ml_editor.specs.declared.fault.EditFault.TheVariants as edits;
ghost use Rattle.ml_editor.specs.declared.fault.LoadRefused.TheVariants as loads;

use ml_geojson::GeoFault;
use ml_ratio::Text;
use ml_style::StyleFault;
use std::alloc::{AllocError, AllocFailed};
use thiserror::Error;

/// Why features are not loaded.
#[derive(Clone, Copy, Debug, PartialEq, Eq, Error)]
pub enum LoadRefused {
    /// There are more than 32,768 features.
    #[error("more than 32768 features")]
    Full,
    /// Out of memory.
    #[error("out of memory")]
    Memory,
}

/// Why an edit is refused. Where several causes stand together, the one that comes first here is
/// given.
#[derive(Debug, PartialEq, Eq, Drop, Error)]
pub enum EditFault {
    /// Another revision was asked for than the present one, which this is.
    #[error("the revision is {0}")]
    RevMoved(u64),
    /// The body is no feature with an id.
    #[error("the body is no feature: {0}")]
    Geo(GeoFault),
    /// The body is no style.
    #[error("the body is no style: {0}")]
    Style(StyleFault),
    /// A feature has this id already.
    #[error("a feature has the id {0:?}")]
    Duplicate(Text),
    /// No feature has this id.
    #[error("no feature has the id {0:?}")]
    Unknown(Text),
    /// There are 32,768 features.
    #[error("there are 32768 features")]
    Full,
    /// The revision is the last one, 2^53.
    #[error("the revision is the last")]
    RevEnd,
    /// Out of memory.
    #[error("out of memory")]
    Memory,
}

impl From<AllocError> for LoadRefused {
    ghost from_gives = { λ _ e. e ≡ loads.Memory };

    fn from(_error: AllocError) -> LoadRefused {
        LoadRefused::Memory
    }
}

impl<T: Drop> From<AllocFailed<T>> for LoadRefused {
    ghost from_gives = { λ _ e. e ≡ loads.Memory };

    fn from(_error: AllocFailed<T>) -> LoadRefused {
        LoadRefused::Memory
    }
}

impl From<AllocError> for EditFault {
    ghost from_gives = { λ _ e. e ≡ edits.Memory };

    fn from(_error: AllocError) -> EditFault {
        EditFault::Memory
    }
}

impl<T: Drop> From<AllocFailed<T>> for EditFault {
    ghost from_gives = { λ _ e. e ≡ edits.Memory };

    fn from(_error: AllocFailed<T>) -> EditFault {
        EditFault::Memory
    }
}
