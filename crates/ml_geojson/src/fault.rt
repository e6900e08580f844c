//! What refuses map files.
ghost use Rattle.std.specs.Prelude.{◌≡◌};
ghost use Rattle.ml_geojson.specs.declared.fault.GeoFault.TheVariants.{NotJson, Deep, Memory};
ghost use Rattle.ml_json.specs.declared.value.JsonFault.TheVariants as json;
ghost use Rattle.ml_geojson.specs.Fault.{IsFaultOf};

use ml_json::JsonFault;
use std::alloc::{AllocError, AllocFailed};
use thiserror::Error;

/// Why bytes are no map file, or no feature. Features are counted from 0.
#[derive(Clone, Copy, Debug, PartialEq, Eq, Error)]
pub enum GeoFault {
    /// No JSON text begins with the bytes up to and including this place, or the bytes end here too early.
    #[error("not JSON at byte {0}")]
    NotJson(usize),
    /// The byte here opens a 65th list or map within one another.
    #[error("more than 64 lists and maps are open at byte {0}")]
    Deep(usize),
    /// The text is neither a FeatureCollection with a list of features nor a Feature.
    #[error("neither a collection of features nor a feature")]
    NotCollection,
    /// The item at this place is no Feature.
    #[error("item {0} is no feature")]
    NotFeature(usize),
    /// The feature at this place has a geometry of no known type, or coordinates of another form.
    #[error("the geometry of feature {0} is of no known form")]
    BadGeometry(usize),
    /// The feature at this place has a position outside of the world.
    #[error("a position of feature {0} is beyond 200 degrees")]
    OutOfRange(usize),
    /// The feature at this place has a ring that, once closed, has fewer than four positions.
    #[error("a ring of feature {0} has fewer than four positions")]
    ShortRing(usize),
    /// The feature has no id.
    #[error("the feature has no id")]
    NoId,
    /// Memory was wanting.
    #[error("out of memory")]
    Memory,
}

impl From<JsonFault> for GeoFault {
    ghost from_gives = { IsFaultOf };

    fn from(fault: JsonFault) -> GeoFault {
        match fault {
            JsonFault::NotJson(at) => GeoFault::NotJson(at),
            JsonFault::Deep(at) => GeoFault::Deep(at),
            JsonFault::Memory => GeoFault::Memory,
        }
    }
}

impl From<AllocError> for GeoFault {
    ghost from_gives = { λ _ e. e ≡ Memory };

    fn from(_error: AllocError) -> GeoFault {
        GeoFault::Memory
    }
}

impl<T: Drop> From<AllocFailed<T>> for GeoFault {
    ghost from_gives = { λ _ e. e ≡ Memory };

    fn from(_error: AllocFailed<T>) -> GeoFault {
        GeoFault::Memory
    }
}
