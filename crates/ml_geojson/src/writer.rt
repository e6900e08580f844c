//! Features to their canonical text.
ghost use Rattle.std.specs.Prelude.{◌≡◌, IfOk};
ghost use Rattle.ml_geojson.specs.Text.{feature_text, collection_text};
ghost use Rattle.ml_geojson.specs.Map.{HaveDifferentIds, IsMap, IsFeature};

use crate::laws::trees_read_back;
use crate::text::{PutText, put_collection};
use ml_json::laws::printed_reads_back;
use ml_ratio::{Feature, Seq};
use std::alloc::{AllocError, Global};

/// The canonical text of a collection of features: no white space, positions with seven decimals,
/// properties in byte order of their keys. Reading it gives the same features.
///
/// # Errors
/// Out of memory.
pub fn write_collection(alloc: Global, features: &Seq<Feature>) -> Result<Seq<u8>, AllocError>
    requires { HaveDifferentIds features.now }
    ensures ok { IfOk result (λ text. text ≡ collection_text features.now) }
    ensures back { IfOk result (λ text. IsMap text features.now) }
{
    trees_read_back();
    printed_reads_back();
    let mut out = Vec::new(alloc);
    put_collection(&mut out, features)?;
    Ok(Seq::of_vec(out))
}

/// The canonical text of one feature. Reading it gives the same feature.
///
/// # Errors
/// Out of memory.
pub fn write_feature(alloc: Global, feature: &Feature) -> Result<Seq<u8>, AllocError>
    ensures ok { IfOk result (λ text. text ≡ feature_text feature.now) }
    ensures back { IfOk result (λ text. IsFeature text feature.now) }
{
    trees_read_back();
    printed_reads_back();
    let mut out = Vec::new(alloc);
    feature.put_text(&mut out)?;
    Ok(Seq::of_vec(out))
}
