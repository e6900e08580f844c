//! Single features (RFC 7946, section 3.2).
ghost use Rattle.std.specs.Prelude.{◌≡◌, IfOk, Ok};
ghost use Rattle.std.specs.Option.{option_map, option_copied};
ghost use Rattle.ml_json.specs.Tree.{map};
ghost use Rattle.ml_json.specs.Canonical.{IsOrderly};
ghost use Rattle.ml_json.specs.Lent.{lent_of, lent_pairs_view};
ghost use Rattle.ml_geojson.specs.Fault.{Answers};
ghost use Rattle.ml_geojson.specs.Collection.{own_id as spec_own_id, feature};
ghost use Rattle.ml_geojson.specs.Map.{IsMadeOf, IsRead};
ghost use Rattle.ml_geojson.specs.Draft.{parts_of};

use crate::draft::Draft;
use crate::fault::GeoFault;
use crate::members::{is_text, member};
use crate::properties::read_props;
use crate::shapes::read_shape;
use ml_json::{Lent, LentPair};
use ml_ratio::{Feature, Text};
use std::alloc::{AllocError, Global};

// The id that a feature has of its own: the text of a string or of a number.
fn own_id(alloc: Global, value: Option<&Lent>) -> Result<Option<Text>, AllocError>
    ensures { IfOk result
        (λ own. own ≡ spec_own_id (option_map lent_of (option_copied value.entry))) }
{
    Ok(match value {
        Some(Lent::Str(text)) => Some(text.to_text(alloc)?),
        Some(Lent::Num(text)) => Some(text.to_text(alloc)?),
        _ => None,
    })
}

// The draft of a map whose type is Feature.
fn draft_of(alloc: Global, pairs: &[LentPair], k: usize) -> Result<Draft, GeoFault>
    requires { IsOrderly (map (lent_pairs_view pairs.now)) }
    ensures { Answers parts_of result (feature k (map (lent_pairs_view pairs.now))) }
{
    if !is_text(member(pairs, "type"), "Feature") {
        return Err(GeoFault::NotFeature(k));
    }
    match read_shape(alloc, member(pairs, "geometry"), k) {
        Ok(geometry) => {
            let own = own_id(alloc, member(pairs, "id"))?;
            let props = read_props(alloc, member(pairs, "properties"))?;
            Ok(Draft {
                own,
                geometry,
                props,
            })
        }
        Err(fault) => Err(fault),
    }
}

/// The draft of feature `k`.
pub fn read_draft(alloc: Global, item: &Lent, k: usize) -> Result<Draft, GeoFault>
    requires { IsOrderly (lent_of item.now) }
    ensures { Answers parts_of result (feature k (lent_of item.now)) }
{
    match item {
        Lent::Map(pairs) => draft_of(alloc, pairs.as_slice(), k),
        _ => Err(GeoFault::NotFeature(k)),
    }
}

/// The feature with its own id, which it has to have.
pub fn with_own_id(draft: Draft) -> Result<Feature, GeoFault>
    ensures { IsRead result (Ok (parts_of draft)) }
{
    let Draft {
        own,
        geometry,
        props,
    } = draft;
    match own {
        Some(id) => Ok(Feature {
            id,
            geometry,
            props,
        }),
        None => Err(GeoFault::NoId),
    }
}
