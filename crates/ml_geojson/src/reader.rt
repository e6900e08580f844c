//! Bytes to features.
ghost use Rattle.std.specs.Prelude.{◌≡◌, ℕ, List, IfOk, IfErr, OnOk, Ok};
ghost use Rattle.std.specs.Option.{option_map, option_copied};
ghost use Rattle.ml_ratio.specs.Refusal.{RefusesExactly};
ghost use Rattle.ml_json.specs.Answer.{IsNotJson, IsDeep};
ghost use Rattle.ml_json.specs.Tree.{map};
ghost use Rattle.ml_json.specs.Canonical.{IsOrderly, AllOrderly};
ghost use Rattle.ml_json.specs.Lent.{lent_of, lents_view, lent_pairs_view};
ghost use Rattle.ml_geojson.specs.Fault.{Refuses};
ghost use Rattle.ml_geojson.specs.Collection.{feature, features as spec_features, listed, collected, collection, IsSomeOrderly};
ghost use Rattle.ml_geojson.specs.Taken.{HasIds};
ghost use Rattle.ml_geojson.specs.Draft.{parts_of, IsAdded};
ghost use Rattle.ml_geojson.specs.Map.{ids, HaveDifferentIds, AreRead, IsRead, IsMap, IsMapFault, IsFeature, IsFeatureFault, HasNoId, GivesMap, GivesFeature};

use crate::draft::Draft;
use crate::fault::GeoFault;
use crate::features::{read_draft, with_own_id};
use crate::ids::take_id;
use crate::members::{is_text, member};
use ml_json::{Lent, LentPair};
use ml_ratio::{Feature, Seq, Text};
use std::alloc::{AllocError, Global};
use std::collections::HashSet;

// Adds a feature at the end, with the id that it gets.
fn push_feature(
    alloc: Global,
    features: &mut Seq<Feature>,
    taken: &mut HashSet<Text>,
    draft: Draft,
) -> Result<(), AllocError>
    requires { HasIds (ids features.old) taken.old }
    ensures added { OnOk result (IsAdded features.old features.new (parts_of draft)) }
    ensures taken { OnOk result (HasIds (ids features.new) taken.new) }
{
    let Draft {
        own,
        geometry,
        props,
    } = draft;
    let id = take_id(alloc, taken, own, features.len())?;
    features.push(Feature {
        id,
        geometry,
        props,
    })?;
    Ok(())
}

// The features of a list.
fn read_items(alloc: Global, items: &[Lent]) -> Result<Seq<Feature>, GeoFault>
    requires { AllOrderly (lents_view items.now) }
    ensures { AreRead result (spec_features 0 (lents_view items.now)) }
{
    let mut features = Seq::new(alloc);
    let mut taken = HashSet::new(alloc);
    for (k, item) in items.iter().enumerate() {
        match read_draft(alloc, item, k) {
            Ok(draft) => push_feature(alloc, &mut features, &mut taken, draft)?,
            Err(fault) => return Err(fault),
        }
    }
    Ok(features)
}

// The features of a value, which has to be a list.
fn read_listed(alloc: Global, value: Option<&Lent>) -> Result<Seq<Feature>, GeoFault>
    requires { IsSomeOrderly (option_map lent_of (option_copied value)) }
    ensures { AreRead result (listed (option_map lent_of (option_copied value.entry))) }
{
    match value {
        Some(Lent::List(items)) => read_items(alloc, items.as_slice()),
        _ => Err(GeoFault::NotCollection),
    }
}

// The features of a map whose type is FeatureCollection.
fn read_collected(alloc: Global, pairs: &[LentPair]) -> Result<Seq<Feature>, GeoFault>
    requires { IsOrderly (map (lent_pairs_view pairs.now)) }
    ensures { AreRead result (collected (lent_pairs_view pairs.now)) }
{
    if is_text(member(pairs, "type"), "FeatureCollection") {
        return read_listed(alloc, member(pairs, "features"));
    }
    Err(GeoFault::NotCollection)
}

// The features of a map file.
fn read_tree(alloc: Global, json: &Lent) -> Result<Seq<Feature>, GeoFault>
    requires { IsOrderly (lent_of json.now) }
    ensures { AreRead result (collection (lent_of json.now)) }
{
    let Lent::Map(pairs) = json else {
        return Err(GeoFault::NotCollection);
    };
    if is_text(member(pairs.as_slice(), "type"), "Feature") {
        return read_items(alloc, std::slice::from_ref(json));
    }
    read_collected(alloc, pairs.as_slice())
}

/// Reads a map file: a FeatureCollection, or a Feature, which counts as a collection of that one.
///
/// A feature's own id is a string, or the text of a number. The feature at place `k` gets its own id
/// where no earlier feature has got it; else it gets `#k`, with as many further `#` before it as make
/// it new. Members other than `type`, `id`, `geometry` and `properties` are passed over, as are
/// properties that are lists or maps, and whatever stands in a position behind longitude and latitude.
/// A GeometryCollection is no shape. Open rings are closed; parts without positions are passed over.
///
/// # Errors
/// The text's own faults, [`GeoFault::NotJson`] and [`GeoFault::Deep`]; [`GeoFault::NotCollection`];
/// else the first fault of the features in order, and within a feature from left to right:
/// [`GeoFault::NotFeature`], [`GeoFault::BadGeometry`], [`GeoFault::OutOfRange`],
/// [`GeoFault::ShortRing`]; out of memory.
pub fn read_collection(alloc: Global, bytes: &[u8]) -> Result<Seq<Feature>, GeoFault>
    ensures ok { IfOk result (IsMap bytes.now) }
    ensures different_ids { IfOk result HaveDifferentIds }
    ensures fault { IfErr result (IsMapFault bytes.now) }
    ensures reads { (features : List Feature) →
        IsMap bytes.now features → GivesMap result features }
    ensures not_json { (at : ℕ) →
        RefusesExactly result (GeoFault.NotJson at) GeoFault.Memory (IsNotJson bytes.now at) }
    ensures deep { (at : ℕ) →
        RefusesExactly result (GeoFault.Deep at) GeoFault.Memory (IsDeep bytes.now at) }
    ensures not_collection { RefusesExactly result GeoFault.NotCollection GeoFault.Memory
        (IsMapFault bytes.now GeoFault.NotCollection) }
    ensures not_feature { (k : ℕ) → RefusesExactly result
        (GeoFault.NotFeature k) GeoFault.Memory (IsMapFault bytes.now (GeoFault.NotFeature k)) }
    ensures bad_geometry { (k : ℕ) → RefusesExactly result
        (GeoFault.BadGeometry k) GeoFault.Memory (IsMapFault bytes.now (GeoFault.BadGeometry k)) }
    ensures out_of_range { (k : ℕ) → RefusesExactly result
        (GeoFault.OutOfRange k) GeoFault.Memory (IsMapFault bytes.now (GeoFault.OutOfRange k)) }
    ensures short_ring { (k : ℕ) → RefusesExactly result
        (GeoFault.ShortRing k) GeoFault.Memory (IsMapFault bytes.now (GeoFault.ShortRing k)) }
{
    match ml_json::lend(alloc, bytes) {
        Ok(json) => read_tree(alloc, &json),
        Err(fault) => Err(GeoFault::from(fault)),
    }
}

// The feature of a tree, which has to have an id.
fn read_named(alloc: Global, json: &Lent) -> Result<Feature, GeoFault>
    requires { IsOrderly (lent_of json.now) }
    ensures { IsRead result (feature 0 (lent_of json.now)) }
{
    match read_draft(alloc, json, 0) {
        Ok(draft) => with_own_id(draft),
        Err(fault) => Err(fault),
    }
}

/// Reads one Feature, which has to have an id. Its other rules are those of [`read_collection`].
///
/// # Errors
/// Those of [`read_collection`] with place 0, but for [`GeoFault::NotCollection`];
/// [`GeoFault::NoId`] where nothing else is at fault.
pub fn read_feature(alloc: Global, bytes: &[u8]) -> Result<Feature, GeoFault>
    ensures ok { IfOk result (IsFeature bytes.now) }
    ensures fault { IfErr result (IsFeatureFault bytes.now) }
    ensures reads { (one : Feature) → IsFeature bytes.now one → GivesFeature result one }
    ensures not_json { (at : ℕ) →
        RefusesExactly result (GeoFault.NotJson at) GeoFault.Memory (IsNotJson bytes.now at) }
    ensures deep { (at : ℕ) →
        RefusesExactly result (GeoFault.Deep at) GeoFault.Memory (IsDeep bytes.now at) }
    ensures not_feature { (k : ℕ) → RefusesExactly result (GeoFault.NotFeature k) GeoFault.Memory
        (IsFeatureFault bytes.now (GeoFault.NotFeature k)) }
    ensures bad_geometry { (k : ℕ) → RefusesExactly result (GeoFault.BadGeometry k) GeoFault.Memory
        (IsFeatureFault bytes.now (GeoFault.BadGeometry k)) }
    ensures out_of_range { (k : ℕ) → RefusesExactly result (GeoFault.OutOfRange k) GeoFault.Memory
        (IsFeatureFault bytes.now (GeoFault.OutOfRange k)) }
    ensures short_ring { (k : ℕ) → RefusesExactly result (GeoFault.ShortRing k) GeoFault.Memory
        (IsFeatureFault bytes.now (GeoFault.ShortRing k)) }
    ensures no_id { RefusesExactly result GeoFault.NoId GeoFault.Memory (HasNoId bytes.now) }
{
    match ml_json::lend(alloc, bytes) {
        Ok(json) => read_named(alloc, &json),
        Err(fault) => Err(GeoFault::from(fault)),
    }
}
