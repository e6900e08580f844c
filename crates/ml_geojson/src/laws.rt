//! Laws over the definitions alone: what is accepted is not refused and is read in one way, and what
//! is written reads back.
ghost use Rattle.std.specs.Prelude.{◌≡◌, ◌≢◌, ℕ, List, map as mapped, Ok};
ghost use Rattle.ml_json.specs.Canonical.{settled, IsPrintable};
ghost use Rattle.ml_ratio.specs.declared.feature.Feature.{Feature};
ghost use Rattle.ml_geojson.specs.Collection.{own_parts, feature, collection};
ghost use Rattle.ml_geojson.specs.Map.{HaveDifferentIds, IsMap, IsMapFault, IsFeature, IsFeatureFault};
ghost use Rattle.ml_geojson.specs.Shape.{some_shape_of};
ghost use Rattle.ml_geojson.specs.Text.{feature_tree, collection_tree};
ghost use Rattle.ml_geojson.specs.declared.fault.GeoFault.{GeoFault};

use ml_json::laws;

/// A map file is refused only when memory runs out.
pub fn map_or_fault()
    ensures { (bytes : List ℕ) (features : List Feature) (fault : GeoFault) →
        IsMap bytes features → IsMapFault bytes fault → fault ≡ GeoFault.Memory }
{
    laws::one_tree();
    laws::text_or_fault();
}

/// A feature with an id is refused only when memory runs out.
pub fn feature_or_fault()
    ensures { (bytes : List ℕ) (one : Feature) (fault : GeoFault) →
        IsFeature bytes one → IsFeatureFault bytes fault → fault ≡ GeoFault.Memory }
{
    laws::one_tree();
    laws::text_or_fault();
}

/// One thing is wrong with bytes that are no map file, unless memory runs out; and one with bytes that
/// are no feature with an id.
pub fn one_fault()
    ensures map { (bytes : List ℕ) (one other : GeoFault) →
        one ≢ GeoFault.Memory → other ≢ GeoFault.Memory →
        IsMapFault bytes one → IsMapFault bytes other → one ≡ other }
    ensures feature { (bytes : List ℕ) (one other : GeoFault) →
        one ≢ GeoFault.Memory → other ≢ GeoFault.Memory →
        IsFeatureFault bytes one → IsFeatureFault bytes other → one ≡ other }
{
    laws::one_tree();
    laws::text_or_fault();
    laws::one_fault();
}

/// Bytes are a map file of the same features only.
pub fn one_map()
    ensures { (bytes : List ℕ) (features others : List Feature) →
        IsMap bytes features → IsMap bytes others → features ≡ others }
{
    laws::one_tree();
}

/// The features of a map file have ids of their own.
pub fn ids_differ()
    ensures { (bytes : List ℕ) (features : List Feature) →
        IsMap bytes features → HaveDifferentIds features }
{}

/// Bytes are one feature only.
pub fn one_feature()
    ensures { (bytes : List ℕ) (one other : Feature) →
        IsFeature bytes one → IsFeature bytes other → one ≡ other }
{
    laws::one_tree();
}

/// Features of the same id, shape and properties are one.
pub fn same_is_one()
    ensures { (one other : Feature) → one.id ≡ other.id → some_shape_of one.geometry
        ≡ some_shape_of other.geometry → one.props ≡ other.props → one ≡ other }
{}

/// The trees of features and of collections can be printed, and read as what they were made of.
pub fn trees_read_back()
    ensures feature_prints { (f : Feature) → IsPrintable (feature_tree f) }
    ensures feature_reads { (f : Feature) →
        feature 0 (settled (feature_tree f)) ≡ Ok (own_parts f) }
    ensures collection_prints { (fs : List Feature) → IsPrintable (collection_tree fs) }
    ensures collection_reads { (fs : List Feature) →
        collection (settled (collection_tree fs)) ≡ Ok (mapped own_parts fs) }
{
    laws::coordinates_read_back();
    laws::coordinates_are_numbers();
    laws::known_numbers();
    laws::ascending_members_stay();
}
