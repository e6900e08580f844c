//! The text of features, put behind what was written, by the trees that it is the text of.
ghost use Rattle.std.specs.Prelude.{◌≡◌, ◌++◌, ◌∷◌, ℕ, List, OnOk};
ghost use Rattle.std.specs.Str.{IsUtf8};
ghost use Rattle.ml_json.specs.Tree.{Tree};
ghost use Rattle.ml_json.specs.Canonical.{tree_on, string_on, members_on, HasUtf8, AllPairsHaveUtf8};
ghost use Rattle.ml_geojson.specs.Shape.{place_of, shape_of, some_shape_of};
ghost use Rattle.ml_geojson.specs.Text.{place_tree, list_tree, shape_tree, geometry_tree, scalar_tree, prop_pairs, feature_tree, collection_tree};

use ml_json::{put_e7, put_string};
use ml_ratio::{Feature, Geometry, Pos, Prop, Scalar, Seq};
use std::alloc::AllocError;

/// What has a JSON text.
pub trait PutText {
    /// The tree that the text is of.
    ghost tree: { Self → Tree };

    /// Puts the text behind what was written.
    ///
    /// # Errors
    /// Out of memory.
    fn put_text(&self, out: &mut Vec<u8>) -> Result<(), AllocError>
        ensures text { OnOk result
            ((r : List ℕ) → out.new.items ++ r ≡ out.old.items ++ tree_on (tree self.now) r) }
        ensures utf8 { OnOk result (HasUtf8 (tree self.now)) };
}

// Longitude and latitude, each with seven decimals.
impl PutText for Pos {
    ghost tree = { λ position. place_tree (place_of position) };

    fn put_text(&self, out: &mut Vec<u8>) -> Result<(), AllocError> {
        out.push(b'[')?;
        put_e7(out, self.x)?;
        out.push(b',')?;
        put_e7(out, self.y)?;
        out.push(b']')?;
        Ok(())
    }
}

// The items with commas between them.
impl<T: PutText> PutText for Seq<T> {
    ghost tree = { list_tree T.tree };

    fn put_text(&self, out: &mut Vec<u8>) -> Result<(), AllocError> {
        put_list(out, self.as_slice())
    }
}

// Puts a list behind what was written.
fn put_list<T: PutText>(out: &mut Vec<u8>, items: &[T]) -> Result<(), AllocError>
    ensures text { OnOk result ((r : List ℕ) →
        out.new.items ++ r ≡ out.old.items ++ tree_on (list_tree T.tree items.now) r) }
    ensures utf8 { OnOk result (HasUtf8 (list_tree T.tree items.now)) }
{
    match items {
        [] => out.extend_from_slice(b"[]"),
        [first, others @ ..] => {
            out.push(b'[')?;
            first.put_text(out)?;
            for item in others {
                out.push(b',')?;
                item.put_text(out)?;
            }
            out.push(b']')?;
            Ok(())
        }
    }
}

// The type of the geometry, and its coordinates.
impl PutText for Geometry {
    ghost tree = { λ geometry. shape_tree (shape_of geometry) };

    fn put_text(&self, out: &mut Vec<u8>) -> Result<(), AllocError> {
        match self {
            Geometry::Point(position) => {
                put_typed(out, b"{\"type\":\"Point\",\"coordinates\":", position)
            }
            Geometry::MultiPoint(positions) => {
                put_typed(out, b"{\"type\":\"MultiPoint\",\"coordinates\":", positions)
            }
            Geometry::LineString(line) => {
                put_typed(out, b"{\"type\":\"LineString\",\"coordinates\":", line)
            }
            Geometry::MultiLineString(lines) => {
                put_typed(
                    out,
                    b"{\"type\":\"MultiLineString\",\"coordinates\":",
                    lines,
                )
            }
            Geometry::Polygon(rings) => {
                put_typed(out, b"{\"type\":\"Polygon\",\"coordinates\":", rings)
            }
            Geometry::MultiPolygon(polygons) => {
                put_typed(
                    out,
                    b"{\"type\":\"MultiPolygon\",\"coordinates\":",
                    polygons,
                )
            }
        }
    }
}

// Puts the front of a geometry, its coordinates and its closing brace behind what was written.
fn put_typed<C: PutText>(out: &mut Vec<u8>, front: &[u8], coordinates: &C) -> Result<(), AllocError>
    ensures text { OnOk result ((r : List ℕ) → out.new.items ++ r
        ≡ out.old.items ++ (front.now ++ tree_on (C.tree coordinates.now) (125 ∷ r))) }
    ensures utf8 { OnOk result (HasUtf8 (C.tree coordinates.now)) }
{
    out.extend_from_slice(front)?;
    coordinates.put_text(out)?;
    out.push(b'}')?;
    Ok(())
}

// Puts a geometry or null behind what was written.
fn put_geometry(out: &mut Vec<u8>, geometry: &Option<Geometry>) -> Result<(), AllocError>
    ensures text { OnOk result ((r : List ℕ) → out.new.items ++ r
        ≡ out.old.items ++ tree_on (geometry_tree (some_shape_of geometry.now)) r) }
    ensures utf8 { OnOk result (HasUtf8 (geometry_tree (some_shape_of geometry.now))) }
{
    match geometry {
        Some(shape) => shape.put_text(out),
        None => out.extend_from_slice(b"null"),
    }
}

// The value of a property.
impl PutText for Scalar {
    ghost tree = { scalar_tree };

    fn put_text(&self, out: &mut Vec<u8>) -> Result<(), AllocError> {
        match self {
            Scalar::Null => out.extend_from_slice(b"null"),
            Scalar::Flag(true) => out.extend_from_slice(b"true"),
            Scalar::Flag(false) => out.extend_from_slice(b"false"),
            Scalar::Num(text) => out.extend_from_slice(text.as_str().as_bytes()),
            Scalar::Str(text) => put_string(out, text),
        }
    }
}

// Puts a property's key, a colon and its value behind what was written.
fn put_prop(out: &mut Vec<u8>, prop: &Prop) -> Result<(), AllocError>
    ensures text { OnOk result ((r : List ℕ) → out.new.items ++ r
        ≡ out.old.items ++ string_on prop.now.key (58 ∷ tree_on (scalar_tree prop.now.value) r)) }
    ensures utf8 { OnOk result (IsUtf8 prop.now.key × HasUtf8 (scalar_tree prop.now.value)) }
{
    put_string(out, &prop.key)?;
    out.push(b':')?;
    prop.value.put_text(out)
}

// Puts properties as a map behind what was written.
fn put_props(out: &mut Vec<u8>, props: &[Prop]) -> Result<(), AllocError>
    ensures text { OnOk result ((r : List ℕ) → out.new.items ++ r
        ≡ out.old.items ++ 123 ∷ members_on (prop_pairs props.now) r) }
    ensures utf8 { OnOk result (AllPairsHaveUtf8 (prop_pairs props.now)) }
{
    match props {
        [] => out.extend_from_slice(b"{}"),
        [first, others @ ..] => {
            out.push(b'{')?;
            put_prop(out, first)?;
            for prop in others {
                out.push(b',')?;
                put_prop(out, prop)?;
            }
            out.push(b'}')?;
            Ok(())
        }
    }
}

// The id, the geometry and the properties.
impl PutText for Feature {
    ghost tree = { feature_tree };

    fn put_text(&self, out: &mut Vec<u8>) -> Result<(), AllocError> {
        out.extend_from_slice(b"{\"type\":\"Feature\",\"id\":")?;
        put_string(out, &self.id)?;
        out.extend_from_slice(b",\"geometry\":")?;
        put_geometry(out, &self.geometry)?;
        out.extend_from_slice(b",\"properties\":")?;
        put_props(out, self.props.as_slice())?;
        out.push(b'}')?;
        Ok(())
    }
}

/// Puts a collection of features behind what was written.
pub fn put_collection(out: &mut Vec<u8>, features: &Seq<Feature>) -> Result<(), AllocError>
    ensures text { OnOk result ((r : List ℕ) →
        out.new.items ++ r ≡ out.old.items ++ tree_on (collection_tree features.now) r) }
    ensures utf8 { OnOk result (HasUtf8 (collection_tree features.now)) }
{
    out.extend_from_slice(b"{\"type\":\"FeatureCollection\",\"features\":")?;
    features.put_text(out)?;
    out.push(b'}')?;
    Ok(())
}
