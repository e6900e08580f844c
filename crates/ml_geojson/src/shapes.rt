//! The geometry of a feature (RFC 7946, section 3.1).
ghost use Rattle.std.specs.Prelude.{◌≡◌, ◌<◌, length, IfOk};
ghost use Rattle.std.specs.Option.{option_map, option_copied};
ghost use Rattle.ml_ratio.specs.Geometry.{IsSomeGeometry};
ghost use Rattle.ml_json.specs.Lent.{lent_of, lents_view, lent_pairs_view};
ghost use Rattle.ml_geojson.specs.Fault.{Answers};
ghost use Rattle.ml_geojson.specs.Shape.{some_shape_of};
ghost use Rattle.ml_geojson.specs.Geometry.{shape_by, kind_shape, typed_shape, geometry};
ghost use Rattle.ml_geojson.specs.declared.kind.Kind.TheVariants as kinds;

use crate::fault::GeoFault;
use crate::kind::{Kind, kind_of};
use crate::members::{is_text, member};
use crate::parts::{read_lines, read_polygons, read_rings};
use crate::positions::{read_position, read_positions};
use ml_json::{Lent, LentPair};
use ml_ratio::Geometry;
use std::alloc::Global;

// A point.
fn read_point(items: &[Lent], k: usize) -> Result<Option<Geometry>, GeoFault>
    ensures shape { Answers some_shape_of result (shape_by k kinds.Point (lents_view items.now)) }
    ensures formed { IfOk result IsSomeGeometry }
{
    if items.is_empty() {
        return Ok(None);
    }
    match read_position(items, k) {
        Ok(position) => Ok(Some(Geometry::Point(position))),
        Err(fault) => Err(fault),
    }
}

// Points.
fn read_points(alloc: Global, items: &[Lent], k: usize) -> Result<Option<Geometry>, GeoFault>
    ensures shape { Answers some_shape_of result
        (shape_by k kinds.MultiPoint (lents_view items.now)) }
    ensures formed { IfOk result IsSomeGeometry }
{
    match read_positions(alloc, items, k) {
        Ok(positions) if positions.len() > 0 => Ok(Some(Geometry::MultiPoint(positions))),
        Ok(_) => Ok(None),
        Err(fault) => Err(fault),
    }
}

// A line.
fn read_line(alloc: Global, items: &[Lent], k: usize) -> Result<Option<Geometry>, GeoFault>
    ensures shape { Answers some_shape_of result
        (shape_by k kinds.LineString (lents_view items.now)) }
    ensures formed { IfOk result IsSomeGeometry }
{
    match read_positions(alloc, items, k) {
        Ok(line) if line.len() > 0 => Ok(Some(Geometry::LineString(line))),
        Ok(_) => Ok(None),
        Err(fault) => Err(fault),
    }
}

// Lines.
fn read_line_parts(alloc: Global, items: &[Lent], k: usize) -> Result<Option<Geometry>, GeoFault>
    ensures shape { Answers some_shape_of result
        (shape_by k kinds.MultiLineString (lents_view items.now)) }
    ensures formed { IfOk result IsSomeGeometry }
{
    match read_lines(alloc, items, k) {
        Ok(lines) if lines.len() > 0 => Ok(Some(Geometry::MultiLineString(lines))),
        Ok(_) => Ok(None),
        Err(fault) => Err(fault),
    }
}

// A polygon.
fn read_polygon(alloc: Global, items: &[Lent], k: usize) -> Result<Option<Geometry>, GeoFault>
    ensures shape { Answers some_shape_of result (shape_by k kinds.Polygon (lents_view items.now)) }
    ensures formed { IfOk result IsSomeGeometry }
{
    match read_rings(alloc, items, k) {
        Ok(rings) if rings.len() > 0 => Ok(Some(Geometry::Polygon(rings))),
        Ok(_) => Ok(None),
        Err(fault) => Err(fault),
    }
}

// Polygons.
fn read_polygon_parts(alloc: Global, items: &[Lent], k: usize) -> Result<Option<Geometry>, GeoFault>
    ensures shape { Answers some_shape_of result
        (shape_by k kinds.MultiPolygon (lents_view items.now)) }
    ensures formed { IfOk result IsSomeGeometry }
{
    match read_polygons(alloc, items, k) {
        Ok(parts) if parts.len() > 0 => Ok(Some(Geometry::MultiPolygon(parts))),
        Ok(_) => Ok(None),
        Err(fault) => Err(fault),
    }
}

// The shape of a kind that coordinates make.
fn read_by(
    alloc: Global,
    kind: Kind,
    items: &[Lent],
    k: usize,
) -> Result<Option<Geometry>, GeoFault>
    ensures shape { Answers some_shape_of result (shape_by k kind (lents_view items.now)) }
    ensures formed { IfOk result IsSomeGeometry }
{
    match kind {
        Kind::Point => read_point(items, k),
        Kind::MultiPoint => read_points(alloc, items, k),
        Kind::LineString => read_line(alloc, items, k),
        Kind::MultiLineString => read_line_parts(alloc, items, k),
        Kind::Polygon => read_polygon(alloc, items, k),
        Kind::MultiPolygon => read_polygon_parts(alloc, items, k),
    }
}

// The shape of a kind; the kind has to be known, and the coordinates a list.
fn read_kind(
    alloc: Global,
    kind: Option<Kind>,
    coordinates: Option<&Lent>,
    k: usize,
) -> Result<Option<Geometry>, GeoFault>
    ensures shape { Answers some_shape_of result
        (kind_shape k kind (option_map lent_of (option_copied coordinates.entry))) }
    ensures formed { IfOk result IsSomeGeometry }
{
    match (kind, coordinates) {
        (Some(kind), Some(Lent::List(items))) => read_by(alloc, kind, items.as_slice(), k),
        _ => Err(GeoFault::BadGeometry(k)),
    }
}

// The shape of a map with a type. The content of a GeometryCollection is not looked at.
fn read_typed(alloc: Global, pairs: &[LentPair], k: usize) -> Result<Option<Geometry>, GeoFault>
    ensures shape { Answers some_shape_of result (typed_shape k (lent_pairs_view pairs.now)) }
    ensures formed { IfOk result IsSomeGeometry }
{
    let name = member(pairs, "type");
    if is_text(name, "GeometryCollection") {
        return Ok(None);
    }
    read_kind(alloc, kind_of(name), member(pairs, "coordinates"), k)
}

/// The shape of feature `k`; none where the member is absent or null.
pub fn read_shape(
    alloc: Global,
    value: Option<&Lent>,
    k: usize,
) -> Result<Option<Geometry>, GeoFault>
    ensures shape { Answers some_shape_of result
        (geometry k (option_map lent_of (option_copied value.entry))) }
    ensures formed { IfOk result IsSomeGeometry }
{
    match value {
        None | Some(Lent::Null) => Ok(None),
        Some(Lent::Map(pairs)) => read_typed(alloc, pairs.as_slice(), k),
        Some(_) => Err(GeoFault::BadGeometry(k)),
    }
}
