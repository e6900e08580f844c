//! Lines, rings and polygons as lists of lists. Empty ones are passed over.
ghost use Rattle.std.specs.Prelude.{◌≡◌, ◌<◌, ◌++◌, ◌∷◌, [], length, All, IfOk, OnOk};
ghost use Rattle.ml_ratio.specs.Geometry.{HasParts, IsRing, IsPolygon};
ghost use Rattle.ml_json.specs.Lent.{lent_of, lents_view};
ghost use Rattle.ml_geojson.specs.Fault.{Answers};
ghost use Rattle.ml_geojson.specs.Shape.{places_of, lines_of, polygons_of};
ghost use Rattle.ml_geojson.specs.Positions.{in_list, positions as spec_positions, ring as spec_ring, filled, line_parts, rings as spec_rings, polygon_parts};

use crate::fault::GeoFault;
use crate::positions::{read_positions, read_ring};
use ml_json::Lent;
use ml_ratio::{Pos, Seq};
use std::alloc::{AllocError, Global};

// Adds a part, unless it is empty.
fn push_filled<T: Drop>(parts: &mut Seq<Seq<T>>, part: Seq<T>) -> Result<(), AllocError>
    ensures { OnOk result (parts.new ≡ parts.old ++ filled (part ∷ [])) }
{
    if part.len() > 0 {
        parts.push(part)?;
    }
    Ok(())
}

// A line within a list of them.
fn line_in(alloc: Global, item: &Lent, k: usize) -> Result<Seq<Pos>, GeoFault>
    ensures { Answers places_of result (in_list k (spec_positions k) (lent_of item.now)) }
{
    match item {
        Lent::List(items) => read_positions(alloc, items.as_slice(), k),
        _ => Err(GeoFault::BadGeometry(k)),
    }
}

/// The lines of several.
pub fn read_lines(alloc: Global, items: &[Lent], k: usize) -> Result<Seq<Seq<Pos>>, GeoFault>
    ensures lines { Answers lines_of result (line_parts k (lents_view items.now)) }
    ensures filled { IfOk result (λ lines. All HasParts lines) }
{
    let mut lines = Seq::new(alloc);
    for item in items {
        match line_in(alloc, item, k) {
            Ok(line) => push_filled(&mut lines, line)?,
            Err(fault) => return Err(fault),
        }
    }
    Ok(lines)
}

// A ring within a list of them.
fn ring_in(alloc: Global, item: &Lent, k: usize) -> Result<Seq<Pos>, GeoFault>
    ensures places { Answers places_of result (in_list k (spec_ring k) (lent_of item.now)) }
    ensures ring { IfOk result (λ ring. 0 < length ring → IsRing ring) }
{
    match item {
        Lent::List(items) => read_ring(alloc, items.as_slice(), k),
        _ => Err(GeoFault::BadGeometry(k)),
    }
}

/// The rings of a polygon.
pub fn read_rings(alloc: Global, items: &[Lent], k: usize) -> Result<Seq<Seq<Pos>>, GeoFault>
    ensures lines { Answers lines_of result (spec_rings k (lents_view items.now)) }
    ensures rings { IfOk result (λ rings. All IsRing rings) }
{
    let mut rings = Seq::new(alloc);
    for item in items {
        match ring_in(alloc, item, k) {
            Ok(ring) => push_filled(&mut rings, ring)?,
            Err(fault) => return Err(fault),
        }
    }
    Ok(rings)
}

// A polygon within a list of them.
fn polygon_in(alloc: Global, item: &Lent, k: usize) -> Result<Seq<Seq<Pos>>, GeoFault>
    ensures lines { Answers lines_of result (in_list k (spec_rings k) (lent_of item.now)) }
    ensures rings { IfOk result (λ rings. All IsRing rings) }
{
    match item {
        Lent::List(items) => read_rings(alloc, items.as_slice(), k),
        _ => Err(GeoFault::BadGeometry(k)),
    }
}

/// The polygons of several.
pub fn read_polygons(
    alloc: Global,
    items: &[Lent],
    k: usize,
) -> Result<Seq<Seq<Seq<Pos>>>, GeoFault>
    ensures polygons { Answers polygons_of result (polygon_parts k (lents_view items.now)) }
    ensures formed { IfOk result (λ polygons. All IsPolygon polygons) }
{
    let mut polygons = Seq::new(alloc);
    for item in items {
        match polygon_in(alloc, item, k) {
            Ok(polygon) => push_filled(&mut polygons, polygon)?,
            Err(fault) => return Err(fault),
        }
    }
    Ok(polygons)
}
