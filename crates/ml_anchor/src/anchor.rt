//! The anchors of points and areas.
ghost use Rattle.std.specs.Prelude.{◌≡◌, ◌<◌, ◌≤◌, ◌↔◌, All, IfOk, IsSome, length};
ghost use Rattle.ml_ratio.specs.Geometry.{IsGeometry, IsPolygon};
ghost use Rattle.ml_ratio.specs.World.{IsInWorld};
ghost use Rattle.ml_anchor.specs.Ring.{box_area};
ghost use Rattle.ml_anchor.specs.Scan.{crossings};
ghost use Rattle.ml_anchor.specs.Pairs.{IsMiddle};
ghost use Rattle.ml_anchor.specs.Anchor.{IsPointKind, point_of, IsPolygonAnchor, IsLargestPart, IsAreaAnchor, outer};

use crate::bounds::{area_of, bounds_of};
use crate::pairs::widest;
use crate::scan::crossings;
use ml_ratio::rounding::half;
use ml_ratio::{Geometry, Pos, Seq};
use std::alloc::{AllocError, Global};

/// The anchor of a point, which is its place, or of some points, which is the first; none for other
/// shapes.
pub fn point_anchor(g: &Geometry) -> Option<Pos>
    requires { IsGeometry g.now }
    ensures value { result ≡ point_of g.now }
    ensures some { IsSome result ↔ IsPointKind g.now }
{
    match g {
        Geometry::Point(place) => Some(*place),
        Geometry::MultiPoint(places) => places.get(0).copied(),
        _ => None,
    }
}

/// The anchor of an area; none for other shapes.
///
/// Of several polygons the one counts whose outer ring has the bounding box of the greatest area,
/// the first at a tie. The anchor lies half way up that ring's box, in the middle of the widest
/// stretch of that height which is inside the polygon by the even-odd rule, the western one at a
/// tie. A ring without height is anchored in the middle of its box. Halves are rounded down.
///
/// # Errors
/// Out of memory.
pub fn area_anchor(alloc: Global, g: &Geometry) -> Result<Option<Pos>, AllocError>
    requires { IsGeometry g.now }
    ensures { IfOk result (IsAreaAnchor g.now) }
{
    match g {
        Geometry::Polygon(rings) => Ok(Some(polygon_anchor(alloc, rings)?)),
        Geometry::MultiPolygon(parts) => {
            let parts = parts.as_slice();
            let largest = &parts[largest_part(parts)];
            Ok(Some(polygon_anchor(alloc, largest)?))
        }
        _ => Ok(None),
    }
}

// The number of the part whose outer ring has the greatest bounding box, the first at a tie.
fn largest_part(parts: &[Seq<Seq<Pos>>]) -> usize
    requires some { 0 < length parts.now }
    requires polygons { All IsPolygon parts.now }
    ensures { IsLargestPart parts.now result }
{
    let mut best = 0;
    let mut best_area = outer_area(&parts[0]);
    for i in 1..parts.len() {
        let area = outer_area(&parts[i]);
        if area > best_area {
            best = i;
            best_area = area;
        }
    }
    best
}

// The area of the bounding box of a polygon's outer ring.
fn outer_area(rings: &Seq<Seq<Pos>>) -> i128
    requires { IsPolygon rings.now }
    ensures { result ≡ box_area (outer rings.now) }
{
    area_of(rings.as_slice()[0].as_slice())
}

// The anchor of a polygon.
fn polygon_anchor(alloc: Global, rings: &Seq<Seq<Pos>>) -> Result<Pos, AllocError>
    requires { IsPolygon rings.now }
    ensures { IfOk result (IsPolygonAnchor rings.now) }
{
    let rings = rings.as_slice();
    let bounds = bounds_of(rings[0].as_slice());
    if bounds.south < bounds.north {
        let x = widest_middle(alloc, bounds.south + bounds.north, rings)?;
        let y = half(bounds.south, bounds.north);
        Ok(Pos { x, y })
    } else {
        let x = half(bounds.west, bounds.east);
        let y = bounds.south;
        Ok(Pos { x, y })
    }
}

// The middle of the widest stretch inside at half the height `h`.
fn widest_middle(alloc: Global, h: i64, rings: &[Seq<Pos>]) -> Result<i64, AllocError>
    requires { 2 ≤ length (crossings h rings.now) }
    ensures ok { IfOk result (IsMiddle (crossings h rings.now)) }
    ensures world { IfOk result IsInWorld }
{
    let mut found = crossings(alloc, h, rings)?;
    found.sort()?;
    let k = widest(&found);
    Ok(half(found[2 * k], found[2 * k + 1]))
}
