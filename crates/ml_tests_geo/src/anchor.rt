//! Anchors of points and areas. A case is a shape by its name, `name: shape => point area`: the anchor
//! that it has as a point, and the one that it has as an area, in world units.
ghost use Rattle.std.specs.Prelude.{◌↔◌, IsTrue};
ghost use Rattle.ml_ratio.specs.Geometry.{IsRing, IsGeometry};

use crate::cases::{Subject, each_holds, feature_of};
use ml_anchor::{area_anchor, point_anchor};
use ml_ratio::{Geometry, Pos, Seq};
use std::alloc::Global;
use std::process::Abort;

/// The position's numbers, and `-` for none.
fn place_told(rt: &impl Abort, alloc: Global, place: Option<Pos>) -> String {
    match place {
        Some(place) => {
            let (x, y) = (place.x, place.y);
            format!(in alloc; "{x},{y}").expect(rt, "memory")
        }
        None => format!(in alloc; "-").expect(rt, "memory"),
    }
}

/// The anchor of an area.
fn area_told(rt: &impl Abort, alloc: Global, shape: &Geometry) -> String
    requires { IsGeometry shape.now }
{
    place_told(rt, alloc, area_anchor(alloc, shape).expect(rt, "memory"))
}

/// The anchors of a shape.
fn anchors_told(rt: &impl Abort, alloc: Global, shape: &Geometry) -> String
    requires { IsGeometry shape.now }
{
    let mut told = place_told(rt, alloc, point_anchor(shape));
    told.push(' ').expect(rt, "memory");
    told.push_str(area_told(rt, alloc, shape).as_str())
        .expect(rt, "memory");
    told
}

/// The anchors of the shape of a case.
fn case_told(rt: &impl Abort, alloc: Global, input: &str) -> String {
    let (_name, shape) = input.split_once(": ").expect(rt, "a name");
    let feature = feature_of(rt, alloc, shape);
    match &feature.geometry {
        Some(shape) => anchors_told(rt, alloc, shape),
        None => panic!(rt; "a shape"),
    }
}

/// The anchors of shapes.
struct Anchored;

impl Subject for Anchored {
    fn holds(rt: &impl Abort, alloc: Global, input: &str, want: &str) -> bool {
        case_told(rt, alloc, input).as_str() == want
    }
}

/// A polygon is anchored in its widest stretch.
const WIDEST: &str = "\
a horseshoe, whose arms tie but for their width: Polygon [[[0,0],[60000000,0],[60000000,40000000],[40000000,40000000],[40000000,10000000],[10000000,10000000],[10000000,40000000],[0,40000000],[0,0]]] => - 50000000,20000000
a hole (0..2 and 8..10 are left, which tie): Polygon [[[0,0],[10,0],[10,10],[0,10],[0,0]],[[2,2],[8,2],[8,8],[2,8],[2,2]]] => - 1,5
a hole to the west (0..1 and 7..10 are left): Polygon [[[0,0],[10,0],[10,10],[0,10],[0,0]],[[1,2],[7,2],[7,8],[1,8],[1,2]]] => - 8,5
two holes that touch (0..2, 5..5 and 7..12 are left): Polygon [[[0,0],[12,0],[12,4],[0,4],[0,0]],[[2,1],[5,1],[5,3],[2,3],[2,1]],[[5,1],[7,1],[7,3],[5,3],[5,1]]] => - 9,2
a first ring within the second (the second ring is larger, but the first gives the height, 10 to the west, 8 to the east): Polygon [[[0,0],[2,0],[2,2],[0,2],[0,0]],[[-10,-10],[10,-10],[10,10],[-10,10],[-10,-10]]] => - -5,1
a ring that crosses itself (0..2 and 2..4, which tie): Polygon [[[0,0],[4,4],[4,0],[0,4],[0,0]]] => - 1,2
a ring that doubles back (the same way there and back, 0..0 and 4..4): Polygon [[[0,0],[4,4],[4,4],[0,0],[0,0]]] => - 2,2";

/// Level edges and lower ends count once.
const ONCE: &str = "\
a step on the line (the step at the height 2 gives its inner end only, 0..2): Polygon [[[0,0],[4,0],[4,2],[2,2],[2,4],[0,4],[0,0]]] => - 1,2
a step below the line (upside down the step is passed below, 0..4): Polygon [[[0,0],[2,0],[2,2],[4,2],[4,4],[0,4],[0,0]]] => - 2,2
a notch from above (a corner that touches the line from above counts twice, from below not at all): Polygon [[[0,0],[6,0],[6,4],[4,4],[2,2],[1,4],[0,4],[0,0]]] => - 4,2
a notch from below: Polygon [[[0,0],[1,0],[2,2],[4,0],[6,0],[6,4],[0,4],[0,0]]] => - 3,2
a diamond: Polygon [[[0,2],[3,0],[6,2],[3,4],[0,2]]] => - 3,2";

/// Halves are rounded down.
const ROUNDED: &str = "\
a square below zero: Polygon [[[-3,-3],[0,-3],[0,0],[-3,0],[-3,-3]]] => - -2,-2
a slope (the slope is crossed at -3.5, which is -4, and half of -7 and -4 is -5.5): Polygon [[[0,0],[-7,3],[-7,0],[0,0]]] => - -6,1
no height: Polygon [[[0,5],[3,5],[7,5],[0,5]]] => - 3,5
no height, below zero: Polygon [[[-4,-5],[3,-5],[1,-5],[-4,-5]]] => - -1,-5
no height and no width: Polygon [[[9,9],[9,9],[9,9],[9,9]]] => - 9,9
no width: Polygon [[[9,0],[9,3],[9,1],[9,0]]] => - 9,1";

/// Shapes as large as the world.
const WORLD: &str = "\
all of it: Polygon [[[-2000000000,-2000000000],[2000000000,-2000000000],[2000000000,2000000000],[-2000000000,2000000000],[-2000000000,-2000000000]]] => - 0,0
half of it (the slope is crossed at 0): Polygon [[[-2000000000,-2000000000],[2000000000,-2000000000],[2000000000,2000000000],[-2000000000,-2000000000]]] => - 1000000000,0
its eastern rim (crossed half way between 1999999999 and 2000000000, which rounds down to the west end): Polygon [[[2000000000,-2000000000],[2000000000,2000000000],[1999999999,2000000000],[2000000000,-2000000000]]] => - 1999999999,0
its western rim: Polygon [[[-2000000000,-2000000000],[-2000000000,2000000000],[-1999999999,2000000000],[-2000000000,-2000000000]]] => - -2000000000,0";

/// Of several polygons the greatest box counts.
const PARTS: &str = "\
two islands: MultiPolygon [[[[0,0],[10000000,0],[10000000,10000000],[0,10000000],[0,0]]],[[[20000000,0],[40000000,0],[40000000,20000000],[20000000,20000000],[20000000,0]]]] => - 30000000,10000000
a tie: MultiPolygon [[[[0,0],[4,0],[4,4],[0,4],[0,0]]],[[[10,0],[14,0],[14,4],[10,4],[10,0]]]] => - 2,2
a wide one and a large one: MultiPolygon [[[[0,0],[10,0],[10,1],[0,1],[0,0]]],[[[20,0],[24,0],[24,4],[20,4],[20,0]]]] => - 22,2
a high one and a large one: MultiPolygon [[[[0,0],[1,0],[1,10],[0,10],[0,0]]],[[[20,0],[24,0],[24,4],[20,4],[20,0]]]] => - 22,2
the box, not the shape (a triangle has half the area of its box): MultiPolygon [[[[0,0],[5,0],[0,5],[0,0]]],[[[20,0],[24,0],[24,4],[20,4],[20,0]]]] => - 1,2";

/// Only the outer rings are compared.
const OUTER: &str = "\
the outer ring (a second ring does not count): MultiPolygon [[[[0,0],[3,0],[3,3],[0,3],[0,0]],[[0,0],[90,0],[90,90],[0,90],[0,0]]],[[[20,0],[24,0],[24,4],[20,4],[20,0]]]] => - 22,2
one without height and a small one: MultiPolygon [[[[0,7],[90,7],[50,7],[0,7]]],[[[0,0],[1,0],[1,1],[0,0]]]] => - 0,0
only ones without height: MultiPolygon [[[[5,7],[90,7],[50,7],[5,7]]],[[[0,0],[0,3],[0,2],[0,0]]]] => - 47,7
two of the whole world: MultiPolygon [[[[-2000000000,-2000000000],[2000000000,-2000000000],[2000000000,2000000000],[-2000000000,-2000000000]]],[[[-2000000000,-2000000000],[2000000000,-2000000000],[2000000000,2000000000],[-2000000000,2000000000],[-2000000000,-2000000000]]]] => - 1000000000,0";

/// Each kind of shape: its anchor as a point, and as an area.
const OTHERS: &str = "\
a point: Point [-7,2000000000] => -7,2000000000 -
some points: MultiPoint [[3,4],[-5,6]] => 3,4 -
a line: LineString [[3,4],[-5,6]] => - -
some lines: MultiLineString [[[3,4],[-5,6]]] => - -
an area: Polygon [[[0,0],[4,0],[4,4],[0,0]]] => - 3,2
an area of one part: MultiPolygon [[[[0,0],[4,0],[4,4],[0,0]]]] => - 3,2";

#[test]
fn an_area_is_anchored_in_its_widest_stretch(rt: HostRuntime) {
    for table in [WIDEST, ONCE, ROUNDED, WORLD] {
        each_holds::<Anchored>(&rt, rt.alloc(), table);
    }
}

#[test]
fn of_several_polygons_the_greatest_box_counts(rt: HostRuntime) {
    for table in [PARTS, OUTER] {
        each_holds::<Anchored>(&rt, rt.alloc(), table);
    }
}

#[test]
fn points_and_areas_have_anchors_of_their_own(rt: HostRuntime) {
    each_holds::<Anchored>(&rt, rt.alloc(), OTHERS)
}

/// The position, which has to lie in the world.
fn place(rt: &impl Abort, x: i64, y: i64) -> Pos {
    if -2000000000 <= x && x <= 2000000000 && -2000000000 <= y && y <= 2000000000 {
        Pos { x, y }
    } else {
        panic!(rt; "a place in the world")
    }
}

/// Adds a position.
fn push_place(rt: &impl Abort, all: &mut Seq<Pos>, x: i64, y: i64) {
    let place = place(rt, x, y);
    all.push(place).expect(rt, "memory")
}

/// A million positions: teeth 4,000 wide, from the height 0 up to 10.
fn saw(rt: &impl Abort, alloc: Global) -> Seq<Pos> {
    let mut all = Seq::new(alloc);
    for i in 0..999998u32 {
        let i = i64::from(i);
        push_place(rt, &mut all, 2000 * i - 1000000000, 10 * (i % 2));
    }
    push_place(rt, &mut all, 999994000, -10);
    push_place(rt, &mut all, -1000000000, 0);
    all
}

/// Whether the positions are closed and at least four.
fn is_ring(ring: &[Pos]) -> bool
    ensures { IsTrue result ↔ IsRing ring.now }
{
    if ring.len() < 4 {
        return false;
    }
    let (first, last) = (ring[0], ring[ring.len() - 1]);
    first.x == last.x && first.y == last.y
}

/// The polygon of one ring, if the positions are one.
fn polygon(rt: &impl Abort, alloc: Global, ring: Seq<Pos>) -> Geometry
    ensures { IsGeometry result }
{
    if !is_ring(ring.as_slice()) {
        panic!(rt; "a ring");
    }
    let mut rings = Seq::new(alloc);
    rings.push(ring).expect(rt, "memory");
    Geometry::Polygon(rings)
}

/// The anchor of the polygon of a million positions.
fn saw_told(rt: &impl Abort, alloc: Global) -> String {
    let ring = saw(rt, alloc);
    let shape = polygon(rt, alloc, ring);
    area_told(rt, alloc, &shape)
}

#[test]
fn a_million_positions_have_an_anchor(rt: HostRuntime) {
    assert!(rt; saw_told(&rt, rt.alloc()).as_str() == "-999998000,0");
}
