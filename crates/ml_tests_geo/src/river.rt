//! Places of texts on rivers. A case is `units size scale; advances; shape => anchor box ..`: how the
//! text is set, the advances of its clusters, and the river; then the anchor and, where the text is a
//! chain, its boxes.
ghost use Rattle.std.specs.Prelude.{◌<◌, ◌^◌, length, sum};

use crate::cases::{Subject, count, each_holds, feature_of};
use ml_cone::BoxPx;
use ml_ratio::lines::parts_of;
use ml_river::{Placed, RiverClass, Shape, chain_of};
use std::alloc::Global;
use std::process::Abort;

/// How the text is set that three words write.
fn class_of(rt: &impl Abort, alloc: Global, words: &str) -> RiverClass {
    let words = parts_of(alloc, words, ' ').expect(rt, "memory");
    match words.as_slice() {
        [units, size, scale_ref] => {
            let (units, size, scale_ref) = (
                count(rt, units),
                count(rt, size),
                count(rt, scale_ref),
            );
            set(rt, units, size, scale_ref)
        }
        _ => panic!(rt; "three numbers"),
    }
}

/// How a text is set, if these numbers say it.
fn set(rt: &impl Abort, units: u32, size: u32, scale_ref: u32) -> RiverClass {
    if 1 <= units
        && units <= 65535
        && 1 <= size
        && size <= 256
        && 1 <= scale_ref
        && scale_ref <= 268435455
    {
        RiverClass {
            units,
            size,
            scale_ref,
        }
    } else {
        panic!(rt; "a class")
    }
}

/// At least one advance, with a sum below 2^33.
fn advances_of(rt: &impl Abort, alloc: Global, words: &str) -> Vec<u64>
    ensures { (0 < length result.items) × (sum result.items < 2 ^ 48) }
{
    let mut all = Vec::new(alloc);
    let mut total = 0;
    for word in words.split(' ') {
        let advance = u64::from(count(rt, word));
        if total > 4294967295 {
            panic!(rt; "short advances");
        }
        all.push(advance).expect(rt, "memory");
        total += advance;
    }
    if all.is_empty() {
        panic!(rt; "an advance");
    }
    all
}

/// A box after a space.
fn box_told(rt: &impl Abort, alloc: Global, px: &BoxPx) -> String {
    let (l, b, r, t) = (px.l, px.b, px.r, px.t);
    format!(in alloc; " {l},{b},{r},{t}").expect(rt, "memory")
}

/// The boxes of a chain, each after a space; of more than four their count.
fn boxes_told(rt: &impl Abort, alloc: Global, boxes: &[BoxPx]) -> String {
    let count = boxes.len();
    if count > 4 {
        return format!(in alloc; " {count} boxes").expect(rt, "memory");
    }
    let mut told = String::new(alloc);
    for px in boxes {
        told.push_str(box_told(rt, alloc, px).as_str())
            .expect(rt, "memory");
    }
    told
}

/// The anchor, and the boxes of a chain.
fn placed_told(rt: &impl Abort, alloc: Global, placed: &Placed) -> String {
    let (x, y) = (placed.anchor.x, placed.anchor.y);
    let boxes = match &placed.shape {
        Shape::Chain(boxes) => boxes_told(rt, alloc, boxes.as_slice()),
        Shape::Straight => String::new(alloc),
    };
    let boxes = boxes.as_str();
    format!(in alloc; "{x},{y}{boxes}").expect(rt, "memory")
}

/// Where the text of a river lies, or that the shape is none.
fn river_told(rt: &impl Abort, alloc: Global, input: &str) -> String {
    let (class, rest) = input.split_once("; ").expect(rt, "a class");
    let (advances, shape) = rest.split_once("; ").expect(rt, "advances");
    let class = class_of(rt, alloc, class);
    let advances = advances_of(rt, alloc, advances);
    let feature = feature_of(rt, alloc, shape);
    let Some(shape) = &feature.geometry else {
        panic!(rt; "a shape");
    };
    match chain_of(alloc, shape, &advances, &class).expect(rt, "memory") {
        Some(placed) => placed_told(rt, alloc, &placed),
        None => format!(in alloc; "none").expect(rt, "memory"),
    }
}

/// The places of texts on rivers.
struct OnRiver;

impl Subject for OnRiver {
    fn holds(rt: &impl Abort, alloc: Global, input: &str, want: &str) -> bool {
        river_told(rt, alloc, input).as_str() == want
    }
}

/// A chain follows its river. One that is written from east to west has the same chain.
const FOLLOWING: &str = "\
1000 20 1000; 500 250 500 500; MultiLineString [[[0,0],[200000,100000],[400000,0]]] => 200000,100000 -17,-16,-7,4 -7,-13,-2,7 -2,-12,8,8 8,-17,18,3
1000 20 1000; 500 500; MultiLineString [[[0,0],[200000,100000],[400000,0]]] => 200000,100000 -10,-13,0,7 0,-13,10,7
1000 20 1000; 500 500; MultiLineString [[[400000,0],[200000,100000],[0,0]]] => 200000,100000 -10,-13,0,7 0,-13,10,7";

/// A chain climbs with its river. A slope of 1/2: 5,000 to the west 2,500 down, which is -3 pixels, and
/// 2 to the east.
const CLIMBING: &str = "\
1000 20 1000; 500 500; MultiLineString [[[0,0],[1000000,500000]]] => 500000,250000 -10,-13,0,7 0,-8,10,12
1000 20 1000; 500 500; MultiLineString [[[1000000,500000],[0,0]]] => 500000,250000 -10,-13,0,7 0,-8,10,12
1000 20 1000; 500 500; MultiLineString [[[0,500000],[1000000,0]]] => 500000,250000 -10,-8,0,12 0,-13,10,7
1000 20 1000; 500 500; MultiLineString [[[1000000,0],[0,500000]]] => 500000,250000 -10,-8,0,12 0,-13,10,7";

/// Boxes begin at whole pixels. Clusters without width are a pixel wide. 1.5 pixels are 2, of which a
/// third and two thirds are 0 and 1.
const BOXES: &str = "\
1 10 100; 1 1; MultiLineString [[[0,0],[1000000,0]]] => 500000,0 -10,-5,0,5 0,-5,10,5
1 10 100; 0 1 0; MultiLineString [[[0,0],[1000000,0]]] => 500000,0 -5,-5,-4,5 -5,-5,5,5 5,-5,6,5
1 10 100; 0; MultiLineString [[[0,0],[1000000,0]]] => 500000,0 0,-5,1,5
2 1 100; 1 1 1; MultiLineString [[[0,0],[1000000,0]]] => 500000,0 -1,0,0,1 -1,0,0,1 0,0,1,1
65535 256 100; 65535; MultiLineString [[[0,0],[1000000,0]]] => 500000,0 -128,-128,128,128
65535 255 100; 1; MultiLineString [[[0,0],[1000000,0]]] => 500000,0 0,-127,1,128
3 7 100; 1 1; MultiLineString [[[0,0],[1000000,0]]] => 500000,0 -2,-3,0,4 0,-3,3,4";

/// The widest run counts, and of equal ones the first. There and back; lines side by side; up, 4 to the
/// east, up, 2 to the east; a place twice; 5 to the west, 20 to the east, 5 to the west; the anchor on the
/// last edge, and where two edges meet.
const RUNS: &str = "\
1000 20 1000; 500 500; MultiLineString [[[0,0],[10,5],[0,20]]] => 5,2
1000 20 1000; 500 500; MultiLineString [[[10,5],[0,20],[10,40]]] => 5,12
1000 20 1000; 500 500; MultiLineString [[[0,0],[10,0]],[[0,7],[10,7]]] => 5,0
1000 20 1000; 500 500; MultiLineString [[[0,0],[10,0]],[[0,7],[11,7]]] => 5,7
1000 20 1000; 500 500; MultiLineString [[[3,3]],[[0,0],[10,0]]] => 5,0
1000 20 1000; 500 500; MultiLineString [[[0,0],[0,10],[4,10],[4,20],[6,20]]] => 2,10
1000 20 1000; 500 500; MultiLineString [[[0,0],[5,0],[5,0],[9,4]]] => 2,0
1000 20 1000; 500 500; MultiLineString [[[0,0],[4,0],[4,0],[9,4]]] => 6,1
1000 20 1000; 500 500; MultiLineString [[[5,0],[0,0],[20,10],[15,10]]] => 10,5
1000 20 1000; 500 500; MultiLineString [[[15,10],[20,10],[0,0],[5,0]]] => 10,5
1000 20 1000; 500 500; MultiLineString [[[0,0],[1,5],[2,6],[10,10]]] => 5,7
1000 20 1000; 500 500; MultiLineString [[[0,0],[5,7],[10,0]]] => 5,7";

/// Places and heights are rounded down. The width of the text leaves no chain.
const ROUNDED: &str = "\
1000 20 1000; 500000; MultiLineString [[[-3,0],[0,0]]] => -2,0
1000 20 1000; 500000; MultiLineString [[[0,0],[3,-1]]] => 1,-1
1000 20 1000; 500000; MultiLineString [[[0,0],[3,1]]] => 1,0
1000 20 1000; 500000; MultiLineString [[[3,-1],[0,0]]] => 1,-1
1000 20 1000; 500000; MultiLineString [[[-2000000000,2000000000],[1999999999,-2000000000]]] => -1,0";

/// Without a run the first position is the anchor: lines on which x nowhere rises or falls.
const WITHOUT_RUN: &str = "\
1000 20 1; 500 500; MultiLineString [[[7,-8]]] => 7,-8
1000 20 1; 500 500; MultiLineString [[[7,8]],[[1,1]]] => 7,8
1000 20 1; 500 500; MultiLineString [[[3,1],[3,9]]] => 3,1
1000 20 1; 500 500; MultiLineString [[[3,9],[3,1],[3,9]],[[4,4]]] => 3,9
1000 20 1; 500 500; MultiLineString [[[2000000000,-2000000000],[2000000000,2000000000]]] => 2000000000,-2000000000";

/// A chain needs its middles over the run. Two clusters have their middles 5,000 from the anchor: at the
/// run's ends, or beyond the western one. Narrower ones have them 4,500 from it, the one 1 before the
/// eastern end.
const OVER_THE_RUN: &str = "\
1000 20 1000; 500 250 500 500; MultiLineString [[[0,0],[5000,0]]] => 2500,0
1000 20 1000; 500 500; MultiLineString [[[0,0],[10000,0]]] => 5000,0 -10,-10,0,10 0,-10,10,10
1000 20 1000; 500 500; MultiLineString [[[0,0],[9999,0]]] => 4999,0
1000 20 1000; 500; MultiLineString [[[0,0],[2,0]]] => 1,0 -5,-10,5,10
1000 20 1000; 450 450; MultiLineString [[[0,0],[9001,0]]] => 4500,0 -9,-10,0,10 0,-10,9,10";

/// A chain is no wider and no higher than its offsets allow: 1,024 pixels and 1,025; then 5,000 to the
/// east 502,000 up, and 503,000.
const OFFSETS: &str = "\
1000 256 1000; 4000; MultiLineString [[[0,0],[10000000,0]]] => 5000000,0 -512,-128,512,128
1000 256 1000; 4001; MultiLineString [[[0,0],[10000000,0]]] => 5000000,0
1000 20 1000; 500 500; MultiLineString [[[0,0],[10000000,1004000000]]] => 5000000,502000000 -10,-512,0,-492 0,492,10,512
1000 20 1000; 500 500; MultiLineString [[[0,0],[10000000,1006000000]]] => 5000000,503000000
1000 20 1000; 500 500; MultiLineString [[[0,1006000000],[10000000,0]]] => 5000000,503000000
1000 20 1000; 4294967295 4294967295; MultiLineString [[[0,0],[10000000,0]]] => 5000000,0";

/// The longest river has a chain at the largest scale, from corner to corner of the world.
const LONGEST: &str = "\
1000 20 268435455; 500 500; MultiLineString [[[-2000000000,-2000000000],[2000000000,2000000000]]] => 0,0 -10,-15,0,5 0,-5,10,15";

/// A chain has at most 64 clusters: one, 64 and 65.
const CLUSTERS: &str = "\
1 1 1; 1; MultiLineString [[[0,0],[1000000,0]]] => 500000,0 0,0,1,1
1 1 1; 1 1 1 1 1 1 1 1 1 1 1 1 1 1 1 1 1 1 1 1 1 1 1 1 1 1 1 1 1 1 1 1 1 1 1 1 1 1 1 1 1 1 1 1 1 1 1 1 1 1 1 1 1 1 1 1 1 1 1 1 1 1 1 1; MultiLineString [[[0,0],[1000000,0]]] => 500000,0 64 boxes
1 1 1; 1 1 1 1 1 1 1 1 1 1 1 1 1 1 1 1 1 1 1 1 1 1 1 1 1 1 1 1 1 1 1 1 1 1 1 1 1 1 1 1 1 1 1 1 1 1 1 1 1 1 1 1 1 1 1 1 1 1 1 1 1 1 1 1 1; MultiLineString [[[0,0],[1000000,0]]] => 500000,0";

/// Only lines are rivers: a line, and shapes that are no lines.
const KINDS: &str = "\
1000 20 1000; 500 500; LineString [[0,0],[1000000,500000]] => 500000,250000 -10,-13,0,7 0,-8,10,12
1000 20 1000; 500; Point [0,0] => none
1000 20 1000; 500; MultiPoint [[0,0],[9,9]] => none
1000 20 1000; 500; Polygon [[[0,0],[4,0],[4,4],[0,0]]] => none
1000 20 1000; 500; MultiPolygon [[[[0,0],[4,0],[4,4],[0,0]]]] => none";

#[test]
fn chains_follow_their_rivers(rt: HostRuntime) {
    for table in [FOLLOWING, CLIMBING, BOXES, LONGEST] {
        each_holds::<OnRiver>(&rt, rt.alloc(), table);
    }
}

#[test]
fn the_widest_run_has_the_anchor(rt: HostRuntime) {
    for table in [RUNS, ROUNDED, WITHOUT_RUN] {
        each_holds::<OnRiver>(&rt, rt.alloc(), table);
    }
}

#[test]
fn chains_have_limits(rt: HostRuntime) {
    for table in [OVER_THE_RUN, OFFSETS, CLUSTERS, KINDS] {
        each_holds::<OnRiver>(&rt, rt.alloc(), table);
    }
}
