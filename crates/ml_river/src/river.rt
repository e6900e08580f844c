//! Where the text of a river is placed.
ghost use Rattle.std.specs.Prelude.{◌≡◌, ◌-◌, ◌<◌, ◌≤◌, ◌^◌, pos, ◌+ℤ◌, All, IfOk, MatchOption, length, sum};
ghost use Rattle.ml_ratio.specs.World.{IsInWorld};
ghost use Rattle.ml_ratio.specs.Floor.{floor};
ghost use Rattle.ml_river.specs.Run.{x_at};
ghost use Rattle.ml_ratio.specs.Geometry.{IsGeometry, HasParts};
ghost use Rattle.ml_river.specs.Height.{IsRising, IsWithin};
ghost use Rattle.ml_river.specs.River.{IsPlacedOn, IsPlaced, IsRiver};

use crate::chain::chain;
use crate::class::RiverClass;
use crate::height::{height_on_run, turned};
use crate::runs::widest_run;
use ml_cone::BoxPx;
use ml_ratio::rounding::half;
use ml_ratio::{Geometry, Pos, Seq};
use std::alloc::{AllocError, Global};
use std::slice;

/// How a text lies at its anchor: as a chain of boxes, one for each cluster, or straight.
#[derive(Debug, Drop)]
pub enum Shape {
    Chain(Seq<BoxPx>),
    Straight,
}

/// An anchor, and how the text lies there.
#[derive(Debug, Drop)]
pub struct Placed {
    pub anchor: Pos,
    pub shape: Shape,
}

/// Where the text of a river is placed, for the advances of its clusters in units of the font; none
/// for shapes that are not lines.
///
/// The text lies on the longest stretch on which x strictly rises or strictly falls, measured in x,
/// the first at a tie: half way between its ends. It is a chain where each cluster's box, set at the
/// class's reference scale and raised to the height of the river at its middle, has its middle over
/// that stretch and its offsets in -512..=512, and there are at most 64 clusters. Otherwise it is
/// straight. Where no stretch has two positions, it is straight at the first position of the first
/// line. Each number is rounded down.
///
/// # Errors
/// Out of memory.
pub fn chain_of(
    alloc: Global,
    g: &Geometry,
    advances: &[u64],
    class: &RiverClass,
) -> Result<Option<Placed>, AllocError>
    requires geometry { IsGeometry g.now }
    requires some { 0 < length advances.now }
    requires short { sum advances.now < 2 ^ 48 }
    ensures { IfOk result (IsRiver g.now advances.now class.now) }
{
    match g {
        Geometry::LineString(line) => {
            Ok(Some(place(alloc, slice::from_ref(line), advances, *class)?))
        }
        Geometry::MultiLineString(lines) => {
            Ok(Some(place(alloc, lines.as_slice(), advances, *class)?))
        }
        _ => Ok(None),
    }
}

// Where the text of a river with these lines is placed.
fn place(
    alloc: Global,
    lines: &[Seq<Pos>],
    advances: &[u64],
    class: RiverClass,
) -> Result<Placed, AllocError>
    requires some { HasParts lines.now }
    requires parts { All HasParts lines.now }
    requires short { sum advances.now < 2 ^ 48 }
    ensures { IfOk result (IsPlaced class lines.now advances.now) }
{
    match widest_run(lines) {
        Some(widest) => {
            let line = lines[widest.line].as_slice();
            let run = turned(alloc, line, widest.from, widest.to)?;
            place_on(alloc, &run, advances, class)
        }
        None => Ok(Placed {
            anchor: lines[0].as_slice()[0],
            shape: Shape::Straight,
        }),
    }
}

// Where a text is placed on a run whose x rises.
fn place_on(
    alloc: Global,
    run: &[Pos],
    advances: &[u64],
    class: RiverClass,
) -> Result<Placed, AllocError>
    requires rising { IsRising run.now }
    requires some { 2 ≤ length run.now }
    requires short { sum advances.now < 2 ^ 48 }
    ensures { IfOk result (IsPlacedOn class run.now advances.now) }
{
    let x = middle_of(run);
    let y = height_on_run(run, x);
    let anchor = Pos { x, y };
    let shape = shape_of(chain(alloc, class, run, anchor, advances)?);
    Ok(Placed { anchor, shape })
}

// Half way between the ends of a run, in x.
fn middle_of(run: &[Pos]) -> i64
    requires rising { IsRising run.now }
    requires some { 2 ≤ length run.now }
    ensures value { result ≡ floor (x_at run.now 0 +ℤ x_at run.now (length run.now - 1)) (pos 2) }
    ensures world { IsInWorld result }
    ensures within { IsWithin run.now result }
{
    half(run[0].x, run[run.len() - 1].x)
}

// The chain, or straight where there is none.
fn shape_of(boxes: Option<Seq<BoxPx>>) -> Shape
    ensures { MatchOption boxes (result ≡ Shape.Straight) (λ chain. result ≡ Shape.Chain chain) }
{
    match boxes {
        Some(boxes) => Shape::Chain(boxes),
        None => Shape::Straight,
    }
}
