//! How far labels reach from their anchors, and what is too far away for a limit.
ghost use Rattle.std.specs.Prelude.{ℕ, ◌≡◌, ◌≤◌, All, IsTrue};
ghost use Rattle.ml_ratio.specs.World.{IsInWorld};
ghost use Rattle.ml_cone.specs.Plane.{IsWideBox};
ghost use Rattle.ml_conflict.specs.Field.{IsBeyond};
ghost use Rattle.ml_conflict.specs.Reach.{IsWithin, Reaches, IsFar, anchor_on};

use crate::axis::Axis;
use ml_cone::{BoxPx, Label, widened};
use ml_ratio::Ratio;

/// How many pixels one of the labels reaches from its anchor on the axis at most, up to 576: within so many, to
/// each side, lie the boxes of each, widened by its margin.
pub fn greatest_reach(axis: Axis, labels: &[Label]) -> u32
    ensures reaches { All (λ a. Reaches axis a result) labels.now }
    ensures low { result ≤ 576 }
{
    let mut reach = 0;
    for i in 0..labels.len() {
        reach = larger(reach, reach_of(axis, &labels[i]));
    }
    reach
}

/// How many pixels the label reaches from its anchor on the axis, up to 576.
pub fn reach_of(axis: Axis, label: &Label) -> u32
    ensures reaches { Reaches axis label.now result }
    ensures low { result ≤ 576 }
{
    let mut reach = 0;
    for p in label.boxes().as_slice() {
        reach = larger(reach, side_of(axis, &widened(label, p)));
    }
    reach
}

/// The coordinate of the label's anchor on the axis, in world units.
pub fn anchor_on(axis: Axis, label: &Label) -> i64
    ensures is { result ≡ anchor_on axis label.now }
    ensures world { IsInWorld result }
{
    match axis {
        Axis::Across => label.x(),
        Axis::Along => label.y(),
    }
}

// How many pixels from the anchor the box reaches on the axis.
fn side_of(axis: Axis, p: &BoxPx) -> u32
    requires { IsWideBox p.now.l p.now.b p.now.r p.now.t }
    ensures within { IsWithin axis result p.now }
    ensures low { result ≤ 576 }
{
    match axis {
        Axis::Across => larger(p.l.unsigned_abs(), p.r.unsigned_abs()),
        Axis::Along => larger(p.b.unsigned_abs(), p.t.unsigned_abs()),
    }
}

/// The greater of the two.
pub fn larger(a: u32, b: u32) -> u32
    ensures first { a ≤ result }
    ensures second { b ≤ result }
    ensures low { (m : ℕ) → a ≤ m → b ≤ m → result ≤ m }
{
    if a < b { b } else { a }
}

/// Whether two coordinates of anchors are so far apart that labels that reach so many pixels toward each
/// other together set no limit up to the bound.
pub fn is_far(a: i64, b: i64, pixels: u64, bound: &Ratio) -> bool
    requires a_in_world { IsInWorld a }
    requires b_in_world { IsInWorld b }
    requires few { pixels ≤ 1152 }
    ensures { IsTrue result → IsFar a b pixels bound.now }
{
    pixels * (bound.num() + 1) <= (a - b).unsigned_abs() * bound.den()
}

/// Whether the coordinate `ahead` lies beyond the other, too far away for labels that reach so many pixels
/// toward each other together to set a limit up to the bound.
pub fn is_beyond(ahead: i64, behind: i64, pixels: u64, bound: &Ratio) -> bool
    requires ahead_in_world { IsInWorld ahead }
    requires behind_in_world { IsInWorld behind }
    requires few { pixels ≤ 1152 }
    ensures { IsTrue result → IsBeyond ahead behind pixels bound.now }
{
    behind <= ahead && is_far(ahead, behind, pixels, bound)
}
