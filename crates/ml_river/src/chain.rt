//! The boxes of a text's clusters along a run.
ghost use Rattle.std.specs.Prelude.{◌≡◌, ◌+◌, ◌^◌, ◌<◌, ◌≤◌, ◌↔◌, IsTrue, ℤ, pos, negsuc, ◌≤ℤ◌, ◌<ℤ◌, ◌+ℤ◌, ◌-ℤ◌, ◌/◌, length, sum, take, MatchOption, IfOk};
ghost use Rattle.ml_cone.specs.Plane.{IsOffset};
ghost use Rattle.ml_ratio.specs.World.{IsInWorld};
ghost use Rattle.ml_river.specs.Height.{IsRising, IsOutside};
ghost use Rattle.ml_river.specs.Chain.{width, edge, half_width, middle, raise, AreOffsets, HasSides, IsMiddleIn, IsRaisedBoxOrNone, IsClusterBoxOrNone, IsChainOrNone};

use crate::class::RiverClass;
use crate::height::height_on_run;
use ml_cone::BoxPx;
use ml_ratio::rounding::floor_of;
use ml_ratio::{Pos, Seq};
use std::alloc::{AllocError, Global};

// The width in pixels of a text whose advances have this sum: rounded up, at least 1.
fn width_of(class: RiverClass, total: u64) -> u64
    requires { total < 2 ^ 48 }
    ensures value { result ≡ width class total }
    ensures bound { result < 2 ^ 57 }
{
    let exact = (total * u64::from(class.size)).div_ceil(u64::from(class.units));
    exact.max(1)
}

// How far from the text's left end the cluster at `k` begins, in pixels, where the advances before it
// have the sum `before`; after the last one the text's width.
fn edge_at(class: RiverClass, advances: &[u64], k: usize, before: u64) -> u64
    requires there { k ≤ length advances.now }
    requires so_far { before ≡ sum (take k advances.now) }
    requires short { sum advances.now < 2 ^ 48 }
    ensures value { result ≡ edge class advances.now k }
    ensures bound { result < 2 ^ 57 }
{
    if k < advances.len() {
        before * u64::from(class.size) / u64::from(class.units)
    } else {
        width_of(class, before)
    }
}

// Where in the world a box with the sides `l` and `r` has its middle at the reference scale.
fn middle(class: RiverClass, x: i64, l: i64, r: i64) -> i128
    requires world { IsInWorld x }
    ensures { result ≡ middle class x l r }
{
    let doubled = l as i128 + r as i128;
    x as i128 + floor_of(doubled * i128::from(class.scale_ref), 2)
}

// How many pixels the height `h` lies above `y` at the reference scale, rounded down.
#[tactic(auto, unfolding(ml_ratio::specs::Floor::floor))]
fn raise(class: RiverClass, y: i64, h: i64) -> i64
    requires y_in_world { IsInWorld y }
    requires h_in_world { IsInWorld h }
    ensures value { result ≡ raise class y h }
    ensures low { negsuc 3999999999 ≤ℤ result }
    ensures high { result ≤ℤ pos 4000000000 }
{
    (h - y).div_euclid(i64::from(class.scale_ref))
}

// Whether the number is an offset of a box, -512 to 512 pixels.
fn is_offset(u: i64) -> bool
    ensures { IsTrue result ↔ IsOffset u }
{
    -512 <= u && u <= 512
}

// The box with these sides, if all four are offsets.
fn box_of(l: i64, b: i64, r: i64, t: i64) -> Option<BoxPx>
    requires across { l <ℤ r }
    requires up { b <ℤ t }
    ensures { MatchOption result (¬ (AreOffsets l b r t)) (HasSides l b r t) }
{
    if is_offset(l) && is_offset(b) && is_offset(r) && is_offset(t) {
        Some(BoxPx {
            l: l as i32,
            b: b as i32,
            r: r as i32,
            t: t as i32,
        })
    } else {
        None
    }
}

// The middle of a box with the sides `l` and `r`, if it lies in the run.
fn middle_in(class: RiverClass, run: &[Pos], x: i64, l: i64, r: i64) -> Option<i64>
    requires world { IsInWorld x }
    requires some { 0 < length run.now }
    ensures { MatchOption result (IsOutside run.now (middle class x l r))
        (IsMiddleIn class run.now x l r) }
{
    let x = middle(class, x, l, r);
    let first = run[0].x as i128;
    let last = run[run.len() - 1].x as i128;
    if x < first {
        None
    } else if last < x {
        None
    } else {
        Some(x as i64)
    }
}

// The box with the sides `l` and `r` about an anchor of a run, raised to the run's height at its
// middle; none where the middle lies outside the run or an offset is too large.
fn raised_box(class: RiverClass, run: &[Pos], anchor: Pos, l: i64, r: i64) -> Option<BoxPx>
    requires rising { IsRising run.now }
    requires some { 2 ≤ length run.now }
    requires across { l <ℤ r }
    ensures { IsRaisedBoxOrNone class run.now anchor.x anchor.y l r result }
{
    match middle_in(class, run, anchor.x, l, r) {
        Some(x) => {
            let rise = raise(class, anchor.y, height_on_run(run, x));
            let b = rise - i64::from(class.size / 2);
            let t = b + i64::from(class.size);
            box_of(l, b, r, t)
        }
        None => None,
    }
}

// The box of the cluster at `k`, where the advances before it have the sum `before`, and half of the
// text's width is `half`.
fn cluster_box(
    class: RiverClass,
    run: &[Pos],
    anchor: Pos,
    advances: &[u64],
    k: usize,
    before: u64,
    half: u64,
) -> Option<BoxPx>
    requires rising { IsRising run.now }
    requires some { 2 ≤ length run.now }
    requires there { k < length advances.now }
    requires so_far { before ≡ sum (take k advances.now) }
    requires short { sum advances.now < 2 ^ 48 }
    requires half { half ≡ half_width class advances.now }
    requires half_bound { half < 2 ^ 57 }
    ensures { IsClusterBoxOrNone class run.now anchor.x anchor.y advances.now k result }
{
    let start = edge_at(class, advances, k, before);
    let end = edge_at(class, advances, k + 1, before + advances[k]);
    let far = end.max(start + 1);
    raised_box(
        class,
        run,
        anchor,
        start as i64 - half as i64,
        far as i64 - half as i64,
    )
}

/// The chain of a text about an anchor of a run: a box for each cluster, raised to the run's height
/// at its middle. There is none for more than 64 clusters, where the middle of a box lies outside the
/// run, or where an offset is outside -512..=512.
///
/// # Errors
/// Out of memory.
pub fn chain(
    alloc: Global,
    class: RiverClass,
    run: &[Pos],
    anchor: Pos,
    advances: &[u64],
) -> Result<Option<Seq<BoxPx>>, AllocError>
    requires rising { IsRising run.now }
    requires some { 2 ≤ length run.now }
    requires short { sum advances.now < 2 ^ 48 }
    ensures { IfOk result (IsChainOrNone class run.now anchor.x anchor.y advances.now) }
{
    if advances.len() > 64 {
        return Ok(None);
    }
    let half = width_of(class, advances.iter().sum()) / 2;
    let mut boxes = Seq::new(alloc);
    let mut before = 0;
    for k in 0..advances.len() {
        match cluster_box(class, run, anchor, advances, k, before, half) {
            Some(cluster) => boxes.push(cluster)?,
            None => return Ok(None),
        }
        before += advances[k];
    }
    Ok(Some(boxes))
}
