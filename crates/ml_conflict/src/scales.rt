//! The scales at which two boxes overlap: an open interval.
//!
//! For one pair of boxes, overlap is four strict inequalities `u < v * s` with whole `u` and `v`.
//! Each holds on an open interval of scales `s`, and so do all four.
ghost use Rattle.std.specs.Prelude.{ℕ, ℤ, pos, ◌≡◌, ◌*◌, ◌<◌, ◌≤◌, ◌^◌, ◌↔◌, ◌*ℤ◌, ◌<ℤ◌, IfSome, unsigned_abs, length, slice_index_or};
ghost use Rattle.ml_ratio.specs.Fraction.{Fraction, IsScale, value_of};
ghost use Rattle.ml_cone.specs.Plane.{IsWideOffset, IsWideBox, IsBox, SidesMeet};
ghost use Rattle.ml_ratio.specs.World.{IsInWorld};
ghost use Rattle.ml_cone.specs.Overlap.{RectanglesMeet, BoxesOverlap};
ghost use Rattle.ml_cone.specs.declared.label.BoxPx.{BoxPx};
ghost use Rattle.ml_conflict.specs.Between.{IsUnder, LiesBetween, LiesIn, LeavesRoom, BothAre};
ghost use Rattle.ml_ratio.specs.Quotient.{worth, IsLow, AreLowParts};
ghost use Rattle.ml_conflict.specs.Quotient.{HasLowEnds};

use ml_cone::{BoxPx, Label, widened};
use ml_ratio::{Quotient, Ratio};

/// An open interval of fractions: its lower end, and its upper end if it has one.
pub type Between = (Quotient, Option<Quotient>);

// The scales s with u < v * s.
fn half_line(u: i64, v: i64) -> Option<Between>
    requires u_small { unsigned_abs u ≤ 4000000000 }
    requires v_small { unsigned_abs v ≤ 1152 }
    ensures scales { (s : Fraction) → IsScale s →
        ((u *ℤ pos s.den) <ℤ (v *ℤ pos s.num)) ↔ LiesIn worth result s }
    ensures low { HasLowEnds result }
{
    let far = u.unsigned_abs();
    let wide = v.unsigned_abs();
    let zero = Quotient::new(0, 1);
    if v > 0 {
        if u > 0 {
            Some((Quotient::new(far, wide), None))
        } else {
            Some((zero, None))
        }
    } else if u >= 0 {
        None
    } else if v < 0 {
        Some((zero, Some(Quotient::new(far, wide))))
    } else {
        Some((zero, None))
    }
}

// The nearer of two upper ends.
fn nearer(a: Option<Quotient>, b: Option<Quotient>) -> Option<Quotient>
    ensures same { (s : Fraction) →
        IsUnder worth result s ↔ (IsUnder worth a s × IsUnder worth b s) }
    ensures low { IfSome a IsLow → IfSome b IsLow → IfSome result IsLow }
{
    match (a, b) {
        (Some(x), Some(y)) => Some(x.smaller(y)),
        (Some(x), None) => Some(x),
        (None, y) => y,
    }
}

// The scales in both intervals.
fn meet(a: Between, b: Between) -> Between
    ensures same { (s : Fraction) →
        LiesBetween worth result s ↔ (LiesBetween worth a s × LiesBetween worth b s) }
    ensures low { BothAre IsLow a → BothAre IsLow b → BothAre IsLow result }
{
    (a.0.larger(b.0), nearer(a.1, b.1))
}

// The interval, where it holds a scale.
fn kept(a: Between) -> Option<Between>
    ensures same { (s : Fraction) → LiesIn worth result s ↔ LiesBetween worth a s }
    ensures room { IfSome result (LeavesRoom worth) }
    ensures low { BothAre IsLow a → HasLowEnds result }
{
    match a.1 {
        Some(end) => { if a.0.is_less(end) { Some(a) } else { None } }
        None => Some(a),
    }
}

// The scales in both, if there are any.
fn both(a: Option<Between>, b: Option<Between>) -> Option<Between>
    ensures same { (s : Fraction) → LiesIn worth result s ↔ (LiesIn worth a s × LiesIn worth b s) }
    ensures room { IfSome result (LeavesRoom worth) }
    ensures low { HasLowEnds a → HasLowEnds b → HasLowEnds result }
{
    match (a, b) {
        (Some(x), Some(y)) => kept(meet(x, y)),
        _ => None,
    }
}

// The scales at which the sides `l..r` of `x` and `k..t` of `y` meet.
fn sides(x: i64, l: i32, r: i32, y: i64, k: i32, t: i32) -> Option<Between>
    requires x_in_world { IsInWorld x }
    requires y_in_world { IsInWorld y }
    requires l_in_range { IsWideOffset l }
    requires r_in_range { IsWideOffset r }
    requires k_in_range { IsWideOffset k }
    requires t_in_range { IsWideOffset t }
    ensures scales { (s : Fraction) → IsScale s → SidesMeet x l r y k t s ↔ LiesIn worth result s }
    ensures low { HasLowEnds result }
{
    let ahead = t as i64 - l as i64;
    let behind = r as i64 - k as i64;
    both(half_line(x - y, ahead), half_line(y - x, behind))
}

// The scales at which the rectangles that `p` covers about the anchor of `a`, and `q` about that of
// `b`, meet.
fn rectangles_interval(a: &Label, p: &BoxPx, b: &Label, q: &BoxPx) -> Option<Between>
    requires p_is_wide { IsWideBox p.now.l p.now.b p.now.r p.now.t }
    requires q_is_wide { IsWideBox q.now.l q.now.b q.now.r q.now.t }
    ensures scales { (s : Fraction) → IsScale s →
        RectanglesMeet a.now p.now b.now q.now s ↔ LiesIn worth result s }
    ensures room { IfSome result (LeavesRoom worth) }
    ensures low { HasLowEnds result }
{
    both(
        sides(a.x(), p.l, p.r, b.x(), q.l, q.r),
        sides(a.y(), p.b, p.t, b.y(), q.b, q.t),
    )
}

/// The scales at which the box `p` of `a` and the box `q` of `b` overlap, each widened by its
/// label's margin.
#[tactic(auto, unfolding(ml_cone::specs::Overlap::BoxesOverlap))]
pub fn boxes_interval(a: &Label, p: &BoxPx, b: &Label, q: &BoxPx) -> Option<Between>
    requires p_is_box { IsBox p.now.l p.now.b p.now.r p.now.t }
    requires q_is_box { IsBox q.now.l q.now.b q.now.r q.now.t }
    ensures scales { (s : Fraction) → IsScale s →
        BoxesOverlap a.now p.now b.now q.now s ↔ LiesIn worth result s }
    ensures room { IfSome result (LeavesRoom worth) }
    ensures low { HasLowEnds result }
{
    rectangles_interval(a, &widened(a, p), b, &widened(b, q))
}

// The ends in lowest terms.
fn reduced(between: Between) -> (Ratio, Option<Ratio>)
    ensures same { (s : Fraction) → LiesBetween value_of result s ↔ LiesBetween worth between s }
    ensures room { LeavesRoom worth between → LeavesRoom value_of result }
    ensures low { BothAre IsLow between → BothAre (λ end. AreLowParts end.num end.den) result }
{
    match between.1 {
        Some(end) => (between.0.reduced(), Some(end.reduced())),
        None => (between.0.reduced(), None),
    }
}

/// The open interval of positive scales at which the box `i` of `a` and the box `j` of `b` overlap,
/// each widened on every side by its label's margin, with both ends in lowest terms and no upper end
/// where the overlap never ends. Numerators are below 2^32, denominators at most 1152.
///
/// None exactly where they overlap at no scale.
pub fn interval(a: &Label, i: usize, b: &Label, j: usize) -> Option<(Ratio, Option<Ratio>)>
    requires i_is_box { i < length a.now.boxes }
    requires j_is_box { j < length b.now.boxes }
    ensures scales { (d : BoxPx) (s : Fraction) → IsScale s →
        BoxesOverlap a.now (slice_index_or a.now.boxes i d) b.now (slice_index_or b.now.boxes j d) s
        ↔ LiesIn value_of result s }
    ensures room { IfSome result (LeavesRoom value_of) }
    ensures low { IfSome result (BothAre (λ end. AreLowParts end.num end.den)) }
{
    let p = &a.boxes().as_slice()[i];
    let q = &b.boxes().as_slice()[j];
    match boxes_interval(a, p, b, q) {
        Some(between) => Some(reduced(between)),
        None => None,
    }
}
