//! The scales at which a box meets a window.
//!
//! For one box that is four strict inequalities `u < v * s` with whole `u` and `v`, each of which
//! cuts a stay at one end at most.
ghost use Rattle.std.specs.Prelude.{◌≡◌, ◌*◌, ◌<◌, ◌≤◌, ◌%◌, ◌^◌, ◌↔◌, pos, ◌*ℤ◌, ◌<ℤ◌, unsigned_abs};
ghost use Rattle.ml_ratio.specs.Fraction.{Fraction};
ghost use Rattle.ml_ratio.specs.World.{IsInWorld};
ghost use Rattle.ml_cone.specs.Plane.{IsOffset, IsBox, SideInWindow};
ghost use Rattle.ml_flight.specs.Shown.{BoxInWindow};
ghost use Rattle.ml_flight.specs.Stay.{HoldsScale, HoldsIfSome};

use crate::stay::Stay;
use crate::window::Window;
use ml_cone::{BoxPx, Label};
use ml_ratio::Ratio;

// The fraction `num/den`.
pub(crate) fn quotient(num: u64, den: u64) -> Ratio
    requires positive { 0 < den }
    requires low_num { num ≤ 2 ^ 32 }
    requires low_den { den ≤ 2 ^ 16 }
    ensures { result.num * den ≡ num * result.den }
{
    match Ratio::of(num, den) {
        Some(ratio) => ratio,
        None => unreachable!(),
    }
}

// The scales s of the stay with u < v * s, if there are any.
fn narrowed(stay: Stay, u: i64, v: i64) -> Option<Stay>
    requires u_small { unsigned_abs u ≤ 4000000000 }
    requires v_small { unsigned_abs v ≤ 2560 }
    ensures { (s : Fraction) →
        HoldsIfSome result s ↔ (HoldsScale stay s × ((u *ℤ pos s.den) <ℤ (v *ℤ pos s.num))) }
{
    let far = u.unsigned_abs();
    let wide = v.unsigned_abs();
    if v > 0 {
        if u >= 0 {
            stay.above(quotient(far, wide))
        } else {
            Some(stay)
        }
    } else if u >= 0 {
        None
    } else if v < 0 {
        stay.below(quotient(far, wide))
    } else {
        Some(stay)
    }
}

// The scales of the stay at which the side `l..r` of `x` meets the window of `w` pixels about `c`.
fn side_stay(stay: Stay, x: i64, l: i32, r: i32, c: i64, w: u32) -> Option<Stay>
    requires x_in_world { IsInWorld x }
    requires c_in_world { IsInWorld c }
    requires l_in_range { IsOffset l }
    requires r_in_range { IsOffset r }
    requires low_w { w ≤ 4096 }
    requires even_w { w % 2 ≡ 0 }
    ensures { (s : Fraction) →
        HoldsIfSome result s ↔ (HoldsScale stay s × SideInWindow x l r c w s) }
{
    let half = (w / 2) as i64;
    let ahead = half - l as i64;
    let behind = half + r as i64;
    match narrowed(stay, x - c, ahead) {
        Some(rest) => narrowed(rest, c - x, behind),
        None => None,
    }
}

// The scales of the stay at which the box of the label meets the window, if there are any.
#[tactic(auto, unfolding(crate::specs::Shown::BoxInWindow))]
pub(crate) fn box_stay(stay: Stay, label: &Label, p: &BoxPx, at: &Window) -> Option<Stay>
    requires { IsBox p.now.l p.now.b p.now.r p.now.t }
    ensures { (s : Fraction) →
        HoldsIfSome result s ↔ (HoldsScale stay s × BoxInWindow label.now at.now p.now s) }
{
    match side_stay(stay, label.x(), p.l, p.r, at.cx, at.w) {
        Some(rest) => side_stay(rest, label.y(), p.b, p.t, at.cy, at.h),
        None => None,
    }
}
