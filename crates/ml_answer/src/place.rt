//! Where a box of a label lies in the window of a view.
ghost use Rattle.std.specs.Prelude.{ℤ, pos, ◌-ℤ◌, ◌<ℤ◌, ◌≡◌, ◌<◌, ◌≤◌, ◌^◌, unsigned_abs};
ghost use Rattle.std.specs.Int.{int_div_euclid};
ghost use Rattle.ml_answer.specs.Svg.{hundredths, left_px, bottom_px};

use ml_cone::{BoxPx, Label, View};
use ml_ratio::Ratio;

// Hundredths of a pixel from the view's left edge to the left edge of a label's box.
pub(crate) fn left_of(view: &View, label: &Label, p: &BoxPx) -> i64
    ensures { result ≡ left_px view.now label.now p.now }
{
    let offset = 100 * ((view.w / 2) as i64 + p.l as i64);
    offset + hundredths_of(label.x() - view.cx, view.scale)
}

// Hundredths of a pixel from the view's top edge down to the bottom edge of a label's box.
pub(crate) fn bottom_of(view: &View, label: &Label, p: &BoxPx) -> i64
    ensures { result ≡ bottom_px view.now label.now p.now }
{
    let offset = 100 * ((view.h / 2) as i64 - p.b as i64);
    offset + hundredths_of(view.cy - label.y(), view.scale)
}

// Hundredths of a pixel that so many world units take at the scale, rounded down. The units are the
// difference of two world coordinates.
#[tactic(auto, unfolding(crate::specs::Svg::hundredths))]
fn hundredths_of(units: i64, scale: Ratio) -> i64
    requires apart { unsigned_abs units ≤ 4000000000 }
    requires positive { 0 < scale.num }
    ensures value { result ≡ hundredths units scale }
    ensures size { unsigned_abs result < 2 ^ 55 }
{
    let whole = 100 * units;
    let product = whole * scale.den() as i64;
    floor_of(product, scale.num() as i64)
}

// A number divided by another, rounded down.
fn floor_of(number: i64, by: i64) -> i64
    requires { pos 0 <ℤ by }
    ensures { result ≡ int_div_euclid number by }
{
    number.div_euclid(by)
}

// How far the higher offset lies from the lower, in pixels.
pub(crate) fn extent(low: i32, high: i32) -> i64
    ensures { result ≡ high -ℤ low }
{
    high as i64 - low as i64
}
