//! Boxes widened by a margin: what a label covers where it is asked whether labels conflict.
ghost use Rattle.std.specs.Prelude.{◌≡◌};
ghost use Rattle.ml_cone.specs.Plane.{IsOffset, IsBox, IsMargin, IsWideOffset, IsWideBox, lowered, raised};
ghost use Rattle.ml_cone.specs.Overlap.{widened};

use crate::label::{BoxPx, Label};

// The offset, moved down by the margin.
fn lowered(u: i32, margin: u32) -> i32
    requires offset { IsOffset u }
    requires low { IsMargin margin }
    ensures value { result ≡ lowered u margin }
    ensures wide { IsWideOffset result }
{
    let by = margin as i32;
    u - by
}

// The offset, moved up by the margin.
fn raised(u: i32, margin: u32) -> i32
    requires offset { IsOffset u }
    requires low { IsMargin margin }
    ensures value { result ≡ raised u margin }
    ensures wide { IsWideOffset result }
{
    let by = margin as i32;
    u + by
}

/// A box of the label, widened on every side by the label's margin.
pub fn widened(label: &Label, p: &BoxPx) -> BoxPx
    requires { IsBox p.now.l p.now.b p.now.r p.now.t }
    ensures value { result ≡ widened label.now p.now }
    ensures wide { IsWideBox result.l result.b result.r result.t }
{
    let margin = label.margin;
    BoxPx {
        l: lowered(p.l, margin),
        b: lowered(p.b, margin),
        r: raised(p.r, margin),
        t: raised(p.t, margin),
    }
}
