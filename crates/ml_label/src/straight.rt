//! One straight box of text.
ghost use Rattle.std.specs.Prelude.{◌≡◌, ◌≤◌, ◌↔◌, IsTrue};
ghost use Rattle.ml_cone.specs.Plane.{IsBox, IsSide};
ghost use Rattle.ml_style.specs.Offset.{IsOffset};
ghost use Rattle.ml_label.specs.Straight.{IsStraight, IsTooWide, left, right};

use ml_cone::BoxPx;

// The widest text that is looked at: a wider one is too wide whatever moves it.
const WIDEST: u64 = 4096;

// The lower and the upper end of what is so many pixels long, moved by `d`.
fn ends(d: i32, extent: u32) -> (i32, i32)
    requires moved { IsOffset d }
    requires short { extent ≤ 4096 }
    ensures low { result.0 ≡ left d extent }
    ensures high { result.1 ≡ right d extent }
{
    let half = (extent / 2) as i32;
    let low = d - half;
    (low, low + extent as i32)
}

// The same for what does not reach too far.
fn side(d: i32, extent: u32) -> (i32, i32)
    requires moved { IsOffset d }
    requires some { 1 ≤ extent }
    requires near { ¬ (IsTooWide d extent) }
    ensures low { result.0 ≡ left d extent }
    ensures high { result.1 ≡ right d extent }
    ensures side { IsSide result.0 result.1 }
{
    ends(d, extent)
}

/// Whether a box of this width, moved by `dx`, reaches further than 512 pixels to the left or right.
pub fn is_too_wide(dx: i32, width: u64) -> bool
    requires { IsOffset dx }
    ensures { IsTrue result ↔ IsTooWide dx width }
{
    if width > WIDEST {
        return true;
    }
    let (l, r) = ends(dx, width as u32);
    l < -512 || r > 512
}

/// The box of a text of this width and size, moved by `dx` and `dy`.
pub fn straight_box(dx: i32, dy: i32, width: u64, size: u32) -> BoxPx
    requires dx { IsOffset dx }
    requires dy { IsOffset dy }
    requires some_width { 1 ≤ width }
    requires narrow { ¬ (IsTooWide dx width) }
    requires some_size { 1 ≤ size }
    requires low_size { size ≤ 256 }
    ensures straight { IsStraight dx dy width size result }
    ensures good { IsBox result.l result.b result.r result.t }
{
    let (l, r) = side(dx, width as u32);
    let (b, t) = side(dy, size);
    BoxPx { l, b, r, t }
}
