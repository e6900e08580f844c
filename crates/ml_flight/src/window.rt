//! A view without its scale.
ghost use Rattle.std.specs.Prelude.{◌≡◌, ◌%◌, ◌≤◌, ◌↔◌, IsTrue};
ghost use Rattle.ml_ratio.specs.World.{IsInWorld};

use ml_cone::label::is_in_world;

/// A window of `w` by `h` pixels about the centre `(cx, cy)`, which is the same at every scale.
///
/// The centre is in the world, in world units; the sides are even and in 2..=4096, in pixels.
#[derive(Clone, Copy, Debug, PartialEq, Eq)]
pub struct Window {
    pub cx: i64,
    pub cy: i64,
    pub w: u32,
    pub h: u32,
    ghost world_x: { IsInWorld cx },
    ghost world_y: { IsInWorld cy },
    ghost some_w: { 2 ≤ w },
    ghost some_h: { 2 ≤ h },
    ghost low_w: { w ≤ 4096 },
    ghost low_h: { h ≤ 4096 },
    ghost even_w: { w % 2 ≡ 0 },
    ghost even_h: { h % 2 ≡ 0 },
}

impl Window {
    ghost use Rattle.ml_flight.specs.Window.{IsWindowOf};

    /// The window of these parts; none where one of them is out of bounds.
    pub fn of(cx: i64, cy: i64, w: u32, h: u32) -> Option<Window>
        ensures { IsWindowOf cx cy w h result }
    {
        if is_in_world(cx) && is_in_world(cy) && is_side(w) && is_side(h) {
            Some(Window { cx, cy, w, h })
        } else {
            None
        }
    }
}

// Whether the number of pixels may be a window's side.
fn is_side(w: u32) -> bool
    ensures { IsTrue result ↔ ((2 ≤ w) × (w ≤ 4096) × (w % 2 ≡ 0)) }
{
    2 <= w && w <= 4096 && w % 2 == 0
}
