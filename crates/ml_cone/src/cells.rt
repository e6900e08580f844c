//! Cells: squares of the world by which labels are found.
ghost use Rattle.std.specs.Prelude.{◌≡◌, ◌≤◌, ◌+◌, ◌^◌, pos};

/// The cells of a band from `(x0, y0)` to `(x1, y1)`, both counted in.
///
/// A cell of band `k` is a square of `1024 * 2^k` world units, numbered by the floors of its coordinates.
#[derive(Clone, Copy, Debug, PartialEq, Eq)]
pub struct Cells {
    pub band: u8,
    pub x0: i32,
    pub y0: i32,
    pub x1: i32,
    pub y1: i32,
}

/// The side of a cell of the least band has 2 to this power world units, and each further band twice as many.
pub(crate) const SIDE_BITS: u8 = 10;

/// How many world units a pixel has at the upper end of the band. The band is at most 27.
pub(crate) fn pixel_of(band: u8) -> i64
    requires { band ≤ 27 }
    ensures { result ≡ pos (2 ^ (band + 1)) }
{
    let pixel = 2u64 << band;
    pixel as i64
}
