//! Which tiles there are.
ghost use Rattle.std.specs.Prelude.{◌≡◌, ◌≤◌, ◌^◌, ◌*◌, ◌↔◌, IsTrue, pos};
ghost use Rattle.ml_ratio.specs.World.{IsInWorld};
ghost use Rattle.ml_tile.specs.Place.{middle, IsNear};

use ml_cone::View;
use ml_cone::label::is_in_world;
use ml_ratio::Ratio;

/// The deepest tiles: one pixel is 2^21 world units.
pub(crate) const DEEPEST: u8 = 21;

/// No tile's middle lies in the world beyond this column or row.
const FURTHEST: i64 = 2_000_000;

/// A tile of depth `z` in column `i` and row `j`: a square of 1024 by 1024 pixels of the world at the
/// scale `2^z`.
///
/// Column `i` reaches from `1024 * 2^z * i` to `1024 * 2^z * (i + 1)`, in world units; so do rows,
/// northwards. The depth is at most 21, and the middle of the tile is in the world.
#[derive(Clone, Copy, Debug, PartialEq, Eq, Hash)]
pub struct TileKey {
    pub z: u8,
    pub i: i64,
    pub j: i64,
    ghost deep: { z ≤ 21 },
    ghost world_x: { IsInWorld (middle z i) },
    ghost world_y: { IsInWorld (middle z j) },
}

impl TileKey {
    ghost use Rattle.ml_tile.specs.Tile.{IsKeyOf, IsTileView};

    /// The tile of depth `z` in column `i` and row `j`; none where there is no such tile.
    pub fn of(z: u8, i: i64, j: i64) -> Option<TileKey>
        ensures { IsKeyOf z i j result }
    {
        if z > DEEPEST {
            return None;
        }
        if has_column(z, i) && has_column(z, j) {
            Some(TileKey { z, i, j })
        } else {
            None
        }
    }

    /// The view that the tile is: 1024 by 1024 pixels about its middle at the scale `2^z`.
    pub fn view(&self) -> View
        ensures { IsTileView self.now.z self.now.i self.now.j result }
    {
        let key = *self;
        let scale = scale_of(key.z);
        let (cx, cy) = (middle(key.z, key.i), middle(key.z, key.j));
        match View::of(cx, cy, 1024, 1024, scale) {
            Some(view) => view,
            None => unreachable!(),
        }
    }
}

// The scale of the tiles of depth `z`.
fn scale_of(z: u8) -> Ratio
    requires { z ≤ 21 }
    ensures num { result.num ≡ 2 ^ z }
    ensures den { result.den ≡ 1 }
{
    match Ratio::of(1u64 << z, 1) {
        Some(scale) => scale,
        None => unreachable!(),
    }
}

// Half the side of a tile of depth `z`, in world units.
fn half_of(z: u8) -> i64
    requires { z ≤ 21 }
    ensures { result ≡ pos (512 * 2 ^ z) }
{
    let half = 512u64 << z;
    half as i64
}

// The middle of column `i` of the tiles of depth `z`.
fn middle(z: u8, i: i64) -> i64
    requires deep { z ≤ 21 }
    requires near { IsNear i }
    ensures { result ≡ middle z i }
{
    let odd = 2 * i + 1;
    odd * half_of(z)
}

/// Whether there are tiles of depth `z`, which is at most 21, in column `i`: the middle of the column is
/// in the world. The same holds of rows.
pub(crate) fn has_column(z: u8, i: i64) -> bool
    requires { z ≤ 21 }
    ensures { IsTrue result ↔ IsInWorld (middle z i) }
{
    if !is_near(i) {
        return false;
    }
    is_in_world(middle(z, i))
}

// Whether the column is one whose middle is computed.
fn is_near(i: i64) -> bool
    ensures { IsTrue result ↔ IsNear i }
{
    -FURTHEST <= i && i <= FURTHEST
}
