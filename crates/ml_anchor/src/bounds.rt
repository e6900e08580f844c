//! The bounding box of a ring.
ghost use Rattle.std.specs.Prelude.{◌≡◌, ◌<◌, length};
ghost use Rattle.std.specs.Int.{int_min, int_max};
ghost use Rattle.ml_anchor.specs.Ring.{AreBoundsOf, AreInOrder, box_area};

use ml_ratio::Pos;

/// The least and the greatest coordinates of some positions, in world units.
#[derive(Clone, Copy)]
pub struct Bounds {
    pub west: i64,
    pub east: i64,
    pub south: i64,
    pub north: i64,
}

/// The bounding box of a ring.
pub fn bounds_of(ring: &[Pos]) -> Bounds
    requires { 0 < length ring.now }
    ensures bounds { AreBoundsOf ring.now result.west result.east result.south result.north }
    ensures order { AreInOrder result.west result.east result.south result.north }
{
    let first = ring[0];
    let mut bounds = Bounds {
        west: first.x,
        east: first.x,
        south: first.y,
        north: first.y,
    };
    for i in 1..ring.len() {
        bounds = grown(bounds, ring[i]);
    }
    bounds
}

// The least box around a box and one position more.
fn grown(bounds: Bounds, place: Pos) -> Bounds
    ensures west { result.west ≡ int_min bounds.west place.x }
    ensures east { result.east ≡ int_max bounds.east place.x }
    ensures south { result.south ≡ int_min bounds.south place.y }
    ensures north { result.north ≡ int_max bounds.north place.y }
{
    Bounds {
        west: bounds.west.min(place.x),
        east: bounds.east.max(place.x),
        south: bounds.south.min(place.y),
        north: bounds.north.max(place.y),
    }
}

/// The area of the bounding box of a ring, in square world units: at most 1.6 * 10^19.
pub fn area_of(ring: &[Pos]) -> i128
    requires { 0 < length ring.now }
    ensures { result ≡ box_area ring.now }
{
    let bounds = bounds_of(ring);
    let width = bounds.east as i128 - bounds.west as i128;
    let height = bounds.north as i128 - bounds.south as i128;
    width * height
}
