//! Where the rings of a polygon cross a level line.
ghost use Rattle.std.specs.Prelude.{◌≡◌, ◌++◌, true, IfOk, OnOk};
ghost use Rattle.std.specs.Option.{option_to_list};
ghost use Rattle.ml_anchor.specs.Scan.{rises, x_at, crossing, ring_crossings, crossings};

use ml_ratio::rounding::height_at;
use ml_ratio::{Pos, Seq};
use std::alloc::{AllocError, Global};

// Whether the line at half the height `h` runs between `a` and `b`: `a` is below it or on it, and
// `b` is above it.
fn rises(h: i64, a: Pos, b: Pos) -> bool
    ensures { result ≡ rises h a b }
{
    2 * a.y <= h && h < 2 * b.y
}

// The x at which the line from `a` up to `b` has half the height `h`, rounded down.
fn x_at(h: i64, a: Pos, b: Pos) -> i64
    requires { rises h a b ≡ true }
    ensures { result ≡ x_at h a b }
{
    height_at((2 * a.y, a.x), (2 * b.y, b.x), h)
}

// Where the edge from `a` to `b` crosses the line at half the height `h`, if it does.
fn crossing(h: i64, a: Pos, b: Pos) -> Option<i64>
    ensures { result ≡ crossing h (a, b) }
{
    if rises(h, a, b) {
        Some(x_at(h, a, b))
    } else if rises(h, b, a) {
        Some(x_at(h, b, a))
    } else {
        None
    }
}

// Adds a crossing, if there is one.
fn add(found: &mut Vec<i64>, crossing: Option<i64>) -> Result<(), AllocError>
    ensures { OnOk result (found.new.items ≡ found.old.items ++ option_to_list crossing) }
{
    if let Some(x) = crossing {
        found.push(x)?;
    }
    Ok(())
}

// Adds the crossings of a ring.
fn add_crossings(found: &mut Vec<i64>, h: i64, ring: &[Pos]) -> Result<(), AllocError>
    ensures { OnOk result (found.new.items ≡ found.old.items ++ ring_crossings h ring.now) }
{
    for i in 1..ring.len() {
        add(found, crossing(h, ring[i - 1], ring[i]))?;
    }
    Ok(())
}

/// Where the rings cross the line at half the height `h`, in the order of their edges.
///
/// # Errors
/// Out of memory.
pub fn crossings(alloc: Global, h: i64, rings: &[Seq<Pos>]) -> Result<Vec<i64>, AllocError>
    ensures { IfOk result (λ found. found.items ≡ crossings h rings.now) }
{
    let mut found = Vec::new(alloc);
    for ring in rings {
        add_crossings(&mut found, h, ring.as_slice())?;
    }
    Ok(found)
}
