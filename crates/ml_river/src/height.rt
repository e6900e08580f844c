//! Runs turned to the east, and heights along them.
ghost use Rattle.std.specs.Prelude.{◌≡◌, ◌-◌, ◌<◌, ◌≤◌, ◌≤ℤ◌, IfOk, length};
ghost use Rattle.ml_ratio.specs.World.{IsInWorld};
ghost use Rattle.ml_river.specs.Run.{x_at, turned};
ghost use Rattle.ml_river.specs.Height.{IsRising, IsHeight};

use ml_ratio::Pos;
use ml_ratio::rounding::height_at;
use std::alloc::{AllocError, Global};

/// The positions from place `from` to place `to` of a line, turned so that x rises from the first to
/// the last.
///
/// # Errors
/// Out of memory.
pub fn turned(alloc: Global, line: &[Pos], from: usize, to: usize) -> Result<Vec<Pos>, AllocError>
    requires order { from < to }
    requires there { to < length line.now }
    ensures { IfOk result (λ run. run.items ≡ turned line.now from to) }
{
    let mut run = Vec::from_slice(alloc, &line[from..to + 1])?;
    if line[to].x < line[from].x {
        run.reverse();
    }
    Ok(run)
}

/// The height of a run at `x`, rounded down.
pub fn height_on_run(run: &[Pos], x: i64) -> i64
    requires rising { IsRising run.now }
    requires some { 2 ≤ length run.now }
    requires after { x_at run.now 0 ≤ℤ x }
    requires before { x ≤ℤ x_at run.now (length run.now - 1) }
    ensures height { IsHeight run.now x result }
    ensures world { IsInWorld result }
{
    for k in 1..run.len() {
        let right = run[k];
        if x <= right.x {
            let left = run[k - 1];
            return height_at((left.x, left.y), (right.x, right.y), x);
        }
    }
    unreachable!()
}
