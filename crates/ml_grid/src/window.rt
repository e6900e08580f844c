//! The cells that meet a window.
ghost use Rattle.std.specs.Prelude.{◌≡◌, ◌<◌, ◌≤◌, ◌%◌, ◌*◌, ◌^◌, ◌+◌, ◌↔◌, ◌/◌, ◌≤ℤ◌, ◌<ℤ◌, ◌*ℤ◌, ◌+ℤ◌, ◌-ℤ◌, ℤ, pos};
ghost use Rattle.std.specs.Int.{int_div_euclid};
ghost use Rattle.ml_cone.specs.Cells.{cell_side};
ghost use Rattle.ml_grid.specs.Window.{IsSmall};
ghost use Rattle.ml_ratio.specs.Fraction.{value_of};
ghost use Rattle.ml_ratio.specs.Band.{IsInBand};
ghost use Rattle.ml_ratio.specs.World.{IsInWorld};
ghost use Rattle.ml_cone.specs.Cells.{IsAmongCells};
ghost use Rattle.ml_cone.specs.Cell.{ColumnInWindow, CellInView};
ghost use Rattle.ml_grid.specs.Count.{AreUpToNine};

use ml_cone::{Cells, View};
use ml_ratio::Ratio;

// A place of the world times the scale's denominator.
fn middle_of(c: i64, scale: &Ratio) -> i64
    requires { IsInWorld c }
    ensures is { result ≡ (c *ℤ pos scale.now.den) }
    ensures small { IsSmall result }
{
    let den = scale.den() as i64;
    c * den
}

// Half a window of `w` pixels, times the scale's denominator.
fn half_of(w: u32, scale: &Ratio) -> i64
    requires { w ≤ 4096 }
    ensures is { result ≡ pos (w / 2 * scale.now.num) }
    ensures small { IsSmall result }
{
    let half = (w / 2) as u64 * scale.num();
    half as i64
}

// A cell's side, times the scale's denominator.
fn side_at(scale: &Ratio, band: u8) -> i64
    requires { band ≤ 27 }
    ensures is { result ≡ pos (cell_side band * scale.now.den) }
{
    let side = (1024u64 << band) * scale.den();
    side as i64
}

// The column that ends above `middle - half` first.
fn first_column(middle: i64, half: i64, side: i64) -> i64
    requires small_middle { IsSmall middle }
    requires small_half { IsSmall half }
    requires some_side { pos 0 <ℤ side }
    ensures { result ≡ int_div_euclid (middle -ℤ half) side }
{
    (middle - half).div_euclid(side)
}

// The column that begins below `middle + half` last.
fn last_column(middle: i64, half: i64, side: i64) -> i64
    requires small_middle { IsSmall middle }
    requires small_half { IsSmall half }
    requires some_side { pos 0 <ℤ side }
    ensures { result ≡ int_div_euclid ((middle +ℤ half) -ℤ pos 1) side }
{
    (middle + half - 1).div_euclid(side)
}

// The first and the last column of cells of the band that meet the window of `w` pixels about `c`, where the scale lies in the band.
fn columns_in(c: i64, w: u32, scale: &Ratio, band: u8) -> (i32, i32)
    requires c_in_world { IsInWorld c }
    requires some_w { 2 ≤ w }
    requires low_w { w ≤ 4096 }
    requires even_w { w % 2 ≡ 0 }
    requires above { 0 < scale.now.num }
    requires low_band { band ≤ 27 }
    requires in_band { IsInBand (value_of scale.now) band }
    ensures few { AreUpToNine result.0 result.1 }
    ensures meets { (x : ℤ) →
        ((result.0 ≤ℤ x) × (x ≤ℤ result.1)) ↔ ColumnInWindow band x c w (value_of scale.now) }
{
    let middle = middle_of(c, scale);
    let half = half_of(w, scale);
    let side = side_at(scale, band);
    let first = first_column(middle, half, side);
    let last = last_column(middle, half, side);
    (first as i32, last as i32)
}

/// The cells that meet the view's window, in the band of its scale.
pub fn window_cells(view: &View) -> Cells
    ensures band { IsInBand (value_of view.now.scale) result.band }
    ensures few_columns { AreUpToNine result.x0 result.x1 }
    ensures few_rows { AreUpToNine result.y0 result.y1 }
    ensures meets { (x y : ℤ) → IsAmongCells result x y ↔ CellInView view.now result.band x y }
{
    let scale = view.scale;
    let band = scale.band();
    let (x0, x1) = columns_in(view.cx, view.w, &scale, band);
    let (y0, y1) = columns_in(view.cy, view.h, &scale, band);
    Cells {
        band,
        x0,
        y0,
        x1,
        y1,
    }
}
