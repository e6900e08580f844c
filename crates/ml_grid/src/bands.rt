//! In which bands a label is kept, and in how many cells.
ghost use Rattle.std.specs.Prelude.{ℕ, ◌≡◌, ◌≤◌, ◌<◌, ◌*◌, ◌+◌, ◌^◌, pos, ◌+ℤ◌, ◌≤ℤ◌};
ghost use Rattle.ml_cone.specs.Hull.{reach_of};
ghost use Rattle.ml_grid.specs.Count.{meets_band, AreUpToNine, count_between, cell_count, cell_in, band_count, entry_count};
ghost use Rattle.ml_grid.specs.Marks.{IsDigit};

use crate::cell::Cell;
use ml_cone::{BoxPx, Cells, Label, extent, hull_within};

/// How many bands there are: no scale lies above the last.
pub const BANDS: u8 = 28;

/// Whether the band meets the label's selectable range, both ends counted in.
#[tactic(auto, unfolding(crate::specs::Count::meets_band))]
pub fn is_kept(label: &Label, band: u8) -> bool
    requires { band < 28 }
    ensures { result ≡ meets_band label.now band }
{
    let low = label.min();
    let high = label.max();
    let below = 2u64 << band;
    let from = 1u64 << band;
    low.num() < below * low.den() && (band == 0 || from * high.den() <= high.num())
}

/// How many columns, or rows, there are from `from` to `until`.
pub fn span_len(from: i32, until: i32) -> usize
    requires few { AreUpToNine from until }
    ensures len { result ≡ count_between from until }
    ensures few { result < 10 }
{
    (until - from) as usize + 1
}

/// How many cells there are.
pub fn cells_of(cells: &Cells) -> usize
    requires few_columns { AreUpToNine cells.now.x0 cells.now.x1 }
    requires few_rows { AreUpToNine cells.now.y0 cells.now.y1 }
    ensures count { result ≡ cell_count cells.now }
    ensures few { result ≤ 81 }
{
    span_len(cells.x0, cells.x1) * span_len(cells.y0, cells.y1)
}

/// The `i`-th of the cells, column by column.
pub fn cell_at(cells: &Cells, i: usize) -> Cell
    requires few_columns { AreUpToNine cells.now.x0 cells.now.x1 }
    requires few_rows { AreUpToNine cells.now.y0 cells.now.y1 }
    requires inside { i < cell_count cells.now }
    ensures { result ≡ cell_in cells.now i }
{
    let rows = span_len(cells.y0, cells.y1);
    Cell {
        band: cells.band,
        x: cells.x0 + (i / rows) as i32,
        y: cells.y0 + (i % rows) as i32,
    }
}

/// The first of the cells.
pub fn first_cell(cells: &Cells) -> Cell
    ensures { result ≡ cell_in cells.now 0 }
{
    Cell {
        band: cells.band,
        x: cells.x0,
        y: cells.y0,
    }
}

/// The cell behind this one, column by column, found without a division. Behind the last cell it is one
/// of the next column, which no mark is made of.
pub fn cell_after(cells: &Cells, cell: Cell) -> Cell
    requires rows { cells.now.y0 ≤ℤ cells.now.y1 }
    requires column { IsDigit cell.x }
    ensures { (i : ℕ) → cell ≡ cell_in cells.now i → result ≡ cell_in cells.now (i + 1) }
{
    if cell.y < cells.y1 {
        Cell {
            band: cell.band,
            x: cell.x,
            y: cell.y + 1,
        }
    } else {
        Cell {
            band: cell.band,
            x: cell.x + 1,
            y: cells.y0,
        }
    }
}

// How many entries the label has in the band.
fn entries_in(label: &Label, reach: &BoxPx, band: u8) -> usize
    requires low { band < 28 }
    requires reach { reach.now ≡ reach_of label.now }
    ensures count { result ≡ band_count label.now band }
    ensures few { result ≤ 16 }
{
    if is_kept(label, band) {
        cells_of(&hull_within(label, reach, band))
    } else {
        0
    }
}

/// How many entries the label has, over all bands.
pub fn entries_of(label: &Label) -> usize
    ensures count { result ≡ entry_count label.now }
    ensures few { result ≤ 448 }
{
    let reach = extent(label);
    let mut count = 0;
    for band in 0..BANDS {
        count += entries_in(label, &reach, band);
    }
    count
}
