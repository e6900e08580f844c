//! Marks: a number for each entry of labels, in the order of the entries, for a grid that is made at once.
//!
//! The digits of a mark are the band, the column, the row and the label's number: 22 bits for a column and
//! for a row, counted from 2^21 below 0 on, and 15 for a number. It has a quarter of an entry's length, and
//! one comparison tells two marks apart: so the marks of many labels take little room, and are put in order
//! several times as fast as their entries.
ghost use Rattle.std.specs.Prelude.{◌≡◌, ◌<◌, ◌≤◌, ◌^◌, ◌*◌, ◌+◌, pos, negsuc, ◌+ℤ◌, ◌-ℤ◌, ◌≤ℤ◌, ℕ, OnOk, Contains, slice_index_or};
ghost use Rattle.ml_cone.specs.Hull.{reach_of};
ghost use Rattle.ml_spans.specs.Spans.{entry_of};
ghost use Rattle.ml_grid.specs.Count.{AreUpToNine, cell_in, cell_count};
ghost use Rattle.ml_grid.specs.Entry.{Entry as GridEntry, IsEntryOf, Adds, IsFree, AreApart};
ghost use Rattle.ml_grid.specs.Marks.{cell_marked, number_marked, end_by, marked, IsDigit, AreDigits};
ghost use Rattle.ml_grid.specs.Placed.{IsEntryAmong, IsEntryAt};

use crate::bands::{BANDS, cell_after, cells_of, first_cell, is_kept};
use crate::cell::Cell;
use crate::end::End;
use ml_cone::laws::{hulls_are_few, reach_is_least};
use ml_cone::{BoxPx, Cells, Label, extent, hull_within};
use ml_ratio::Ratio;
use ml_spans::{Entry, Reads};
use std::alloc::AllocError;

/// Marks in whatever order.
pub type Marks = Vec<u64>;

/// The ends of labels by number, which marks leave out.
#[derive(Drop)]
pub struct Ends {
    /// The end of the label with each number, from 0 on.
    pub by_number: Vec<Ratio>,
    /// The end of every other number.
    pub other: Ratio,
}

impl Reads<u64, Cell, End, u32> for Ends {
    ghost use Rattle.ml_grid.specs.Marks.{entry_marked};

    ghost entry = { entry_marked };

    fn read(&self, mark: &u64) -> Entry<Cell, End, u32> {
        let number = number_of(*mark);
        Entry {
            key: cell_of(*mark),
            value: number,
            end: End::of(&end_of(self, number)),
        }
    }
}

// The end of the label with the number.
fn end_of(ends: &Ends, number: u32) -> Ratio
    ensures { result ≡ end_by ends.now number }
{
    match ends.by_number.get(number as usize) {
        Some(end) => *end,
        None => ends.other,
    }
}

// A column, or a row, from its digit.
fn column_of(digit: u64) -> i32
    requires { digit < 2 ^ 22 }
    ensures { result ≡ (pos digit -ℤ pos 2097152) }
{
    digit as i32 - 2097152
}

// The digit of a column, or of a row.
fn digit_of(column: i32) -> u64
    requires { IsDigit column }
    ensures is { pos result ≡ (column +ℤ pos 2097152) }
    ensures low { result < 2 ^ 22 }
{
    (column + 2097152) as u64
}

// The cell that is marked.
fn cell_of(mark: u64) -> Cell
    ensures { result ≡ cell_marked mark }
{
    let rows = mark / 32768;
    let columns = rows / 4194304;
    Cell {
        band: (columns / 4194304) as u8,
        x: column_of(columns % 4194304),
        y: column_of(rows % 4194304),
    }
}

// The number that is marked.
fn number_of(mark: u64) -> u32
    ensures { result ≡ number_marked mark }
{
    (mark % 32768) as u32
}

// The mark of an entry in the cell of the label with the number.
fn mark_of(cell: Cell, number: u32) -> u64
    requires band { cell.band ≤ 27 }
    requires column { IsDigit cell.x }
    requires row { IsDigit cell.y }
    requires number { number < 2 ^ 15 }
    ensures cell { cell_marked result ≡ cell }
    ensures number { number_marked result ≡ number }
{
    let columns = cell.band as u64 * 4194304 + digit_of(cell.x);
    let rows = columns * 4194304 + digit_of(cell.y);
    rows * 32768 + number as u64
}

// Appends the mark of an entry that is not there.
fn mark_one(marks: &mut Marks, number: u32, cell: Cell, _ends: &Ends) -> Result<(), AllocError>
    requires band { cell.band ≤ 27 }
    requires column { IsDigit cell.x }
    requires row { IsDigit cell.y }
    requires number { number < 2 ^ 15 }
    requires apart { AreApart (marked _ends.now marks.old.items) }
    requires new { ¬ (Contains (marked _ends.now marks.old.items)
        (entry_of cell (end_by _ends.now number) number)) }
    ensures apart { OnOk result (AreApart (marked _ends.now marks.new.items)) }
    ensures entries { OnOk result (Adds (λ e. e ≡ entry_of cell (end_by _ends.now number) number)
        (marked _ends.now marks.old.items) (marked _ends.now marks.new.items)) }
{
    marks.push(mark_of(cell, number))?;
    Ok(())
}

// Appends the mark of an entry for each of the cells.
fn mark_cells(marks: &mut Marks, number: u32, cells: &Cells, ends: &Ends) -> Result<(), AllocError>
    requires few_columns { AreUpToNine cells.now.x0 cells.now.x1 }
    requires few_rows { AreUpToNine cells.now.y0 cells.now.y1 }
    requires band { cells.now.band ≤ 27 }
    requires digits { AreDigits cells.now }
    requires number { number < 2 ^ 15 }
    requires apart { AreApart (marked ends.now marks.old.items) }
    requires new { (i : ℕ) → i < cell_count cells.now → ¬ (Contains (marked ends.now
        marks.old.items) (entry_of (cell_in cells.now i) (end_by ends.now number) number)) }
    ensures apart { OnOk result (AreApart (marked ends.now marks.new.items)) }
    ensures entries { OnOk result
        (Adds (IsEntryAmong number (end_by ends.now number) cells.now (cell_count cells.now))
        (marked ends.now marks.old.items) (marked ends.now marks.new.items)) }
{
    let mut cell = first_cell(cells);
    for _i in 0..cells_of(cells) {
        mark_one(marks, number, cell, ends)?;
        cell = cell_after(cells, cell);
    }
    Ok(())
}

// Appends the marks of the label's entries in the band.
fn mark_band(
    marks: &mut Marks,
    number: u32,
    label: &Label,
    reach: &BoxPx,
    band: u8,
    ends: &Ends,
) -> Result<(), AllocError>
    requires low { band < 28 }
    requires reach { reach.now ≡ reach_of label.now }
    requires number { number < 2 ^ 15 }
    requires apart { AreApart (marked ends.now marks.old.items) }
    requires new { (e : GridEntry) → IsEntryAt number label.now (end_by ends.now number) band e →
        ¬ (Contains (marked ends.now marks.old.items) e) }
    ensures apart { OnOk result (AreApart (marked ends.now marks.new.items)) }
    ensures entries { OnOk result (Adds (IsEntryAt number label.now (end_by ends.now number) band)
        (marked ends.now marks.old.items) (marked ends.now marks.new.items)) }
{
    if is_kept(label, band) {
        hulls_are_few();
        reach_is_least();
        mark_cells(marks, number, &hull_within(label, reach, band), ends)
    } else {
        Ok(())
    }
}

/// Appends the marks of the entries of a label whose number has none.
///
/// # Errors
/// Out of memory.
pub fn mark_all(
    marks: &mut Marks,
    number: u32,
    label: &Label,
    ends: &Ends,
) -> Result<(), AllocError>
    requires number { number < 2 ^ 15 }
    requires apart { AreApart (marked ends.now marks.old.items) }
    requires free { IsFree number (marked ends.now marks.old.items) }
    ensures apart { OnOk result (AreApart (marked ends.now marks.new.items)) }
    ensures entries { OnOk result (Adds (IsEntryOf number label.now (end_by ends.now number))
        (marked ends.now marks.old.items) (marked ends.now marks.new.items)) }
{
    let reach = extent(label);
    for band in 0..BANDS {
        mark_band(marks, number, label, &reach, band, ends)?;
    }
    Ok(())
}
