//! A label's entries, put in, taken out and given another end.
ghost use Rattle.std.specs.Prelude.{ℕ, ◌≡◌, ◌+◌, ◌<◌, ◌≤◌, ◌≤ℤ◌, ◌↔◌, Contains};
ghost use Rattle.ml_ratio.specs.declared.ratio.Ratio.{Ratio};
ghost use Rattle.ml_cone.specs.Hull.{reach_of};
ghost use Rattle.ml_grid.specs.Count.{AreUpToNine, cell_count, cell_in, band_count, entry_count};
ghost use Rattle.ml_grid.specs.Entry.{Entry, IsEntryOf, Adds, LosesEntries, Replaces, IsFree, AreEntriesOf};
ghost use Rattle.ml_grid.specs.Placed.{IsEntryAmong, IsEntryAt};
ghost use Rattle.ml_spans.specs.Spans.{entry_of};

use crate::bands::{BANDS, cell_at, cells_of, is_kept};
use crate::cell::Cell;
use crate::end::End;
use ml_cone::laws::hulls_are_few;
use ml_cone::{BoxPx, Cells, Label, extent, hull_within};
use ml_ratio::Ratio;
use ml_spans::SpanTree;

/// The index below the grid: cells as keys, ends, and the numbers of labels.
pub type Tree = SpanTree<Cell, End, u32>;

// Puts in an entry that is not there.
fn put_in(tree: &mut Tree, number: u32, until: Ratio, cell: Cell)
    requires room { 0 < tree.old.spare }
    requires new { ¬ (Contains tree.old.entries (entry_of cell until number)) }
    ensures entries { Adds (λ e. e ≡ entry_of cell until number) tree.old.entries tree.new.entries }
    ensures spare { tree.new.spare + 1 ≡ tree.old.spare }
{
    tree.insert(cell, End::of(&until), number);
}

// Puts in an entry for each of the cells.
fn add_cells(tree: &mut Tree, number: u32, until: Ratio, cells: &Cells)
    requires few_columns { AreUpToNine cells.now.x0 cells.now.x1 }
    requires few_rows { AreUpToNine cells.now.y0 cells.now.y1 }
    requires room { cell_count cells.now ≤ tree.old.spare }
    requires new { (i : ℕ) → i < cell_count cells.now →
        ¬ (Contains tree.old.entries (entry_of (cell_in cells.now i) until number)) }
    ensures entries { Adds (IsEntryAmong number until cells.now
        (cell_count cells.now)) tree.old.entries tree.new.entries }
    ensures spare { tree.new.spare + cell_count cells.now ≡ tree.old.spare }
{
    for i in 0..cells_of(cells) {
        put_in(tree, number, until, cell_at(cells, i));
    }
}

// Takes out an entry that is there.
fn take_out(tree: &mut Tree, number: u32, until: Ratio, cell: Cell)
    requires there { Contains tree.old.entries (entry_of cell until number) }
    ensures entries { LosesEntries
        (λ e. e ≡ entry_of cell until number) tree.old.entries tree.new.entries }
    ensures spare { tree.new.spare ≡ tree.old.spare + 1 }
{
    let _there = tree.remove(&cell, &End::of(&until), &number);
}

// Takes out the entry for each of the cells.
fn drop_cells(tree: &mut Tree, number: u32, until: Ratio, cells: &Cells)
    requires few_columns { AreUpToNine cells.now.x0 cells.now.x1 }
    requires few_rows { AreUpToNine cells.now.y0 cells.now.y1 }
    requires there { (i : ℕ) → i < cell_count cells.now →
        Contains tree.old.entries (entry_of (cell_in cells.now i) until number) }
    ensures entries { LosesEntries (IsEntryAmong number until cells.now
        (cell_count cells.now)) tree.old.entries tree.new.entries }
    ensures spare { tree.new.spare ≡ tree.old.spare + cell_count cells.now }
{
    for i in 0..cells_of(cells) {
        take_out(tree, number, until, cell_at(cells, i));
    }
}

// Puts in the label's entries of the band.
fn add_band(tree: &mut Tree, number: u32, until: Ratio, label: &Label, reach: &BoxPx, band: u8)
    requires low { band < 28 }
    requires reach { reach.now ≡ reach_of label.now }
    requires room { band_count label.now band ≤ tree.old.spare }
    requires new { (e : Entry) → IsEntryAt number label.now until band e →
        ¬ (Contains tree.old.entries e) }
    ensures entries { Adds
        (IsEntryAt number label.now until band) tree.old.entries tree.new.entries }
    ensures spare { tree.new.spare + band_count label.now band ≡ tree.old.spare }
{
    if is_kept(label, band) {
        hulls_are_few();
        add_cells(tree, number, until, &hull_within(label, reach, band));
    }
}

// Takes out the label's entries of the band.
fn drop_band(tree: &mut Tree, number: u32, until: Ratio, label: &Label, reach: &BoxPx, band: u8)
    requires low { band < 28 }
    requires reach { reach.now ≡ reach_of label.now }
    requires there { (e : Entry) → IsEntryAt number label.now until band e →
        Contains tree.old.entries e }
    ensures entries { LosesEntries
        (IsEntryAt number label.now until band) tree.old.entries tree.new.entries }
    ensures spare { tree.new.spare ≡ tree.old.spare + band_count label.now band }
{
    if is_kept(label, band) {
        hulls_are_few();
        drop_cells(tree, number, until, &hull_within(label, reach, band));
    }
}

/// Puts in the entries of a label whose number has none.
pub fn add_all(tree: &mut Tree, number: u32, until: Ratio, label: &Label)
    requires free { IsFree number tree.old.entries }
    requires room { entry_count label.now ≤ tree.old.spare }
    ensures entries { Adds (IsEntryOf number label.now until) tree.old.entries tree.new.entries }
    ensures spare { tree.new.spare + entry_count label.now ≡ tree.old.spare }
{
    let reach = extent(label);
    for band in 0..BANDS {
        add_band(tree, number, until, label, &reach, band);
    }
}

/// Takes out the entries of a label, which are those with its number.
pub fn drop_all(tree: &mut Tree, number: u32, until: Ratio, label: &Label)
    requires its { AreEntriesOf number label.now until tree.old.entries }
    ensures entries { LosesEntries
        (IsEntryOf number label.now until) tree.old.entries tree.new.entries }
    ensures spare { tree.new.spare ≡ tree.old.spare + entry_count label.now }
{
    let reach = extent(label);
    for band in 0..BANDS {
        drop_band(tree, number, until, label, &reach, band);
    }
}

// Gives an entry that is there another end. No other one has its cell and its number.
fn move_one(tree: &mut Tree, number: u32, from: &Ratio, to: &Ratio, cell: Cell)
    requires its { (until : Ratio) →
        Contains tree.old.entries (entry_of cell until number) ↔ (until ≡ from.now) }
    ensures entries { Replaces (λ e. e ≡ entry_of cell from.now number)
        (λ e. e ≡ entry_of cell to.now number) tree.old.entries tree.new.entries }
    ensures spare { tree.new.spare ≡ tree.old.spare }
{
    let old = End::of(from);
    let new = End::of(to);
    let _there = tree.set_end(&cell, &old, &number, &new);
}

// Gives the entry for each of the cells another end.
fn move_cells(tree: &mut Tree, number: u32, from: &Ratio, to: &Ratio, cells: &Cells)
    requires few_columns { AreUpToNine cells.now.x0 cells.now.x1 }
    requires few_rows { AreUpToNine cells.now.y0 cells.now.y1 }
    requires its { (i : ℕ) → i < cell_count cells.now → (until : Ratio) → Contains tree.old.entries
        (entry_of (cell_in cells.now i) until number) ↔ (until ≡ from.now) }
    ensures entries { Replaces (IsEntryAmong number from.now cells.now (cell_count cells.now))
        (IsEntryAmong number to.now cells.now
        (cell_count cells.now)) tree.old.entries tree.new.entries }
    ensures spare { tree.new.spare ≡ tree.old.spare }
{
    for i in 0..cells_of(cells) {
        move_one(tree, number, from, to, cell_at(cells, i));
    }
}

// Gives the label's entries of the band another end.
fn move_band(
    tree: &mut Tree,
    number: u32,
    from: &Ratio,
    to: &Ratio,
    label: &Label,
    reach: &BoxPx,
    band: u8,
)
    requires low { band < 28 }
    requires reach { reach.now ≡ reach_of label.now }
    requires there { (e : Entry) → IsEntryAt number label.now from.now band e →
        Contains tree.old.entries e }
    requires alone { (e : Entry) → Contains tree.old.entries e →
        e.value ≡ number → e.key.band ≡ band → e.end ≡ from.now }
    ensures entries { Replaces (IsEntryAt number label.now from.now band)
        (IsEntryAt number label.now to.now band) tree.old.entries tree.new.entries }
    ensures spare { tree.new.spare ≡ tree.old.spare }
{
    if is_kept(label, band) {
        hulls_are_few();
        move_cells(tree, number, from, to, &hull_within(label, reach, band));
    }
}

/// Gives the entries of a label, which are those with its number, another end.
pub fn move_all(tree: &mut Tree, number: u32, label: &Label, from: &Ratio, to: &Ratio)
    requires its { AreEntriesOf number label.now from.now tree.old.entries }
    ensures entries { Replaces (IsEntryOf number label.now from.now)
        (IsEntryOf number label.now to.now) tree.old.entries tree.new.entries }
    ensures spare { tree.new.spare ≡ tree.old.spare }
{
    let reach = extent(label);
    for band in 0..BANDS {
        move_band(tree, number, from, to, label, &reach, band);
    }
}
