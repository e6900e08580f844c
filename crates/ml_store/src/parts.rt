//! A row with its entries of the grid and its pair of the index of blockers, which come in and go together.
ghost use Rattle.std.specs.Prelude.{◌≡◌, ◌+◌, ◌<◌, ◌≤◌, length, insert, remove, Contains, HoldsAt, ◌⊎◌, ◌↔◌};
ghost use Rattle.ml_ratio.specs.Limits.{most_labels};
ghost use Rattle.ml_grid.specs.Count.{entry_count};
ghost use Rattle.ml_store.specs.Pairs.{pair_count};
ghost use Rattle.ml_store.specs.Rows.{labels_in, IsFresh, HasId};
ghost use Rattle.ml_grid.specs.Entry.{IsFree, Adds, LosesEntries, AreEntriesOf};
ghost use Rattle.ml_store.specs.Store.{IsStored, IsEntryIn, IsPairIn, Pair};
ghost use Rattle.ml_store.specs.declared.row.Row.{Row};

use crate::pairs::{Pairs, put_pair, take_pair};
use crate::row::Row;
use crate::table::Table;
use ml_grid::Grid;

// A row's entries and its pair come in.
fn put_parts(grid: &mut Grid, pairs: &mut Pairs, row: &Row)
    requires free { IsFree row.now.number grid.old.entries }
    requires new { (p : Pair) → IsPairIn row.now p → ¬ (Contains pairs.old.entries p) }
    requires cells { entry_count row.now.label ≤ grid.old.spare }
    requires blocks { pair_count row.now.slot.blocker ≤ pairs.old.spare }
    ensures entries { Adds (IsEntryIn row.now) grid.old.entries grid.new.entries }
    ensures pairs { (p : Pair) →
        Contains pairs.new.entries p ↔ (Contains pairs.old.entries p ⊎ IsPairIn row.now p) }
    ensures cells { grid.new.spare + entry_count row.now.label ≡ grid.old.spare }
    ensures blocks { pairs.new.spare + pair_count row.now.slot.blocker ≡ pairs.old.spare }
{
    grid.add(row.number, &row.label, &row.span());
    put_pair(pairs, row.number, row.slot.blocker);
}

// A row's entries and its pair go.
fn take_parts(grid: &mut Grid, pairs: &mut Pairs, row: &Row)
    requires its { AreEntriesOf row.now.number row.now.label row.now.slot.until grid.old.entries }
    requires there { (p : Pair) → IsPairIn row.now p → Contains pairs.old.entries p }
    ensures entries { LosesEntries (IsEntryIn row.now) grid.old.entries grid.new.entries }
    ensures pairs { (p : Pair) →
        Contains pairs.new.entries p ↔ (Contains pairs.old.entries p × (¬ (IsPairIn row.now p))) }
    ensures cells { grid.new.spare ≡ grid.old.spare + entry_count row.now.label }
    ensures blocks { pairs.new.spare ≡ pairs.old.spare + pair_count row.now.slot.blocker }
{
    grid.drop_label(row.number, &row.label, &row.span());
    take_pair(pairs, row.number, row.slot.blocker);
}

/// A row comes in at `at`, with its entries and its pair.
pub fn put_row(table: &mut Table, grid: &mut Grid, pairs: &mut Pairs, at: usize, row: Box<Row>)
    requires stored { IsStored table.old.rows grid.old.entries pairs.old.entries }
    requires is_place { at ≤ length table.old.rows }
    requires fresh { IsFresh row.value.number table.old.rows }
    requires low { row.value.number < most_labels }
    requires new_id { ¬ (HasId (labels_in table.old.rows) row.value.label.order.id) }
    requires labels { 0 < table.old.room }
    requires cells { entry_count row.value.label ≤ grid.old.spare }
    requires blocks { pair_count row.value.slot.blocker ≤ pairs.old.spare }
    ensures stored { IsStored table.new.rows grid.new.entries pairs.new.entries }
    ensures rows { table.new.rows ≡ insert table.old.rows at row.value }
    ensures labels { table.new.room + 1 ≡ table.old.room }
    ensures cells { grid.new.spare + entry_count row.value.label ≡ grid.old.spare }
    ensures blocks { pairs.new.spare + pair_count row.value.slot.blocker ≡ pairs.old.spare }
{
    put_parts(grid, pairs, &row);
    table.insert(at, row);
}

/// The row at `at` goes, with its entries and its pair.
pub fn take_row(table: &mut Table, grid: &mut Grid, pairs: &mut Pairs, at: usize) -> Box<Row>
    requires stored { IsStored table.old.rows grid.old.entries pairs.old.entries }
    requires is_place { at < length table.old.rows }
    ensures stored { IsStored table.new.rows grid.new.entries pairs.new.entries }
    ensures rows { table.new.rows ≡ remove table.old.rows at }
    ensures row { HoldsAt (λ r. r ≡ result.value) table.old.rows at }
    ensures labels { table.new.room ≡ table.old.room + 1 }
    ensures cells { grid.new.spare ≡ grid.old.spare + entry_count result.value.label }
    ensures blocks { pairs.new.spare ≡ pairs.old.spare + pair_count result.value.slot.blocker }
{
    let row = table.remove(at);
    take_parts(grid, pairs, &row);
    row
}
