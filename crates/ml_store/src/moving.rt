//! Labels that get other slots.
ghost use Rattle.std.specs.Prelude.{◌≡◌, ◌+◌, ◌<◌, ◌≤◌, [], ◌∷◌, length};
ghost use Rattle.ml_store.specs.Moved.{moved_rows, moved_pairs};
ghost use Rattle.ml_store.specs.Pairs.{pair_count};
ghost use Rattle.ml_store.specs.Rows.{HaveOwnNumbers};
ghost use Rattle.ml_store.specs.Store.{IsStored, IsIndex, IsPairIn};
ghost use Rattle.ml_store.specs.Table.{with_slot, slot_at};

use crate::entries::move_entries;
use crate::moved::Moved;
use crate::pairs::{Pairs, change_pair};
use crate::table::Table;
use ml_cone::Slot;
use ml_grid::Grid;

// Where more than one in so many labels gets another slot, a walk over all entries costs less than the ways down
// to those of each.
const MANY: usize = 8;

// The row at `at` gets another slot, and so does its pair.
fn write_pair(table: &mut Table, pairs: &mut Pairs, at: usize, slot: Slot)
    requires differ { HaveOwnNumbers table.old.rows }
    requires paired { IsIndex IsPairIn table.old.rows pairs.old.entries }
    requires is_place { at < length table.old.rows }
    requires room { pair_count slot.blocker
        ≤ pairs.old.spare + pair_count (slot_at table.old.rows at).blocker }
    ensures paired { IsIndex IsPairIn table.new.rows pairs.new.entries }
    ensures rows { table.new.rows ≡ with_slot table.old.rows at slot }
    ensures labels { table.new.room ≡ table.old.room }
    ensures blocks { pairs.new.spare + pair_count slot.blocker
        ≡ pairs.old.spare + pair_count (slot_at table.old.rows at).blocker }
{
    let row = table.row(at);
    change_pair(pairs, row.number, row.slot.blocker, slot.blocker);
    table.set_slot(at, slot);
}

/// The row at `at` gets another slot, and so do its entries and its pair.
pub fn write_slot(table: &mut Table, grid: &mut Grid, pairs: &mut Pairs, at: usize, slot: Slot)
    requires stored { IsStored table.old.rows grid.old.entries pairs.old.entries }
    requires is_place { at < length table.old.rows }
    requires room { pair_count slot.blocker
        ≤ pairs.old.spare + pair_count (slot_at table.old.rows at).blocker }
    ensures stored { IsStored table.new.rows grid.new.entries pairs.new.entries }
    ensures rows { table.new.rows ≡ with_slot table.old.rows at slot }
    ensures labels { table.new.room ≡ table.old.room }
    ensures cells { grid.new.spare ≡ grid.old.spare }
    ensures blocks { pairs.new.spare + pair_count slot.blocker
        ≡ pairs.old.spare + pair_count (slot_at table.old.rows at).blocker }
{
    let row = table.row(at);
    move_entries(grid, row.number, &row.label, row.slot.until, slot.until);
    write_pair(table, pairs, at, slot);
}

// The row with the number gets the new slot, with its entries and its pair, if there is one.
fn write_one(table: &mut Table, grid: &mut Grid, pairs: &mut Pairs, m: &Moved)
    requires stored { IsStored table.old.rows grid.old.entries pairs.old.entries }
    requires room { pair_count m.now.slot.blocker ≤ pairs.old.spare }
    ensures stored { IsStored table.new.rows grid.new.entries pairs.new.entries }
    ensures rows { table.new.rows ≡ moved_rows (m.now ∷ []) table.old.rows }
    ensures labels { table.new.room ≡ table.old.room }
    ensures cells { grid.new.spare ≡ grid.old.spare }
    ensures blocks { pairs.old.spare ≤ pairs.new.spare + pair_count m.now.slot.blocker }
{
    match table.place_of(m.number) {
        Some(at) => write_slot(table, grid, pairs, at, m.slot),
        None => {}
    }
}

// Rows get new slots, one after another.
fn write_each(table: &mut Table, grid: &mut Grid, pairs: &mut Pairs, moved: &[Moved])
    requires stored { IsStored table.old.rows grid.old.entries pairs.old.entries }
    requires room { moved_pairs moved.now ≤ pairs.old.spare }
    ensures stored { IsStored table.new.rows grid.new.entries pairs.new.entries }
    ensures rows { table.new.rows ≡ moved_rows moved.now table.old.rows }
    ensures labels { table.new.room ≡ table.old.room }
    ensures cells { grid.new.spare ≡ grid.old.spare }
    ensures blocks { pairs.old.spare ≤ pairs.new.spare + moved_pairs moved.now }
{
    for m in moved {
        write_one(table, grid, pairs, m);
    }
}

// The row with the number gets the new slot, with its pair, if there is one.
fn write_one_pair(table: &mut Table, pairs: &mut Pairs, m: &Moved)
    requires differ { HaveOwnNumbers table.old.rows }
    requires paired { IsIndex IsPairIn table.old.rows pairs.old.entries }
    requires room { pair_count m.now.slot.blocker ≤ pairs.old.spare }
    ensures paired { IsIndex IsPairIn table.new.rows pairs.new.entries }
    ensures rows { table.new.rows ≡ moved_rows (m.now ∷ []) table.old.rows }
    ensures labels { table.new.room ≡ table.old.room }
    ensures blocks { pairs.old.spare ≤ pairs.new.spare + pair_count m.now.slot.blocker }
{
    match table.place_of(m.number) {
        Some(at) => write_pair(table, pairs, at, m.slot),
        None => {}
    }
}

// Rows get new slots, with their pairs.
fn write_pairs(table: &mut Table, pairs: &mut Pairs, moved: &[Moved])
    requires differ { HaveOwnNumbers table.old.rows }
    requires paired { IsIndex IsPairIn table.old.rows pairs.old.entries }
    requires room { moved_pairs moved.now ≤ pairs.old.spare }
    ensures paired { IsIndex IsPairIn table.new.rows pairs.new.entries }
    ensures rows { table.new.rows ≡ moved_rows moved.now table.old.rows }
    ensures labels { table.new.room ≡ table.old.room }
    ensures blocks { pairs.old.spare ≤ pairs.new.spare + moved_pairs moved.now }
{
    for m in moved {
        write_one_pair(table, pairs, m);
    }
}

// Rows get new slots; all entries of the grid are looked at for that.
fn write_all(table: &mut Table, grid: &mut Grid, pairs: &mut Pairs, moved: &[Moved])
    requires stored { IsStored table.old.rows grid.old.entries pairs.old.entries }
    requires room { moved_pairs moved.now ≤ pairs.old.spare }
    ensures stored { IsStored table.new.rows grid.new.entries pairs.new.entries }
    ensures rows { table.new.rows ≡ moved_rows moved.now table.old.rows }
    ensures labels { table.new.room ≡ table.old.room }
    ensures cells { grid.new.spare ≡ grid.old.spare }
    ensures blocks { pairs.old.spare ≤ pairs.new.spare + moved_pairs moved.now }
{
    write_pairs(table, pairs, moved);
    grid.renew_ends(table);
}

/// Rows get new slots, with their entries and their pairs: where these are many, in one walk over all entries.
pub fn write_slots(table: &mut Table, grid: &mut Grid, pairs: &mut Pairs, moved: &[Moved])
    requires stored { IsStored table.old.rows grid.old.entries pairs.old.entries }
    requires room { moved_pairs moved.now ≤ pairs.old.spare }
    ensures stored { IsStored table.new.rows grid.new.entries pairs.new.entries }
    ensures rows { table.new.rows ≡ moved_rows moved.now table.old.rows }
    ensures labels { table.new.room ≡ table.old.room }
    ensures cells { grid.new.spare ≡ grid.old.spare }
    ensures blocks { pairs.old.spare ≤ pairs.new.spare + moved_pairs moved.now }
{
    if moved.len() > table.len() / MANY {
        write_all(table, grid, pairs, moved);
    } else {
        write_each(table, grid, pairs, moved);
    }
}
