//! The table of live labels: rows in order, found by number and by id.
ghost use Rattle.std.specs.Prelude.{◌≡◌, ◌+◌, ◌<◌, ◌≤◌, [], length, MatchOption, OnOk, OnErr, IfOk, HoldsAt, insert, remove};
ghost use Rattle.ml_ratio.specs.Limits.{most_labels};
ghost use Rattle.ml_store.specs.Boxes.{unboxed};
ghost use Rattle.ml_store.specs.Names.{names_in, HaveId};
ghost use Rattle.ml_store.specs.Numbered.{AreNumbered};
ghost use Rattle.ml_store.specs.Rows.{labels_in, AreInTurn, HaveOwnIds, HasId, IsFresh, IsNumberOf};
ghost use Rattle.ml_store.specs.Table.{IsTable, IsPlaceIn, with_slot};
ghost use Rattle.ml_store.specs.declared.row.Row.{Row};

use crate::names::{find_id, put_name, take_name};
use crate::numbers::Numbers;
use crate::row::Row;
use crate::rows::Rows;
use crate::sorted::by_name;
use ml_cone::Slot;
use ml_grid::End;
use ml_ratio::{MOST_LABELS, Text};
use ml_spans::NextEnd;
use std::alloc::{AllocError, Global};
use std::marker::Model;

/// Rows in order, found by number and by id, and room for more. Numbers are below 32,768.
#[derive(Drop)]
pub struct Table {
    rows: Rows,
    ids: Numbers,
    room: usize,
}

impl Model for Table {
    ghost use Rattle.std.specs.Prelude.{◌+◌, ◌≤◌, length};
    ghost use Rattle.ml_store.specs.Table.{Listed, IsTable};

    ghost Value = { Listed };

    ghost view = { λ t. record { rows = t.rows; room = t.room } };

    ghost invariant = { λ t. IsTable t.rows t.ids × (length t.rows + t.room ≤ 65536) };
}

// A row comes in at `at`.
fn put_in(rows: &mut Rows, ids: &mut Numbers, at: usize, row: Box<Row>)
    requires table { IsTable rows.old ids.old }
    requires is_place { at ≤ length rows.old }
    requires fresh { IsFresh row.value.number rows.old }
    requires low { row.value.number < most_labels }
    requires new_id { ¬ (HaveId (names_in rows.old) row.value.label.order.id) }
    ensures table { IsTable rows.new ids.new }
    ensures rows { rows.new ≡ insert rows.old at row.value }
{
    put_name(rows, ids, row.number, row.label.id());
    rows.insert(at, row);
}

// The row at `at` goes.
fn take_out(rows: &mut Rows, ids: &mut Numbers, at: usize) -> Box<Row>
    requires table { IsTable rows.old ids.old }
    requires is_place { at < length rows.old }
    ensures table { IsTable rows.new ids.new }
    ensures rows { rows.new ≡ remove rows.old at }
    ensures row { HoldsAt (λ r. r ≡ result.value) rows.old at }
{
    take_name(rows, ids, rows.at(at).label.id());
    rows.remove(at)
}

impl Table {
    /// No rows, and no room.
    ///
    /// # Errors
    /// Out of memory.
    pub fn new(alloc: Global) -> Result<Table, AllocError>
        ensures { IfOk result (λ t. t ≡ record { rows = []; room = 0 }) }
    {
        Table::of(alloc, Vec::new(alloc))
    }

    /// These rows, whose numbers are their places, and no room.
    ///
    /// # Errors
    /// Out of memory.
    pub fn of(alloc: Global, rows: Vec<Box<Row>>) -> Result<Table, AllocError>
        requires few { length rows.items ≤ most_labels }
        requires in_turn { AreInTurn (unboxed rows.items) }
        requires own_ids { HaveOwnIds (unboxed rows.items) }
        ensures { IfOk result (λ t. t ≡ record { rows = unboxed rows.items; room = 0 }) }
    {
        let sorted = by_name(alloc, rows.as_slice())?;
        let ids = Numbers::of(alloc, sorted.as_slice())?;
        let rows = Rows::of(alloc, rows)?;
        Ok(Table { rows, ids, room: 0 })
    }

    /// How many rows there are: at most 32,768, whose numbers are different ones and below that.
    pub fn len(&self) -> usize
        ensures count { result ≡ length self.now.rows }
        ensures numbered { AreNumbered self.now.rows }
    {
        self.rows.len()
    }

    /// The row at a place.
    pub fn row(&self, at: usize) -> &Row
        requires { at < length self.now.rows }
        ensures row { HoldsAt (λ r. r ≡ result.now) self.now.rows at }
        ensures numbered { AreNumbered self.now.rows }
    {
        self.rows.at(at)
    }

    /// The place of the row with this number; none where no row has it.
    pub fn place_of(&self, number: u32) -> Option<usize>
        ensures place { IsPlaceIn self.now.rows number result }
        ensures numbered { AreNumbered self.now.rows }
    {
        self.rows.place_of(number)
    }

    /// The number of the label with this id; none where no label has it.
    pub fn number_of(&self, id: &Text) -> Option<u32>
        ensures { MatchOption result (¬ (HasId (labels_in self.now.rows) id.now))
            (IsNumberOf self.now.rows id.now) }
    {
        find_id(&self.rows, &self.ids, id)
    }

    /// A number that no row has.
    pub fn free(&self) -> u32
        requires { length self.now.rows < most_labels }
        ensures free { IsFresh result self.now.rows }
        ensures low { result < most_labels }
    {
        self.rows.free()
    }

    /// A row comes in at `at`. It takes no memory and cannot fail.
    pub fn insert(&mut self, at: usize, row: Box<Row>)
        requires is_place { at ≤ length self.old.rows }
        requires fresh { IsFresh row.value.number self.old.rows }
        requires low { row.value.number < most_labels }
        requires new_id { ¬ (HasId (labels_in self.old.rows) row.value.label.order.id) }
        requires room { 0 < self.old.room }
        ensures rows { self.new.rows ≡ insert self.old.rows at row.value }
        ensures room { self.new.room + 1 ≡ self.old.room }
    {
        put_in(&mut self.rows, &mut self.ids, at, row);
        self.room -= 1;
    }

    /// The row at `at` goes, and leaves its room. It takes no memory and cannot fail.
    pub fn remove(&mut self, at: usize) -> Box<Row>
        requires is_place { at < length self.old.rows }
        ensures rows { self.new.rows ≡ remove self.old.rows at }
        ensures row { HoldsAt (λ r. r ≡ result.value) self.old.rows at }
        ensures room { self.new.room ≡ self.old.room + 1 }
    {
        let row = take_out(&mut self.rows, &mut self.ids, at);
        self.room += 1;
        row
    }

    /// The row at `at` gets another slot.
    pub fn set_slot(&mut self, at: usize, slot: Slot)
        requires is_place { at < length self.old.rows }
        ensures rows { self.new.rows ≡ with_slot self.old.rows at slot }
        ensures room { self.new.room ≡ self.old.room }
    {
        self.rows.set_slot(at, slot);
    }

    /// How many rows may come in without memory.
    pub fn room(&self) -> usize
        ensures { result ≡ self.now.room }
    {
        self.room
    }

    /// Makes room for `n` rows. It takes no memory, since there is a place for each number.
    ///
    /// # Errors
    /// `n` is above 32,768, which leaves the room.
    pub fn reserve(&mut self, n: usize) -> Result<(), AllocError>
        ensures ok { OnOk result (n ≤ self.new.room) }
        ensures refused { OnErr result (most_labels < n) }
        ensures rows { self.new.rows ≡ self.old.rows }
        ensures room { self.old.room ≤ self.new.room }
    {
        if n > MOST_LABELS {
            return Err(AllocError);
        }
        self.room = self.room.max(n);
        Ok(())
    }
}

impl NextEnd<End, u32> for Table {
    ghost use Rattle.ml_store.specs.Moved.{end_in};

    ghost next = { λ table. end_in table.rows };

    fn next_end(&self, number: &u32, end: End) -> End {
        match self.rows.find(*number) {
            Some(row) => End::of(&row.slot.until),
            None => end,
        }
    }
}
