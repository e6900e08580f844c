//! Rows in order, found by place and by number.
ghost use Rattle.std.specs.Prelude.{◌≡◌, ◌<◌, ◌≤◌, length, MatchOption, IfOk, HoldsAt, Contains, insert, remove};
ghost use Rattle.ml_ratio.specs.Limits.{most_labels};
ghost use Rattle.ml_store.specs.Boxes.{unboxed};
ghost use Rattle.ml_store.specs.Numbered.{AreNumbered};
ghost use Rattle.ml_store.specs.Rows.{numbers_in, AreInTurn, IsFresh};
ghost use Rattle.ml_store.specs.Table.{IsPlaceIn, with_slot};

use crate::numbers::Numbers;
use crate::row::Row;
use crate::shelf::Shelf;
use ml_cone::Slot;
use std::alloc::{AllocError, Global};
use std::marker::Model;

/// Rows in order, at most 32,768, each with a number of its own below that.
///
/// A row stands by its number, and the order is one of numbers, which moves few of them as a row comes or goes.
#[derive(Drop)]
pub struct Rows {
    shelf: Shelf,
    numbers: Numbers,
}

impl Model for Rows {
    ghost use Rattle.std.specs.Prelude.{List};
    ghost use Rattle.ml_store.specs.Shelf.{rows_at, AreInPlace};
    ghost use Rattle.ml_store.specs.declared.row.Row.{Row};

    ghost Value = { List Row };

    ghost view = { λ r. rows_at r.shelf r.numbers };

    ghost invariant = { λ r. AreInPlace r.shelf r.numbers (rows_at r.shelf r.numbers) };
}

impl Rows {
    /// These rows, whose numbers are their places.
    ///
    /// # Errors
    /// Out of memory.
    pub fn of(alloc: Global, rows: Vec<Box<Row>>) -> Result<Rows, AllocError>
        requires few { length rows.items ≤ most_labels }
        requires in_turn { AreInTurn (unboxed rows.items) }
        ensures { IfOk result (λ all. all ≡ unboxed rows.items) }
    {
        let numbers = Numbers::first(alloc, rows.len())?;
        let shelf = Shelf::of(alloc, rows)?;
        Ok(Rows { shelf, numbers })
    }

    /// How many rows there are.
    pub fn len(&self) -> usize
        ensures count { result ≡ length self.now }
        ensures numbered { AreNumbered self.now }
    {
        self.numbers.len()
    }

    /// The row at a place.
    pub fn at(&self, at: usize) -> &Row
        requires { at < length self.now }
        ensures row { HoldsAt (λ r. r ≡ result.now) self.now at }
        ensures numbered { AreNumbered self.now }
    {
        self.shelf.row(self.numbers.at(at))
    }

    /// The row with this number.
    pub fn with_number(&self, number: u32) -> &Row
        requires { Contains (numbers_in self.now) number }
        ensures number { result.now.number ≡ number }
        ensures row { Contains self.now result.now }
        ensures numbered { AreNumbered self.now }
    {
        self.shelf.row(number)
    }

    /// The row with this number; none where no row has it.
    pub fn find(&self, number: u32) -> Option<&Row>
        ensures row { MatchOption result (IsFresh number self.now)
            (λ r. Contains self.now r.now × (r.now.number ≡ number)) }
        ensures numbered { AreNumbered self.now }
    {
        match self.numbers.place_of(number) {
            Some(_) => Some(self.with_number(number)),
            None => None,
        }
    }

    /// The place of the row with this number; none where no row has it.
    pub fn place_of(&self, number: u32) -> Option<usize>
        ensures place { IsPlaceIn self.now number result }
        ensures numbered { AreNumbered self.now }
    {
        self.numbers.place_of(number)
    }

    /// A number that no row has.
    pub fn free(&self) -> u32
        requires { length self.now < most_labels }
        ensures free { IsFresh result self.now }
        ensures low { result < most_labels }
    {
        self.numbers.free()
    }

    /// A row comes in at `at`.
    pub fn insert(&mut self, at: usize, row: Box<Row>)
        requires is_place { at ≤ length self.old }
        requires fresh { IsFresh row.value.number self.old }
        requires low { row.value.number < most_labels }
        ensures rows { self.new ≡ insert self.old at row.value }
        ensures few { length self.old < most_labels }
    {
        let number = row.number;
        self.shelf.put(number, row);
        self.numbers.insert(at, number);
    }

    /// The row at `at` goes.
    pub fn remove(&mut self, at: usize) -> Box<Row>
        requires is_place { at < length self.old }
        ensures rows { self.new ≡ remove self.old at }
        ensures row { HoldsAt (λ r. r ≡ result.value) self.old at }
    {
        let number = self.numbers.at(at);
        self.numbers.remove(at);
        self.shelf.take(number)
    }

    /// The row at `at` gets another slot.
    pub fn set_slot(&mut self, at: usize, slot: Slot)
        requires is_place { at < length self.old }
        ensures rows { self.new ≡ with_slot self.old at slot }
    {
        self.shelf.set_slot(self.numbers.at(at), slot);
    }
}
