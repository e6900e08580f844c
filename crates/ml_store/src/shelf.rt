//! Rows that stand by number.
ghost use Rattle.std.specs.Prelude.{◌≡◌, ◌<◌, ◌≤◌, length, All, Some, None, IfOk, slice_set};
ghost use Rattle.ml_ratio.specs.Limits.{most_labels};
ghost use Rattle.ml_store.specs.Boxes.{unboxed};
ghost use Rattle.ml_store.specs.Rows.{AreInTurn};
ghost use Rattle.ml_store.specs.Shelf.{row_at, AreShelved};
ghost use Rattle.ml_store.specs.declared.row.Row.{Row};

use crate::row::Row;
use ml_cone::Slot;
use ml_ratio::MOST_LABELS;
use std::alloc::{AllocError, Global};
use std::marker::Model;

/// A place for each of the 32,768 numbers, where a row may stand. A row that comes, goes or changes moves no other.
#[derive(Drop)]
pub struct Shelf {
    places: Vec<Option<Box<Row>>>,
}

impl Model for Shelf {
    ghost use Rattle.std.specs.Prelude.{◌≡◌, List, Option, length, map};
    ghost use Rattle.ml_ratio.specs.Limits.{most_labels};
    ghost use Rattle.ml_store.specs.Shelf.{unboxed_one};
    ghost use Rattle.ml_store.specs.declared.row.Row.{Row};

    ghost Value = { List (Option Row) };

    ghost view = { λ s. map unboxed_one s.places.items };

    ghost invariant = { λ s. length s.places.items ≡ most_labels };
}

// No row stands anywhere.
fn empty_places(alloc: Global) -> Result<Vec<Option<Box<Row>>>, AllocError>
    ensures many { IfOk result (λ places. length places.items ≡ most_labels) }
    ensures empty { IfOk result (λ places. All (λ place. place ≡ None) places.items) }
{
    let mut places = Vec::with_capacity(alloc, MOST_LABELS)?;
    for _ in 0..MOST_LABELS {
        places.push(None)?;
    }
    Ok(places)
}

impl Shelf {
    /// These rows, whose numbers are their places in the list.
    ///
    /// # Errors
    /// Out of memory.
    pub fn of(alloc: Global, mut rows: Vec<Box<Row>>) -> Result<Shelf, AllocError>
        requires few { length rows.items ≤ most_labels }
        requires in_turn { AreInTurn (unboxed rows.items) }
        ensures { IfOk result (λ shelf. AreShelved shelf (unboxed rows.items)) }
    {
        let mut places = empty_places(alloc)?;
        while let Some(row) = rows.pop() {
            places[rows.len()] = Some(row);
        }
        Ok(Shelf { places })
    }

    /// The row that stands at the number.
    pub fn row(&self, number: u32) -> &Row
        requires { (r : Row) × (row_at self.now number ≡ Some r) }
        ensures { row_at self.now number ≡ Some result.now }
    {
        match &self.places[number as usize] {
            Some(row) => row,
            None => unreachable!(),
        }
    }

    /// The row comes to stand at the number.
    pub fn put(&mut self, number: u32, row: Box<Row>)
        requires { number < most_labels }
        ensures row { self.new ≡ slice_set self.old number (Some row.value) }
        ensures places { length self.old ≡ most_labels }
    {
        self.places[number as usize] = Some(row);
    }

    /// The row at the number goes.
    pub fn take(&mut self, number: u32) -> Box<Row>
        requires { (r : Row) × (row_at self.old number ≡ Some r) }
        ensures row { row_at self.old number ≡ Some result.value }
        ensures gone { self.new ≡ slice_set self.old number None }
    {
        match self.places[number as usize].take() {
            Some(row) => row,
            None => unreachable!(),
        }
    }

    /// The row at the number gets another slot.
    pub fn set_slot(&mut self, number: u32, slot: Slot)
        requires { (r : Row) × (row_at self.old number ≡ Some r) }
        ensures { (r : Row) → row_at self.old number ≡ Some r →
            self.new ≡ slice_set self.old number (Some (record r { slot = slot })) }
    {
        match &mut self.places[number as usize] {
            Some(row) => {
                row.slot = slot;
            }
            None => unreachable!(),
        }
    }
}
