//! The live labels with the grid and the index of blockers, which always agree.
ghost use Rattle.std.specs.Prelude.{◌≡◌, ◌+◌, ◌<◌, ◌≤◌, [], length, insert, remove, OnOk, IfOk, MatchOption, HoldsAt, slice_index_or};
ghost use Rattle.ml_ratio.specs.Limits.{most_labels};
ghost use Rattle.ml_grid.specs.Count.{entry_count};
ghost use Rattle.ml_store.specs.Moved.{moved_rows, moved_pairs};
ghost use Rattle.ml_store.specs.Pairs.{pair_count};
ghost use Rattle.ml_cone.specs.declared.label.Label.{Label};
ghost use Rattle.ml_store.specs.Boxes.{unboxed};
ghost use Rattle.ml_store.specs.Numbered.{AreNumbered};
ghost use Rattle.ml_store.specs.Rows.{number_at, labels_in, AreInTurn, IsFresh, HasId, HaveOwnIds, IsNumberOf};
ghost use Rattle.ml_store.specs.Store.{IsStored, AreWithin};
ghost use Rattle.ml_store.specs.Table.{IsPlaceIn, with_slot, slot_at};

mod finding;

use crate::bulk::{blocker_index_of, grid_of, outline_of};
use crate::moved::Moved;
use crate::moving::{write_slot, write_slots};
use crate::pairs::Pairs;
use crate::parts::{put_row, take_row};
use crate::row::Row;
use crate::table::Table;
use ml_cone::{Outline, Slot};
use ml_grid::Grid;
use ml_ratio::Text;
use ml_spans::SpanTree;
use std::alloc::{AllocError, Global};
use std::marker::Model;

/// The live labels, and room for more.
///
/// Contracts see the rows in order, and how many labels, entries of the grid and pairs of the index may
/// come in without memory. That the grid holds exactly the rows' entries, the index exactly their pairs,
/// and that each label is within the outline, is kept here and seen nowhere above.
#[derive(Drop)]
pub struct Store {
    table: Table,
    grid: Grid,
    pairs: Pairs,
    outline: Outline,
}

impl Model for Store {
    ghost use Rattle.ml_store.specs.Rows.{Stored};
    ghost use Rattle.ml_store.specs.Store.{IsStored, AreWithin};

    ghost Value = { Stored };

    ghost view = { λ s. record { rows = s.table.rows; labels = s.table.room; cells = s.grid.spare; blocks = s.pairs.spare } };

    ghost invariant = { λ s. IsStored s.table.rows s.grid.entries s.pairs.entries × AreWithin s.outline s.table.rows };
}

impl Store {
    /// No labels, and no room.
    ///
    /// # Errors
    /// Out of memory.
    pub fn new(alloc: Global) -> Result<Store, AllocError>
        ensures { IfOk result (λ s. s ≡ record { rows = []; labels = 0; cells = 0; blocks = 0 }) }
    {
        let table = Table::new(alloc)?;
        Ok(Store {
            table,
            grid: Grid::new(alloc),
            pairs: SpanTree::new(alloc),
            outline: Outline::none(),
        })
    }

    /// The labels of these rows, whose numbers are their places, and no room.
    ///
    /// # Errors
    /// Out of memory.
    pub fn of(alloc: Global, rows: Vec<Box<Row>>) -> Result<Store, AllocError>
        requires few { length rows.items ≤ most_labels }
        requires in_turn { AreInTurn (unboxed rows.items) }
        requires own_ids { HaveOwnIds (unboxed rows.items) }
        ensures { IfOk result
            (λ s. s ≡ record { rows = unboxed rows.items; labels = 0; cells = 0; blocks = 0 }) }
    {
        let outline = outline_of(rows.as_slice());
        let pairs = blocker_index_of(alloc, rows.as_slice())?;
        let grid = grid_of(alloc, rows.as_slice())?;
        let table = Table::of(alloc, rows)?;
        Ok(Store {
            table,
            grid,
            pairs,
            outline,
        })
    }

    /// How many labels there are: at most 32,768, with different numbers below that.
    pub fn len(&self) -> usize
        ensures count { result ≡ length self.now.rows }
        ensures numbered { AreNumbered self.now.rows }
    {
        self.table.len()
    }

    /// The row at a place, which has its number, its label and its slot.
    pub fn row(&self, at: usize) -> &Row
        requires { at < length self.now.rows }
        ensures row { HoldsAt (λ r. r ≡ result.now) self.now.rows at }
        ensures number { number_at self.now.rows at ≡ result.now.number }
        ensures label { (d : Label) →
            slice_index_or (labels_in self.now.rows) at d ≡ result.now.label }
        ensures slot { slot_at self.now.rows at ≡ result.now.slot }
        ensures numbered { AreNumbered self.now.rows }
    {
        self.table.row(at)
    }

    /// The place of the label with this number; none where no label has it.
    pub fn place_of(&self, number: u32) -> Option<usize>
        ensures place { IsPlaceIn self.now.rows number result }
        ensures numbered { AreNumbered self.now.rows }
    {
        self.table.place_of(number)
    }

    /// The number of the label with this id; none where no label has it.
    pub fn number_of(&self, id: &Text) -> Option<u32>
        ensures { MatchOption result (¬ (HasId (labels_in self.now.rows) id.now))
            (IsNumberOf self.now.rows id.now) }
    {
        self.table.number_of(id)
    }

    /// A number that no label has.
    pub fn free(&self) -> u32
        requires { length self.now.rows < most_labels }
        ensures free { IsFresh result self.now.rows }
        ensures low { result < most_labels }
    {
        self.table.free()
    }

    /// A label with a new id comes in at `at`, with its number and its slot. It takes no memory and cannot
    /// fail.
    pub fn put(&mut self, at: usize, row: Box<Row>)
        requires is_place { at ≤ length self.old.rows }
        requires fresh { IsFresh row.value.number self.old.rows }
        requires low { row.value.number < most_labels }
        requires new_id { ¬ (HasId (labels_in self.old.rows) row.value.label.order.id) }
        requires labels { 0 < self.old.labels }
        requires cells { entry_count row.value.label ≤ self.old.cells }
        requires blocks { pair_count row.value.slot.blocker ≤ self.old.blocks }
        ensures rows { self.new.rows ≡ insert self.old.rows at row.value }
        ensures labels { self.new.labels + 1 ≡ self.old.labels }
        ensures cells { self.new.cells + entry_count row.value.label ≡ self.old.cells }
        ensures blocks { self.new.blocks + pair_count row.value.slot.blocker ≡ self.old.blocks }
    {
        self.outline = self.outline.with(&row.label);
        put_row(&mut self.table, &mut self.grid, &mut self.pairs, at, row);
    }

    /// The label at `at` goes, and gives back its room. It takes no memory and cannot fail.
    pub fn take(&mut self, at: usize) -> Box<Row>
        requires is_place { at < length self.old.rows }
        ensures rows { self.new.rows ≡ remove self.old.rows at }
        ensures row { HoldsAt (λ r. r ≡ result.value) self.old.rows at }
        ensures labels { self.new.labels ≡ self.old.labels + 1 }
        ensures cells { self.new.cells ≡ self.old.cells + entry_count result.value.label }
        ensures blocks { self.new.blocks ≡ self.old.blocks + pair_count result.value.slot.blocker }
    {
        let row = take_row(&mut self.table, &mut self.grid, &mut self.pairs, at);
        row
    }

    /// The label at `at` gets another slot. It takes no memory and cannot fail.
    pub fn set_slot(&mut self, at: usize, slot: Slot)
        requires is_place { at < length self.old.rows }
        requires room { pair_count slot.blocker
            ≤ self.old.blocks + pair_count (slot_at self.old.rows at).blocker }
        ensures rows { self.new.rows ≡ with_slot self.old.rows at slot }
        ensures labels { self.new.labels ≡ self.old.labels }
        ensures cells { self.new.cells ≡ self.old.cells }
        ensures blocks { self.new.blocks + pair_count slot.blocker
            ≡ self.old.blocks + pair_count (slot_at self.old.rows at).blocker }
    {
        write_slot(&mut self.table, &mut self.grid, &mut self.pairs, at, slot);
    }

    /// Labels get new slots, all at once: where these are many, that costs less than one after another. Numbers
    /// that no label has are passed over. It takes no memory and cannot fail.
    pub fn set_slots(&mut self, moved: &[Moved])
        requires { moved_pairs moved.now ≤ self.old.blocks }
        ensures rows { self.new.rows ≡ moved_rows moved.now self.old.rows }
        ensures labels { self.new.labels ≡ self.old.labels }
        ensures cells { self.new.cells ≡ self.old.cells }
        ensures blocks { self.old.blocks ≤ self.new.blocks + moved_pairs moved.now }
    {
        write_slots(&mut self.table, &mut self.grid, &mut self.pairs, moved);
    }

    /// Makes room for so many labels, entries and pairs.
    ///
    /// # Errors
    /// Out of memory, or more than 32,768 labels, which leaves the labels; the room may have grown.
    pub fn reserve(&mut self, labels: usize, cells: usize, blocks: usize) -> Result<(), AllocError>
        ensures ok { OnOk result
            ((labels ≤ self.new.labels) × (cells ≤ self.new.cells) × (blocks ≤ self.new.blocks)) }
        ensures rows { self.new.rows ≡ self.old.rows }
        ensures room { (self.old.labels ≤ self.new.labels)
            × (self.old.cells ≤ self.new.cells) × (self.old.blocks ≤ self.new.blocks) }
    {
        self.table.reserve(labels)?;
        self.grid.reserve(cells)?;
        self.pairs.reserve(blocks)?;
        Ok(())
    }

    /// How many labels may come in without memory.
    pub fn spare_labels(&self) -> usize
        ensures { result ≡ self.now.labels }
    {
        self.table.room()
    }

    /// How many entries of the grid may come in without memory.
    pub fn spare_cells(&self) -> usize
        ensures { result ≡ self.now.cells }
    {
        self.grid.spare()
    }

    /// How many pairs of blocker and blocked may come in without memory.
    pub fn spare_blocks(&self) -> usize
        ensures { result ≡ self.now.blocks }
    {
        self.pairs.spare()
    }
}
