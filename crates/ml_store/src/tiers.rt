//! All numbers in an order in which one moves without most of the others.
ghost use Rattle.std.specs.Prelude.{ℕ, ◌≡◌, ◌+◌, ◌*◌, ◌/◌, ◌<◌, ◌≤◌, ◌↔◌, length, Contains, IfOk, take, slice_index};
ghost use Rattle.ml_ratio.specs.Limits.{most_labels};
ghost use Rattle.ml_store.specs.Rows.{AreDifferent};
ghost use Rattle.ml_store.specs.Tiers.{AreAll, AreAscending, LeadsBack, shifted};

use crate::ring::{BLOCK, carry_back, carry_on, cell_at, pass_back, pass_on, place_at};
use ml_ratio::MOST_LABELS;
use std::alloc::{AllocError, Global};
use std::marker::Model;

// How many blocks there are.
const BLOCKS: usize = 256;

/// All numbers below 32,768, each once, in an order. Each block of 128 cells is a ring that is read from a head
/// on: a number passes a whole block by a turn of its ring, and no other number changes its cell.
#[derive(Drop)]
pub struct Tiers {
    cells: Vec<u16>,
    cell_of: Vec<u16>,
    heads: Vec<u8>,
}

impl Model for Tiers {
    ghost use Rattle.std.specs.Prelude.{List, ℕ};
    ghost use Rattle.ml_store.specs.Tiers.{AreTiers, order_of};

    ghost Value = { List ℕ };

    ghost view = { λ t. order_of t.heads.items t.cells.items };

    ghost invariant = { λ t. AreTiers t.cells.items t.cell_of.items t.heads.items };
}

// All numbers, ascending.
fn all_numbers(alloc: Global) -> Result<Vec<u16>, AllocError>
    ensures many { IfOk result (λ all. length all.items ≡ most_labels) }
    ensures ascending { IfOk result (λ all. AreAscending all.items) }
{
    let mut all = Vec::with_capacity(alloc, MOST_LABELS)?;
    for number in 0..MOST_LABELS as u16 {
        all.push(number)?;
    }
    Ok(all)
}

// The numbers of `order` come first in the cells, and each is told its cell.
fn write_order(cells: &mut Vec<u16>, cell_of: &mut Vec<u16>, order: &[u32])
    requires all_cells { length cells.old.items ≡ most_labels }
    requires all_numbers { length cell_of.old.items ≡ most_labels }
    requires cells { AreAscending cells.old.items }
    requires numbers { AreAscending cell_of.old.items }
    requires few { length order.now ≤ most_labels }
    requires first { (n : ℕ) → Contains order.now n ↔ n < length order.now }
    requires differ { AreDifferent order.now }
    ensures all_cells { length cells.new.items ≡ most_labels }
    ensures all_numbers { length cell_of.new.items ≡ most_labels }
    ensures told { LeadsBack cells.new.items cell_of.new.items }
    ensures found { LeadsBack cell_of.new.items cells.new.items }
    ensures order { (k : ℕ) → k < length order.now →
        slice_index cells.new.items k ≡ slice_index order.now k }
    ensures behind { (k : ℕ) → length order.now ≤ k → k < most_labels →
        slice_index cells.new.items k ≡ k }
{
    for (cell, number) in order.iter().enumerate() {
        cells[cell] = *number as u16;
        cell_of[*number as usize] = cell as u16;
    }
}

impl Tiers {
    /// These numbers come first, in this order, and the others behind, ascending.
    ///
    /// # Errors
    /// Out of memory.
    pub fn of(alloc: Global, order: &[u32]) -> Result<Tiers, AllocError>
        requires few { length order.now ≤ most_labels }
        requires first { (n : ℕ) → Contains order.now n ↔ n < length order.now }
        requires differ { AreDifferent order.now }
        ensures all { IfOk result (λ tiers. AreAll tiers) }
        ensures first { IfOk result (λ tiers. take (length order.now) tiers ≡ order.now) }
        ensures behind { IfOk result (λ tiers. (k : ℕ) → length order.now ≤ k → k < most_labels →
            slice_index tiers k ≡ k) }
    {
        let mut cells = all_numbers(alloc)?;
        let mut cell_of = all_numbers(alloc)?;
        let heads = vec![in alloc; 0u8; BLOCKS]?;
        write_order(&mut cells, &mut cell_of, order);
        Ok(Tiers {
            cells,
            cell_of,
            heads,
        })
    }

    /// The number at a place.
    pub fn at(&self, k: usize) -> u32
        requires { k < length self.now }
        ensures { result ≡ slice_index self.now k }
    {
        self.cells[cell_at(&self.heads, k)] as u32
    }

    /// The place of a number below 32,768.
    pub fn place_of(&self, number: usize) -> usize
        requires { number < most_labels }
        ensures place { result < length self.now }
        ensures number { slice_index self.now result ≡ number }
    {
        place_at(&self.heads, self.cell_of[number] as usize)
    }

    // The number at `from` moves back to `to` in its block.
    fn carry_back(&mut self, from: usize, to: usize)
        requires from_place { from < length self.old }
        requires to_place { to ≤ from }
        requires block { to / 128 ≡ from / 128 }
        ensures { self.new ≡ shifted self.old from to }
    {
        carry_back(&mut self.cells, &mut self.cell_of, &self.heads, from, to);
    }

    // The number at `from` moves on to `to` in its block.
    fn carry_on(&mut self, from: usize, to: usize)
        requires from_place { from ≤ to }
        requires to_place { to < length self.old }
        requires block { to / 128 ≡ from / 128 }
        ensures { self.new ≡ shifted self.old from to }
    {
        carry_on(&mut self.cells, &mut self.cell_of, &self.heads, from, to);
    }

    // The first number of block `from` comes to stand first in block `to`, which is not behind it.
    fn pass_back(&mut self, from: usize, to: usize)
        requires from_block { 128 * from < length self.old }
        requires to_block { to ≤ from }
        ensures { self.new ≡ shifted self.old (128 * from) (128 * to) }
    {
        pass_back(
            &mut self.cells,
            &mut self.cell_of,
            &mut self.heads,
            from,
            to,
        );
    }

    // The last number of block `from` comes to stand last in block `to`, which is not before it.
    fn pass_on(&mut self, from: usize, to: usize)
        requires from_block { from ≤ to }
        requires to_block { 128 * to < length self.old }
        ensures { self.new ≡ shifted self.old (128 * from + 127) (128 * to + 127) }
    {
        pass_on(
            &mut self.cells,
            &mut self.cell_of,
            &mut self.heads,
            from,
            to,
        );
    }

    // The last number of a block comes to stand first in it.
    fn turn_back(&mut self, block: usize)
        requires { 128 * block + 127 < length self.old }
        ensures { self.new ≡ shifted self.old (128 * block + 127) (128 * block) }
    {
        self.heads[block] = ((self.heads[block] as usize + BLOCK - 1) % BLOCK) as u8;
    }

    // The first number of a block comes to stand last in it.
    fn turn_on(&mut self, block: usize)
        requires { 128 * block + 127 < length self.old }
        ensures { self.new ≡ shifted self.old (128 * block) (128 * block + 127) }
    {
        self.heads[block] = ((self.heads[block] as usize + 1) % BLOCK) as u8;
    }

    // The number at `from` moves to `to` in its block. Where that is more than half of the ring, the ring is turned, and
    // the number moves the other way around.
    fn move_within(&mut self, from: usize, to: usize)
        requires all { length self.old ≡ most_labels }
        requires from_place { from < length self.old }
        requires block { to / 128 ≡ from / 128 }
        ensures { self.new ≡ shifted self.old from to }
    {
        let block = from / BLOCK;
        let first = block * BLOCK;
        let last = first + BLOCK - 1;
        if to + BLOCK / 2 < from {
            self.carry_on(from, last);
            self.turn_back(block);
            self.carry_on(first, to);
        } else if to < from {
            self.carry_back(from, to);
        } else if to <= from + BLOCK / 2 {
            self.carry_on(from, to);
        } else {
            self.carry_back(from, first);
            self.turn_on(block);
            self.carry_back(last, to);
        }
    }

    // The number at `from` moves to `to` in a block before its own.
    fn move_back(&mut self, from: usize, to: usize)
        requires all { length self.old ≡ most_labels }
        requires from_place { from < length self.old }
        requires to_block { to / 128 < from / 128 }
        ensures { self.new ≡ shifted self.old from to }
    {
        let block = from / BLOCK;
        let other = to / BLOCK;
        self.move_within(from, block * BLOCK);
        self.pass_back(block, other);
        self.move_within(other * BLOCK, to);
    }

    // The number at `from` moves to `to` in a block behind its own.
    fn move_on(&mut self, from: usize, to: usize)
        requires all { length self.old ≡ most_labels }
        requires to_place { to < length self.old }
        requires from_block { from / 128 < to / 128 }
        ensures { self.new ≡ shifted self.old from to }
    {
        let block = from / BLOCK;
        let other = to / BLOCK;
        self.move_within(from, block * BLOCK + BLOCK - 1);
        self.pass_on(block, other);
        self.move_within(other * BLOCK + BLOCK - 1, to);
    }

    /// The number at `from` moves to `to`, and those between close up behind it.
    pub fn shift(&mut self, from: usize, to: usize)
        requires from_place { from < length self.old }
        requires to_place { to < length self.old }
        ensures { self.new ≡ shifted self.old from to }
    {
        // (what is known of the columns tells that the order has all numbers)
        let _ = &self.cells;
        let block = from / BLOCK;
        let other = to / BLOCK;
        if other < block {
            self.move_back(from, to);
        } else if block < other {
            self.move_on(from, to);
        } else {
            self.move_within(from, to);
        }
    }
}
