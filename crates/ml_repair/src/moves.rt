//! New slots of labels, found by number.
ghost use Rattle.std.specs.Prelude.{ℕ, ◌≡◌, ◌<◌, ◌≤◌, ◌==◌, [], List, length, All, IfOk, if◌then◌else◌};
ghost use Rattle.ml_ratio.specs.Limits.{most_labels};
ghost use Rattle.ml_cone.specs.declared.slot.Slot.{Slot};
ghost use Rattle.ml_store.specs.Rows.{AreDifferent};
ghost use Rattle.ml_repair.specs.Plan.{slot_for};
ghost use Rattle.ml_repair.specs.Moves.{numbers_of, IsFoundAt, IsColumn};

use ml_cone::Slot;
use ml_ratio::MOST_LABELS;
use ml_store::Moved;
use std::alloc::{AllocError, Global};
use std::marker::Model;

// Where more labels than these have a new slot, a column finds them sooner than a look at each.
const FEW_MOVED: usize = 8;

/// New slots of labels whose numbers are below 32,768, each label's once.
///
/// Most edits move few labels, and a column for all numbers would cost more than the edit: it is made once there
/// are many.
#[derive(Drop)]
pub struct Moves {
    alloc: Global,
    moved: Vec<Moved>,
    column: Vec<u16>,
}

// One more than the place of the number's new slot; 0 where it has none.
fn find_in(moved: &[Moved], number: u32) -> usize
    requires { AreDifferent (numbers_of moved.now) }
    ensures { IsFoundAt moved.now number result }
{
    for k in 0..moved.len() {
        if moved[k].number == number {
            return k + 1;
        }
    }
    0
}

// The column of these new slots.
fn column_of(alloc: Global, moved: &[Moved]) -> Result<Vec<u16>, AllocError>
    requires low { All (λ n. n < most_labels) (numbers_of moved.now) }
    requires differ { AreDifferent (numbers_of moved.now) }
    ensures { IfOk result (λ column. IsColumn moved.now column.items) }
{
    // copied at once: `vec!` would write one element after another
    let mut column = Vec::from_slice(alloc, &[0; MOST_LABELS])?;
    for k in 0..moved.len() {
        column[moved[k].number as usize] = (k + 1) as u16;
    }
    Ok(column)
}

impl Model for Moves {
    ghost use Rattle.std.specs.Prelude.{List};
    ghost use Rattle.ml_store.specs.declared.moved.Moved.{Moved};
    ghost use Rattle.ml_repair.specs.Moves.{AreMoves};

    ghost Value = { List Moved };

    ghost view = { λ m. m.moved.items };

    ghost invariant = { λ m. AreMoves m.moved.items m.column.items };
}

impl Moves {
    /// No label has a new slot.
    pub fn new(alloc: Global) -> Moves
        ensures { result ≡ [] }
    {
        Moves {
            alloc,
            moved: Vec::new(alloc),
            column: Vec::new(alloc),
        }
    }

    // One more than the place of the label's new slot; 0 where it has none.
    fn find(&self, number: u32) -> usize
        requires { number < most_labels }
        ensures { IsFoundAt self.now number result }
    {
        if self.column.is_empty() {
            find_in(&self.moved, number)
        } else {
            self.column[number as usize] as usize
        }
    }

    // Makes the column, where so many labels have a new slot that it pays.
    fn widen(&mut self) -> Result<(), AllocError>
        ensures { self.new ≡ self.old }
    {
        if self.column.is_empty() && self.moved.len() >= FEW_MOVED {
            self.column = column_of(self.alloc, &self.moved)?;
        }
        Ok(())
    }

    /// The slot of the label with this number, whose own slot is `own`.
    pub fn slot(&self, number: u32, own: Slot) -> Slot
        requires { number < most_labels }
        ensures { result ≡ slot_for number own self.now }
    {
        let at = self.find(number);
        if at > 0 { self.moved[at - 1].slot } else { own }
    }

    /// The label with this number gets a new slot.
    ///
    /// # Errors
    /// Out of memory.
    pub fn put(&mut self, number: u32, slot: Slot) -> Result<(), AllocError>
        requires { number < most_labels }
        ensures { IfOk result (λ _. (n : ℕ) (own : Slot) →
            slot_for n own self.new ≡ (if n == number then slot else slot_for n own self.old)) }
    {
        let at = self.find(number);
        if at > 0 {
            self.moved[at - 1].slot = slot;
            return Ok(());
        }
        self.widen()?;
        self.moved.push(Moved { number, slot })?;
        if !self.column.is_empty() {
            self.column[number as usize] = self.moved.len() as u16;
        }
        Ok(())
    }

    /// The new slots.
    pub fn as_slice(&self) -> &[Moved]
        ensures moved { result.now ≡ self.now }
        ensures differ { AreDifferent (numbers_of self.now) }
        ensures few { length self.now ≤ most_labels }
    {
        &self.moved
    }
}
