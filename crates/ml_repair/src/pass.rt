//! One label goes, or one comes.
ghost use Rattle.std.specs.Prelude.{ℕ, ◌≡◌, ◌+◌, ◌<◌, ◌≤◌, [], true, false, List, length, insert, remove, Some, IfSome, IfOk};
ghost use Rattle.ml_ratio.specs.Limits.{most_labels};
ghost use Rattle.ml_cone.specs.Slots.{AreSlots};
ghost use Rattle.ml_cone.specs.declared.slot.Slot.{Slot};
ghost use Rattle.ml_store.specs.Rows.{labels_in, number_at, IsFresh};
ghost use Rattle.ml_repair.specs.Plan.{slot_for};
ghost use Rattle.ml_repair.specs.Repair.{AreSettled, IsSettledAt};
ghost use Rattle.ml_repair.specs.Roster.{left_rows};
ghost use Rattle.ml_repair.specs.Touched.{AreTouched};

use crate::moves::Moves;
use crate::repair::repair;
use crate::roster::Roster;
use crate::settle::settle;
use crate::sought::Edited;
use ml_cone::Slot;
use ml_conflict::laws::{carried, own_slots};
use ml_ratio::Steps;
use ml_store::{Row, Store};
use std::alloc::{AllocError, Global};
use std::sync::ledger::Ledger;

/// The label at `at` goes: the new slots of those that stay, and how many labels that touches. Just these
/// are evaluated.
///
/// # Errors
/// Out of memory.
pub fn pass_out<L: Ledger>(
    alloc: Global,
    store: &Store,
    at: usize,
    moves: &mut Moves,
    steps: &mut Steps<L>,
) -> Result<u32, AllocError>
    requires is_place { at < length store.now.rows }
    requires before { AreSettled store.now.rows moves.old }
    ensures after { IfOk result (λ _. AreSettled (remove store.now.rows at) moves.new) }
    ensures touched { IfOk result (AreTouched (labels_in store.now.rows) at false) }
    ensures kept { IfOk result (λ _. (own : Slot) → slot_for (number_at store.now.rows at)
        own moves.new ≡ slot_for (number_at store.now.rows at) own moves.old) }
    ensures few { IfOk result (λ n. n ≤ most_labels) }
    ensures spent { IfOk result (λ n. steps.new ≡ steps.old + n) }
{
    own_slots();
    carried();
    let roster = Roster::of_all(store);
    repair(alloc, &roster, moves, at, false, steps)
}

/// The slot of the label that comes in at `at`.
///
/// # Errors
/// Out of memory.
pub fn settle_coming<L: Ledger>(
    alloc: Global,
    store: &Store,
    gone: Option<usize>,
    row: &mut Row,
    at: usize,
    moves: &Moves,
    steps: &mut Steps<L>,
) -> Result<(), AllocError>
    requires gone { IfSome gone (λ g. g < length store.now.rows) }
    requires is_place { at ≤ length (left_rows gone store.now.rows) }
    requires few { length (left_rows gone store.now.rows) < most_labels }
    requires fresh { IsFresh row.old.number (left_rows gone store.now.rows) }
    requires low { row.old.number < most_labels }
    requires before { AreSettled (left_rows gone store.now.rows) moves.now }
    requires kept { (own : Slot) → slot_for row.old.number own moves.now ≡ own }
    ensures number { row.new.number ≡ row.old.number }
    ensures label { row.new.label ≡ row.old.label }
    ensures own { IfOk result
        (λ _. IsSettledAt (insert (left_rows gone store.now.rows) at row.new) moves.now at) }
    ensures spent { IfOk result (λ _. steps.new ≡ steps.old + 1) }
{
    own_slots();
    carried();
    let roster = Roster::with(store, gone, row, at);
    let edited = Edited { at, comes: true };
    let slot = settle(alloc, &roster, moves, edited, false, at, steps)?;
    row.slot = slot;
    Ok(())
}

/// A label comes in at `at`, where one may have gone before: its slot, the new slots of the others, and
/// how many labels that touches. Just these are evaluated.
///
/// # Errors
/// Out of memory.
pub fn pass_in<L: Ledger>(
    alloc: Global,
    store: &Store,
    gone: Option<usize>,
    row: &mut Row,
    at: usize,
    moves: &mut Moves,
    steps: &mut Steps<L>,
) -> Result<u32, AllocError>
    requires gone { IfSome gone (λ g. g < length store.now.rows) }
    requires is_place { at ≤ length (left_rows gone store.now.rows) }
    requires few { length (left_rows gone store.now.rows) < most_labels }
    requires fresh { IsFresh row.old.number (left_rows gone store.now.rows) }
    requires low { row.old.number < most_labels }
    requires before { AreSettled (left_rows gone store.now.rows) moves.old }
    requires kept { (own : Slot) → slot_for row.old.number own moves.old ≡ own }
    ensures number { row.new.number ≡ row.old.number }
    ensures label { row.new.label ≡ row.old.label }
    ensures after { IfOk result
        (λ _. AreSettled (insert (left_rows gone store.now.rows) at row.new) moves.new) }
    ensures touched { IfOk result
        (AreTouched (labels_in (insert (left_rows gone store.now.rows) at row.new)) at true) }
    ensures kept { IfOk result (λ _. (own : Slot) → slot_for row.new.number own moves.new ≡ own) }
    ensures few { IfOk result (λ n. n ≤ most_labels) }
    ensures spent { IfOk result (λ n. steps.new ≡ steps.old + n) }
{
    own_slots();
    carried();
    settle_coming(alloc, store, gone, row, at, moves, steps)?;
    let roster = Roster::with(store, gone, row, at);
    repair(alloc, &roster, moves, at, true, steps)
}
