//! How plans are made.
ghost use Rattle.std.specs.Prelude.{ℕ, ◌≡◌, ◌+◌, ◌<◌, Some, None, List, length, IfOk, slice_index_or};
ghost use Rattle.ml_ratio.specs.Limits.{most_labels};
ghost use Rattle.ml_cone.specs.declared.label.Label.{Label};
ghost use Rattle.ml_store.specs.Rows.{labels_in, slots_in, HasId};
ghost use Rattle.ml_store.specs.declared.row.Row.{Row};
ghost use Rattle.ml_repair.specs.Plan.{IsPlanFor};
ghost use Rattle.ml_repair.specs.Settled.{IsSettled};
ghost use Rattle.ml_repair.specs.Stays.{IsChangeBetween};

use crate::changes::edit_changes;
use crate::edit::LabelEdit;
use crate::lasting::lasting_slots;
use crate::moves::Moves;
use crate::pass::{pass_in, pass_out};
use crate::place::place_for;
use crate::plan::Plan;
use crate::repair::differs;
use crate::roster::Roster;
use ml_cone::{Label, Slot, Span, same_labels};
use ml_ratio::{Steps, Text};
use ml_store::{Row, Store};
use ml_watch::Change;
use std::alloc::{AllocError, Global};
use std::sync::ledger::Ledger;

/// The place of the label with this id, which is live.
pub fn place_of_id(store: &Store, id: &Text) -> usize
    requires { HasId (labels_in store.now.rows) id.now }
    ensures place { result < length store.now.rows }
    ensures here { (d : Row) → (slice_index_or store.now.rows result d).label.order.id ≡ id.now }
{
    match store.number_of(id) {
        Some(number) => match store.place_of(number) {
            Some(at) => at,
            None => unreachable!(),
        },
        None => unreachable!(),
    }
}

// The active range of a row's label.
fn span_of(row: &Row) -> Span
    ensures min { result.min ≡ row.now.label.min }
    ensures until { result.until ≡ row.now.slot.until }
{
    Span {
        min: row.label.min(),
        until: row.slot.until,
    }
}

/// A row for a label that is to come, with a slot that stands for the one to be found.
pub fn row_for(number: u32, label: Label) -> Row
    ensures number { result.number ≡ number }
    ensures label { result.label ≡ label }
{
    let until = label.min();
    Row {
        number,
        label,
        slot: Slot {
            until,
            blocker: None,
        },
    }
}

// The change of a label that another one comes for, if the two differ or have other ends.
fn change_between(old: &Row, new: &Row) -> Result<Option<Change>, AllocError>
    requires { old.now.label.order.id ≡ new.now.label.order.id }
    ensures { IfOk result (IsChangeBetween old.now new.now) }
{
    if !differs(old.slot.until, new.slot.until) && same_labels(&old.label, &new.label) {
        return Ok(None);
    }
    let id = new.label.id().copy()?;
    Ok(Some(Change {
        id,
        before: Some(span_of(old)),
        after: Some(span_of(new)),
    }))
}

/// A plan for the coming of a label with a new id.
///
/// # Errors
/// Out of memory.
pub fn plan_in<L: Ledger>(
    alloc: Global,
    store: &Store,
    label: Label,
    steps: &mut Steps<L>,
) -> Result<Plan, AllocError>
    requires settled { IsSettled store.now.rows }
    requires new_id { ¬ (HasId (labels_in store.now.rows) label.order.id) }
    requires few { length store.now.rows < most_labels }
    ensures { IfOk result
        (λ plan. IsPlanFor plan store.now.rows label.order.id (Some label) steps.old steps.new) }
{
    let number = store.free();
    let roster = Roster::left(store, None);
    let at = place_for(&roster, label.order());
    let mut row = row_for(number, label);
    let mut moves = Moves::new(alloc);
    let evaluated = pass_in(alloc, store, None, &mut row, at, &mut moves, steps)?;
    let edited = Change {
        id: row.label.id().copy()?,
        before: None,
        after: Some(span_of(&row)),
    };
    let changes = edit_changes(alloc, &roster, &moves, Some(edited))?;
    let moved = lasting_slots(alloc, &roster, &moves)?;
    let row = Box::new(alloc, row)?;
    Ok(Plan {
        edit: LabelEdit::Add(row),
        moved,
        changes,
        evaluated,
    })
}

/// A plan for the going of the label with this id, which is live.
///
/// # Errors
/// Out of memory.
pub fn plan_out<L: Ledger>(
    alloc: Global,
    store: &Store,
    id: &Text,
    steps: &mut Steps<L>,
) -> Result<Plan, AllocError>
    requires settled { IsSettled store.now.rows }
    requires live { HasId (labels_in store.now.rows) id.now }
    ensures { IfOk result (λ plan. IsPlanFor plan store.now.rows id.now None steps.old steps.new) }
{
    let at = place_of_id(store, id);
    let mut moves = Moves::new(alloc);
    let evaluated = pass_out(alloc, store, at, &mut moves, steps)?;
    let edited = Change {
        id: id.copy()?,
        before: Some(span_of(store.row(at))),
        after: None,
    };
    let roster = Roster::left(store, Some(at));
    let changes = edit_changes(alloc, &roster, &moves, Some(edited))?;
    let moved = lasting_slots(alloc, &roster, &moves)?;
    let id = id.copy()?;
    Ok(Plan {
        edit: LabelEdit::Remove(id),
        moved,
        changes,
        evaluated,
    })
}

/// A plan for the coming of a label in place of that with its id, which is live.
///
/// # Errors
/// Out of memory.
pub fn plan_instead<L: Ledger>(
    alloc: Global,
    store: &Store,
    label: Label,
    steps: &mut Steps<L>,
) -> Result<Plan, AllocError>
    requires settled { IsSettled store.now.rows }
    requires live { HasId (labels_in store.now.rows) label.order.id }
    ensures { IfOk result
        (λ plan. IsPlanFor plan store.now.rows label.order.id (Some label) steps.old steps.new) }
{
    let at = place_of_id(store, label.id());
    let mut moves = Moves::new(alloc);
    let gone = pass_out(alloc, store, at, &mut moves, steps)?;
    let old = store.row(at);
    let roster = Roster::left(store, Some(at));
    let to = place_for(&roster, label.order());
    let mut row = row_for(old.number, label);
    let come = pass_in(alloc, store, Some(at), &mut row, to, &mut moves, steps)?;
    let edited = change_between(old, &row)?;
    let changes = edit_changes(alloc, &roster, &moves, edited)?;
    let moved = lasting_slots(alloc, &roster, &moves)?;
    let row = Box::new(alloc, row)?;
    Ok(Plan {
        edit: LabelEdit::Replace(row),
        moved,
        changes,
        evaluated: gone + come,
    })
}
