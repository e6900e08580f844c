//! What edits change of labels.
ghost use Rattle.std.specs.Prelude.{◌≡◌, ◌⊎◌, ◌↔◌, Some, Contains, IfOk, IfSome, map};
ghost use Rattle.std.specs.List.Sorted.{IsStrictlySortedBy};
ghost use Rattle.std.specs.Cmp.Lexicographic.{slice_cmp};
ghost use Rattle.std.specs.Ordering.{nat_cmp};
ghost use Rattle.ml_cone.specs.Label.{IsLabelList};
ghost use Rattle.ml_store.specs.Rows.{labels_in, HasId};
ghost use Rattle.ml_watch.specs.declared.change.Change.{Change};
ghost use Rattle.ml_watch.specs.ById.{HaveOwnIds};
ghost use Rattle.ml_repair.specs.Stays.{IsStayChange, IsPushedFor, IsJoinedBy};

use crate::moves::Moves;
use crate::repair::differs;
use crate::roster::Roster;
use ml_cone::{Slot, Span};
use ml_ratio::Seq;
use ml_store::Row;
use ml_watch::{Change, by_id};
use std::alloc::{AllocError, Global};

// Appends the change of a label that gets a slot, if its end is another one.
fn push_moved(row: &Row, slot: Slot, out: &mut Vec<Change>) -> Result<(), AllocError>
    ensures { IfOk result (λ _. IsPushedFor row.now slot out.old.items out.new.items) }
{
    if differs(row.slot.until, slot.until) {
        let min = row.label.min();
        let id = row.label.id().copy()?;
        out.push(Change {
            id,
            before: Some(Span {
                min,
                until: row.slot.until,
            }),
            after: Some(Span {
                min,
                until: slot.until,
            }),
        })?;
    }
    Ok(())
}

// The changes of the labels that stay, in no order.
fn stay_changes(
    alloc: Global,
    roster: &Roster<'_>,
    moves: &Moves,
) -> Result<Vec<Change>, AllocError>
    requires { IsLabelList (labels_in roster.now) }
    ensures are { IfOk result
        (λ changes. (c : Change) → Contains changes.items c ↔ IsStayChange roster.now moves.now c) }
    ensures own { IfOk result (λ changes. HaveOwnIds changes.items) }
{
    let moved = moves.as_slice();
    let mut out = Vec::new(alloc);
    for m in moved {
        match roster.place_of(m.number) {
            Some(at) => push_moved(roster.row(at), m.slot, &mut out)?,
            None => {}
        }
    }
    Ok(out)
}

// Appends the change of the edited label, if there is one.
fn push_edited(edited: Option<Change>, out: &mut Vec<Change>) -> Result<(), AllocError>
    ensures { IfOk result (λ _. IsJoinedBy edited out.old.items out.new.items) }
{
    match edited {
        Some(change) => {
            out.push(change)?;
            Ok(())
        }
        None => Ok(()),
    }
}

/// The changes of an edit in byte order of ids: those of the labels that stay, and that of the edited
/// one, if it has one.
///
/// # Errors
/// Out of memory.
pub fn edit_changes(
    alloc: Global,
    roster: &Roster<'_>,
    moves: &Moves,
    edited: Option<Change>,
) -> Result<Seq<Change>, AllocError>
    requires up { IsLabelList (labels_in roster.now) }
    requires own { IfSome edited (λ change. ¬ (HasId (labels_in roster.now) change.id)) }
    ensures same { IfOk result (λ changes. (c : Change) →
        Contains changes c ↔ (IsStayChange roster.now moves.now c ⊎ (edited ≡ Some c))) }
    ensures ascending { IfOk result
        (λ changes. IsStrictlySortedBy (slice_cmp nat_cmp) (map (λ change. change.id) changes)) }
{
    let mut changes = stay_changes(alloc, roster, moves)?;
    push_edited(edited, &mut changes)?;
    Ok(by_id(changes))
}
