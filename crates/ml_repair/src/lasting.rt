//! The new slots that an edit leaves.
//!
//! A label that another one comes for in its place may push its rivals back to the slots that they had. Such
//! slots are no new ones, and writing them would cost time and room.
ghost use Rattle.std.specs.Prelude.{◌≡◌, ◌≤◌, length, Contains, IfOk, MatchBool};
ghost use Rattle.ml_ratio.specs.Limits.{most_labels};
ghost use Rattle.ml_store.specs.declared.row.Row.{Row};
ghost use Rattle.ml_repair.specs.Plan.{moved_rows, IsNewIn, AreNewIn};

use crate::moves::Moves;
use crate::roster::Roster;
use ml_store::{Moved, same_slots};
use std::alloc::{AllocError, Global};

// Whether the slot is another one than that of the label with its number.
fn is_new(roster: &Roster<'_>, m: &Moved) -> bool
    ensures { MatchBool result (IsNewIn roster.now m.now)
        ((r : Row) → Contains roster.now r → r.number ≡ m.now.number → r.slot ≡ m.now.slot) }
{
    match roster.place_of(m.number) {
        Some(at) => !same_slots(&roster.row(at).slot, &m.slot),
        None => false,
    }
}

/// Those of the new slots that are others than the labels of the roster have.
///
/// # Errors
/// Out of memory.
pub fn lasting_slots(
    alloc: Global,
    roster: &Roster<'_>,
    moves: &Moves,
) -> Result<Vec<Moved>, AllocError>
    ensures rows { IfOk result
        (λ moved. moved_rows moved.items roster.now ≡ moved_rows moves.now roster.now) }
    ensures new { IfOk result (λ moved. AreNewIn roster.now moved.items) }
    ensures few { IfOk result (λ moved. length moved.items ≤ most_labels) }
{
    let moved = moves.as_slice();
    let mut lasting = Vec::new(alloc);
    for m in moved {
        if is_new(roster, m) {
            lasting.push(*m)?;
        }
    }
    Ok(lasting)
}
