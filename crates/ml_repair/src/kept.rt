//! The slot of a label whose blocker stands as it did.
ghost use Rattle.std.specs.Prelude.{ℕ, ◌≡◌, ◌+◌, ◌<◌, ◌⊎◌, ◌↔◌, true, Some, List, length, All, Contains, IfOk, IfSome, MatchBool, slice_index_or};
ghost use Rattle.std.specs.List.Sorted.{IsStrictlyIncreasing};
ghost use Rattle.ml_ratio.specs.Limits.{most_labels};
ghost use Rattle.ml_cone.specs.Choice.{IsEnd};
ghost use Rattle.ml_cone.specs.Slots.{ends};
ghost use Rattle.ml_cone.specs.declared.label.Label.{Label};
ghost use Rattle.ml_store.specs.Rows.{labels_in};
ghost use Rattle.ml_repair.specs.Repair.{Stands, AreLeaving, present_slots};
ghost use Rattle.ml_repair.specs.Kept.{IsOwnBefore, IsStaying, IsLeftBy};

use crate::chosen::{Chosen, present_slot};
use crate::moves::Moves;
use crate::roster::Roster;
use crate::settle::settle;
use crate::sought::Edited;
use ml_cone::Slot;
use ml_conflict::evaluate;
use ml_conflict::laws::{same_limits, smaller_ends};
use ml_ratio::{Seq, Steps, ascending};
use std::alloc::{AllocError, Global};
use std::sync::ledger::Ledger;

// Where more labels than these have other ends, a search near a label finds fewer than all of them.
const FEW_CHANGED: usize = 64;

// Whether the place is among the places.
fn has(places: &[u32], place: usize) -> bool
    ensures { MatchBool result (Contains places.now place) (¬ (Contains places.now place)) }
{
    for p in places {
        if *p as usize == place {
            return true;
        }
    }
    false
}

// The place of the label with the number, where it stands before `i` as it did: it is not the edited one, and
// its end is none of those that changed.
fn staying(
    roster: &Roster<'_>,
    changed: &[u32],
    edited: Edited,
    i: usize,
    number: u32,
) -> Option<usize>
    ensures { IfSome result (IsStaying roster.now changed.now edited.at i number) }
{
    match roster.place_of(number) {
        Some(b) => {
            if b < i && b != edited.at && !has(changed, b) {
                Some(b)
            } else {
                None
            }
        }
        None => None,
    }
}

// The places and one more, if one is given, in no order.
fn given_places(
    alloc: Global,
    changed: &[u32],
    blocker: Option<usize>,
) -> Result<Vec<u32>, AllocError>
    requires { IfSome blocker (λ b. b < most_labels) }
    ensures { IfOk result (λ places.
        (p : ℕ) → Contains places.items p ↔ (Contains changed.now p ⊎ (blocker ≡ Some p))) }
{
    let mut places = changed.to_vec(alloc)?;
    match blocker {
        Some(b) => {
            places.push(b as u32)?;
            Ok(places)
        }
        None => Ok(places),
    }
}

// The places with one more, if one is given, ascending.
fn places_with(
    alloc: Global,
    changed: &[u32],
    blocker: Option<usize>,
) -> Result<Vec<u32>, AllocError>
    requires { IfSome blocker (λ b. b < most_labels) }
    ensures ascending { IfOk result (λ places. IsStrictlyIncreasing places.items) }
    ensures same { IfOk result (λ places.
        (p : ℕ) → Contains places.items p ↔ (Contains changed.now p ⊎ (blocker ≡ Some p))) }
{
    let places = given_places(alloc, changed, blocker)?;
    Ok(ascending(Seq::of_vec(places)))
}

// The slot that the labels at the places and the blocker leave the label at `i`. It spends one step.
fn settle_among<L: Ledger>(
    alloc: Global,
    roster: &Roster<'_>,
    moves: &Moves,
    changed: &[u32],
    blocker: Option<usize>,
    i: usize,
    steps: &mut Steps<L>,
) -> Result<Slot, AllocError>
    requires is_place { i < length roster.now }
    requires within { All (λ p. p < length roster.now) changed.now }
    requires blocker { IfSome blocker (λ b. b < length roster.now) }
    ensures left { IfOk result
        (IsLeftBy roster.now moves.now i (λ p. Contains changed.now p ⊎ (blocker ≡ Some p))) }
    ensures spent { IfOk result (λ _. steps.new ≡ steps.old + 1) }
{
    let row = roster.row(i);
    let low = &row.label;
    let places = places_with(alloc, changed, blocker)?;
    let chosen = Chosen {
        low,
        roster,
        moves,
        places: &places,
    };
    Ok(evaluate(low, &chosen, steps))
}

/// The slot that the labels before `i` leave the label there, once those at the places `changed` have other
/// ends than when they left it its present slot. Where these are few, and its blocker stands as it did, or it has
/// none, that one and those are enough. It spends one step.
///
/// # Errors
/// Out of memory.
pub fn settle_again<L: Ledger>(
    alloc: Global,
    roster: &Roster<'_>,
    moves: &Moves,
    changed: &[u32],
    edited: Edited,
    i: usize,
    steps: &mut Steps<L>,
) -> Result<Slot, AllocError>
    requires is_place { i < length roster.now }
    requires ends { (d : Label) (j : ℕ) → Stands edited.comes true edited.at i j → IsEnd
        (slice_index_or (labels_in roster.now) j d) (ends (present_slots roster.now moves.now) j) }
    requires known { IsOwnBefore roster.now moves.now edited.at edited.comes changed.now i }
    ensures own { IfOk result (AreLeaving roster.now moves.now edited.at edited.comes i) }
    ensures spent { IfOk result (λ _. steps.new ≡ steps.old + 1) }
{
    smaller_ends();
    same_limits();
    if changed.len() > FEW_CHANGED {
        return settle(alloc, roster, moves, edited, true, i, steps);
    }
    let old = present_slot(roster, moves, i);
    match old.blocker {
        None => settle_among(alloc, roster, moves, changed, None, i, steps),
        Some(number) => match staying(roster, changed, edited, i, number) {
            Some(b) => settle_among(alloc, roster, moves, changed, Some(b), i, steps),
            None => settle(alloc, roster, moves, edited, false, i, steps),
        },
    }
}
