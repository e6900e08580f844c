//! New slots after one label comes or goes.
ghost use Rattle.std.specs.Prelude.{ℕ, ◌≡◌, ◌≢◌, ◌+◌, ◌<◌, ◌≤◌, ◌⊎◌, ◌↔◌, ◌++◌, ◌∷◌, [], true, false, IsTrue, List, length, Contains, IfOk, MatchBool, slice_index_or, if◌then◌else◌};
ghost use Rattle.ml_ratio.specs.Limits.{most_labels};
ghost use Rattle.ml_ratio.specs.Fraction.{value_of, IsSame};
ghost use Rattle.ml_cone.specs.Choice.{IsEnd};
ghost use Rattle.ml_cone.specs.Slots.{ends};
ghost use Rattle.ml_cone.specs.declared.label.Label.{Label};
ghost use Rattle.ml_cone.specs.declared.slot.Slot.{Slot};
ghost use Rattle.ml_store.specs.Rows.{number_at, labels_in};
ghost use Rattle.ml_repair.specs.Kept.{IsOwnBefore};
ghost use Rattle.ml_repair.specs.Plan.{slot_for};
ghost use Rattle.ml_repair.specs.Repair.{Stands, AreOwn, AreLeaving, IsMovedAt, present_slots, present_at};
ghost use Rattle.ml_repair.specs.Size.{IsSize};
ghost use Rattle.ml_repair.specs.Touched.{IsTouched, IsRivalBefore};

use crate::chosen::present_slot;
use crate::kept::settle_again;
use crate::moves::Moves;
use crate::roster::Roster;
use crate::sought::Edited;
use crate::waiting::Waiting;
use crate::wake::{wake, wake_more};
use ml_cone::Slot;
use ml_conflict::laws::{carried, rivals_or_free, smaller_ends};
use ml_ratio::{Ratio, Steps};
use ml_store::same_slots;
use std::alloc::{AllocError, Global};
use std::sync::ledger::Ledger;

/// Whether two ends differ.
pub fn differs(a: Ratio, b: Ratio) -> bool
    ensures { MatchBool result (¬ (IsSame (value_of a) (value_of b)))
        (IsSame (value_of a) (value_of b)) }
{
    a.num() * b.den() != b.num() * a.den()
}

// The label at a place gets another slot.
fn put_slot(roster: &Roster<'_>, moves: &mut Moves, i: usize, slot: Slot) -> Result<(), AllocError>
    requires { i < length roster.now }
    ensures { IfOk result (λ _. IsMovedAt roster.now i slot moves.old moves.new) }
{
    let row = roster.row(i);
    moves.put(row.number, slot)
}

// The label at `i` gets the slot that those before it leave, if that is another one; whether its end is another
// one than before. It spends one step.
fn renew<L: Ledger>(
    alloc: Global,
    roster: &Roster<'_>,
    moves: &mut Moves,
    changed: &[u32],
    edited: Edited,
    i: usize,
    steps: &mut Steps<L>,
) -> Result<bool, AllocError>
    requires is_place { i < length roster.now }
    requires ends { (d : Label) (j : ℕ) → Stands edited.comes true edited.at i j → IsEnd
        (slice_index_or (labels_in roster.now) j d) (ends (present_slots roster.now moves.old) j) }
    requires known { IsOwnBefore roster.now moves.old edited.at edited.comes changed.now i }
    ensures own { IfOk result (λ _. AreLeaving roster.now moves.old edited.at edited.comes i
        (present_at roster.now moves.new i)) }
    ensures others { IfOk result (λ _.
        (k : ℕ) → k ≢ i → present_at roster.now moves.new k ≡ present_at roster.now moves.old k) }
    ensures same { IfOk result (λ _. (n : ℕ) (own : Slot) → n ≢ number_at roster.now i →
        slot_for n own moves.new ≡ slot_for n own moves.old) }
    ensures moved { IfOk result (λ moved. MatchBool moved
        (¬ (IsSame (ends (present_slots roster.now moves.old) i)
        (ends (present_slots roster.now moves.new) i)))
        (IsSame (ends (present_slots roster.now moves.old) i)
        (ends (present_slots roster.now moves.new) i))) }
    ensures spent { IfOk result (λ _. steps.new ≡ steps.old + 1) }
{
    let old = present_slot(roster, moves, i);
    let slot = settle_again(alloc, roster, moves, changed, edited, i, steps)?;
    if same_slots(&old, &slot) {
        Ok(false)
    } else {
        put_slot(roster, moves, i, slot)?;
        Ok(differs(old.until, slot.until))
    }
}

// The places whose labels have other ends before any is evaluated: that of the edited label, where it comes.
fn first_changed(alloc: Global, at: usize, comes: bool) -> Result<Vec<u32>, AllocError>
    requires { at < most_labels }
    ensures { IfOk result
        (λ places. (p : ℕ) → Contains places.items p ↔ ((p ≡ at) × (comes ≡ true))) }
{
    let mut places = Vec::new(alloc);
    if comes {
        places.push(at as u32)?;
    }
    Ok(places)
}

// Where more labels than these have woken their rivals, it pays to search for those of the next in small cells.
const FEW_WOKE: usize = 8;

// The label at `i` has another end: its later rivals wait, and its place is noted.
fn note(
    alloc: Global,
    roster: &Roster<'_>,
    i: usize,
    waiting: &mut Waiting,
    changed: &mut Vec<u32>,
) -> Result<(), AllocError>
    requires one_each { length waiting.old ≡ length roster.now }
    requires is_place { i < length roster.now }
    requires low { i < most_labels }
    ensures one_each { IfOk result (λ _. length waiting.new ≡ length roster.now) }
    ensures woken { IfOk result (λ _. (k : ℕ) → k < length roster.now →
        IsTrue (slice_index_or waiting.new k false) ↔ (IsTrue
        (slice_index_or waiting.old k false) ⊎ IsRivalBefore (labels_in roster.now) i k)) }
    ensures noted { IfOk result (λ _. changed.new.items ≡ changed.old.items ++ i ∷ []) }
{
    wake_more(alloc, roster, changed.len() > FEW_WOKE, i, waiting)?;
    changed.push(i as u32)?;
    Ok(())
}

/// The new slots after the label at `at` comes or goes, and how many labels that touches: of the others
/// just these are evaluated, each once. A label that comes has its slot already.
///
/// # Errors
/// Out of memory.
pub fn repair<L: Ledger>(
    alloc: Global,
    roster: &Roster<'_>,
    moves: &mut Moves,
    at: usize,
    comes: bool,
    steps: &mut Steps<L>,
) -> Result<u32, AllocError>
    requires is_place { at < length roster.now }
    requires was { AreOwn (number_at roster.now) (labels_in roster.now)
        (present_slots roster.now moves.old) at comes false }
    requires here { comes ≡ true →
        AreLeaving roster.now moves.old at comes at (present_at roster.now moves.old at) }
    ensures own { IfOk result (λ _. AreOwn (number_at roster.now)
        (labels_in roster.now) (present_slots roster.now moves.new) at comes true) }
    ensures kept { IfOk result (λ _. (own : Slot) → slot_for (number_at roster.now at) own moves.new
        ≡ slot_for (number_at roster.now at) own moves.old) }
    ensures touched { IfOk result (IsSize (IsTouched (labels_in roster.now) at comes
        (ends (present_slots roster.now moves.old)) (ends (present_slots roster.now moves.new)))) }
    ensures few { IfOk result (λ n. n ≤ length roster.now) }
    ensures spent { IfOk result (λ n. steps.new + (if comes then 1 else 0) ≡ steps.old + n) }
{
    carried();
    smaller_ends();
    rivals_or_free();
    let many = roster.len();
    let edited = Edited { at, comes };
    let mut waiting = Waiting::none(alloc, many)?;
    let mut changed = first_changed(alloc, at, comes)?;
    wake(alloc, roster, at, &mut waiting)?;
    let mut evaluated = if comes { 1 } else { 0 };
    let mut i = at + 1;
    while i < many {
        if waiting.has(i) {
            if renew(alloc, roster, moves, &changed, edited, i, steps)? {
                note(alloc, roster, i, &mut waiting, &mut changed)?;
            }
            evaluated += 1;
            i += 1;
        } else {
            i = waiting.next(i);
        }
    }
    Ok(evaluated)
}
