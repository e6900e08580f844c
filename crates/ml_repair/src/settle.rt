//! The slot of one label.
ghost use Rattle.std.specs.Prelude.{ℕ, ◌≡◌, ◌+◌, ◌<◌, true, List, length, IfOk, slice_index_or};
ghost use Rattle.ml_cone.specs.Choice.{IsEnd};
ghost use Rattle.ml_cone.specs.Slots.{ends};
ghost use Rattle.ml_cone.specs.declared.label.Label.{Label};
ghost use Rattle.ml_store.specs.Rows.{number_at, labels_in};
ghost use Rattle.ml_repair.specs.Repair.{Stands, AreLeaving, present_slots};

use crate::chosen::Chosen;
use crate::gather::gather;
use crate::moves::Moves;
use crate::roster::Roster;
use crate::sought::{Edited, Sought};
use ml_cone::laws::{bound_overlaps, rivals_overlap};
use ml_cone::{Site, Slot};
use ml_conflict::evaluate;
use ml_conflict::laws::{allowed_up_to, blocking, carried, joined, rivals_or_free, smaller_ends};
use ml_ratio::Steps;
use std::alloc::{AllocError, Global};
use std::sync::ledger::Ledger;

/// The slot that the labels before `i` leave the label there, with their present ends. Whether many of these
/// have new slots is told, for the sake of time alone. It spends one step.
///
/// # Errors
/// Out of memory.
pub fn settle<L: Ledger>(
    alloc: Global,
    roster: &Roster<'_>,
    moves: &Moves,
    edited: Edited,
    many: bool,
    i: usize,
    steps: &mut Steps<L>,
) -> Result<Slot, AllocError>
    requires is_place { i < length roster.now }
    requires ends { (d : Label) (j : ℕ) → Stands edited.comes true edited.at i j → IsEnd
        (slice_index_or (labels_in roster.now) j d) (ends (present_slots roster.now moves.now) j) }
    ensures own { IfOk result (AreLeaving roster.now moves.now edited.at edited.comes i) }
    ensures spent { IfOk result (λ _. steps.new ≡ steps.old + 1) }
{
    carried();
    joined();
    smaller_ends();
    allowed_up_to();
    rivals_or_free();
    blocking();
    rivals_overlap();
    bound_overlaps();
    let row = roster.row(i);
    let low = &row.label;
    let sought = Sought {
        roster,
        moves,
        low,
        site: Site::of(low),
        edited,
        many,
        place: i,
    };
    let places = gather(alloc, &sought)?;
    let chosen = Chosen {
        low,
        roster,
        moves,
        places: &places,
    };
    Ok(evaluate(low, &chosen, steps))
}
