//! What a view shows.
ghost use Rattle.std.specs.Prelude.{ℕ, ◌≡◌, ◌+◌, ◌⊎◌, ◌↔◌, IsTrue, Contains, IfOk, All};
ghost use Rattle.ml_ratio.specs.Fraction.{value_of};
ghost use Rattle.ml_cone.specs.Choice.{ActiveUntil};
ghost use Rattle.ml_cone.specs.Shown.{IsInView, IsShown};
ghost use Rattle.ml_cone.specs.Slots.{ends};
ghost use Rattle.ml_store.specs.Rows.{labels_in, slots_in, IsLive};
ghost use Rattle.ml_store.specs.Table.{IsRowAt};
ghost use Rattle.ml_repair.specs.Settled.{IsSettled};
ghost use Rattle.ml_repair.specs.Shown.{AreShownNumbers, AreApart, AreNear, IsShownIn};

use crate::read::numbers_of;
use ml_cone::{Span, View, active, meets};
use ml_ratio::{Seq, Steps, ascending};
use ml_store::{Row, Store};
use std::alloc::{AllocError, Global};
use std::sync::ledger::Ledger;

// Whether the row's label is shown.
fn is_shown(row: &Row, view: &View) -> bool
    ensures { IsTrue result ↔ (ActiveUntil row.now.label (value_of row.now.slot.until)
        (value_of view.now.scale) × IsInView row.now.label view.now) }
{
    let span = Span {
        min: row.label.min(),
        until: row.slot.until,
    };
    active(&span, &view.scale) && meets(&row.label, view)
}

// Appends the place of the number, if its label is shown.
fn push_shown(
    store: &Store,
    number: u32,
    view: &View,
    places: &mut Seq<u32>,
) -> Result<(), AllocError>
    ensures { IfOk result (λ _. (p : ℕ) → Contains places.new p ↔ (Contains places.old p
        ⊎ (IsRowAt store.now.rows number p × IsShownIn store.now.rows view.now p))) }
{
    match store.place_of(number) {
        Some(at) => {
            if is_shown(store.row(at), view) {
                places.push(at as u32)?;
            }
        }
        None => {}
    }
    Ok(())
}

// The places of those of the numbers whose labels are shown.
fn shown_among(
    alloc: Global,
    store: &Store,
    numbers: &[u32],
    view: &View,
) -> Result<Seq<u32>, AllocError>
    ensures { IfOk result (λ places. (p : ℕ) → Contains places p ↔ ((n : ℕ) × Contains numbers.now n
        × IsRowAt store.now.rows n p × IsShownIn store.now.rows view.now p)) }
{
    let mut places = Seq::new(alloc);
    for number in numbers {
        push_shown(store, *number, view, &mut places)?;
    }
    Ok(places)
}

/// The numbers of the labels that the view shows, in priority order. It spends a step for each label
/// near the view.
///
/// # Errors
/// Out of memory.
pub fn shown_numbers<L: Ledger>(
    alloc: Global,
    store: &Store,
    view: &View,
    looks: &mut Steps<L>,
) -> Result<Seq<u32>, AllocError>
    requires { IsSettled store.now.rows }
    ensures shown { IfOk result (AreShownNumbers store.now.rows view.now) }
    ensures live { IfOk result (λ numbers. All (IsLive store.now.rows) numbers) }
    ensures apart { IfOk result (AreApart store.now.rows view.now) }
    ensures looks { IfOk result (λ _. (n : ℕ) × AreNear (labels_in store.now.rows)
        (slots_in store.now.rows) view.now n × (looks.new ≡ looks.old + n)) }
{
    let near = store.seen(alloc, view, looks)?;
    let places = ascending(shown_among(alloc, store, near.as_slice(), view)?);
    numbers_of(alloc, store, &places)
}
