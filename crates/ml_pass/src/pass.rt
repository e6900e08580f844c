//! The choice in one pass over the labels.
ghost use Rattle.std.specs.Prelude.{ℕ, ◌≡◌, ◌+◌, ◌≤◌, ◌<◌, ◌⊎◌, [], length, slice_index_or, IfOk, OnOk, All};
ghost use Rattle.ml_ratio.specs.Limits.{most_labels};
ghost use Rattle.ml_cone.specs.Slots.{AreSlots, IsOwnSlot};
ghost use Rattle.ml_ratio.specs.Fraction.{value_of, IsAtMost};
ghost use Rattle.ml_cone.specs.declared.label.Label.{Label as ALabel};
ghost use Rattle.ml_conflict.specs.Field.{IsSpotOf};
ghost use Rattle.ml_conflict.specs.Strip.{AreStrips, AreBlocks, HasPlace};
ghost use Rattle.ml_pass.specs.Search.{rivals_in, AreHeld};
ghost use Rattle.ml_pass.specs.SlotsText.{IsBlockerPlace};

use crate::found::Found;
use crate::search::Search;
use ml_cone::{Label, Slot};
use ml_conflict::laws::{enough, own_slots, same_rivals};
use ml_conflict::{Area, Field, Spot, evaluate, spot_of};
use ml_ratio::{Seq, Steps};
use std::alloc::{AllocError, Global};
use std::marker::Brand;
use std::sync::ledger::{Blank, Ledger};

/// The lexicographically longest conflict-free choice in the order of the labels, and each label's
/// blocker; a blocker is given by its place, so each is one.
///
/// It evaluates each label once, among those before it that are near.
///
/// # Errors
/// Out of memory.
pub fn assign(alloc: Global, labels: &[Label]) -> Result<Seq<Slot>, AllocError>
    requires { length labels.now ≤ most_labels }
    ensures slots { IfOk result (λ slots. AreSlots (λ j. j) labels.now slots) }
    ensures placed { IfOk result
        (λ slots. All (λ slot. IsBlockerPlace labels.now slot.blocker) slots) }
{
    assign_counted::<Brand>(alloc, labels, Blank::new(1))
}

// The same, with a counter of its own.
fn assign_counted<L: Ledger>(
    alloc: Global,
    labels: &[Label],
    blank: Blank,
) -> Result<Seq<Slot>, AllocError>
    requires few { length labels.now ≤ most_labels }
    requires name { blank.name ≡ L.name }
    requires parts { blank.parts ≡ L.parts }
    requires some { 0 < blank.parts }
    ensures slots { IfOk result (λ slots. AreSlots (λ j. j) labels.now slots) }
    ensures placed { IfOk result
        (λ slots. All (λ slot. IsBlockerPlace labels.now slot.blocker) slots) }
{
    let mut steps: Steps<L> = Steps::new(blank);
    choose(alloc, labels, &mut steps)
}

// The same; it spends one step for each label.
fn choose<L: Ledger>(
    alloc: Global,
    labels: &[Label],
    steps: &mut Steps<L>,
) -> Result<Seq<Slot>, AllocError>
    requires { length labels.now ≤ most_labels }
    ensures slots { IfOk result (λ slots. AreSlots (λ j. j) labels.now slots) }
    ensures placed { IfOk result
        (λ slots. All (λ slot. IsBlockerPlace labels.now slot.blocker) slots) }
    ensures spent { OnOk result (steps.new ≡ steps.old + length labels.now) }
{
    same_rivals();
    own_slots();
    let mut field = Field::of(alloc, labels)?;
    let mut slots = Vec::with_capacity(alloc, labels.len())?;
    let mut places = Vec::new(alloc);
    for i in 0..labels.len() {
        let low = &labels[i];
        let spot = spot_of(labels, i);
        let search = Search {
            low,
            site: spot.site,
            area: Area::of(low),
            labels,
            slots: &slots,
        };
        let slot = slot_of(&search, &field, &mut places, steps)?;
        stand(&mut field, labels, spot, &slot)?;
        slots.push(slot)?;
    }
    Ok(Seq::of_vec(slots))
}

// Puts the label of the spot, with this slot, into the field, unless the slot is empty: then it sets nobody a limit.
fn stand(field: &mut Field, labels: &[Label], spot: Spot, slot: &Slot) -> Result<(), AllocError>
    requires some { 0 < length field.old.strips.items }
    requires strips { AreStrips labels.now field.old.strips.items }
    requires blocks { AreBlocks field.old.strips.items field.old.blocks.items }
    requires spot { IsSpotOf labels.now spot }
    ensures many { length field.new.strips.items ≡ length field.old.strips.items }
    ensures strips { OnOk result (AreStrips labels.now field.new.strips.items) }
    ensures blocks { OnOk result (AreBlocks field.new.strips.items field.new.blocks.items) }
    ensures kept { OnOk result
        ((j : ℕ) → HasPlace field.old.strips.items j → HasPlace field.new.strips.items j) }
    ensures here { OnOk result (HasPlace field.new.strips.items spot.place ⊎
        ((d : ALabel) → IsAtMost (value_of slot.now.until)
        (value_of (slice_index_or labels.now spot.place d).min))) }
{
    if labels[spot.place as usize].min().is_less(&slot.until) {
        return field.put(labels, spot);
    }
    Ok(())
}

// The label's slot among all that have one, with the memory of the places of another label.
fn slot_of<L: Ledger>(
    search: &Search<'_>,
    field: &Field,
    places: &mut Vec<u32>,
    steps: &mut Steps<L>,
) -> Result<Slot, AllocError>
    requires some { 0 < length field.now.strips.items }
    requires strips { AreStrips search.now.labels.now field.now.strips.items }
    requires blocks { AreBlocks field.now.strips.items field.now.blocks.items }
    requires held { AreHeld search.now.labels.now search.now.slots.now field.now.strips.items }
    requires empty { places.old.items ≡ [] }
    ensures own { IfOk result
        (λ slot. IsOwnSlot (rivals_in search.now.labels.now search.now.slots.now search.now.low.now)
        (λ j. j < length search.now.slots.now) search.now.low.now slot) }
    ensures cleared { OnOk result (places.new.items ≡ []) }
    ensures spent { OnOk result (steps.new ≡ steps.old + 1) }
{
    enough();
    search.gather(field, places)?;
    places.sort_unstable();
    let found = Found {
        search: *search,
        places: places.as_slice(),
    };
    let slot = evaluate(search.low, &found, steps);
    places.clear();
    Ok(slot)
}
