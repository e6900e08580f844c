//! How an engine is built: the choice is made first, and then the store at once of the labels with their slots.
ghost use Rattle.std.specs.Prelude.{ℕ, ◌≡◌, ◌≢◌, ◌<◌, ◌≤◌, ◌↔◌, ◌++◌, ◌∷◌, [], List, length, Contains, IfOk, OnOk};
ghost use Rattle.std.specs.List.{AllPairs};
ghost use Rattle.std.specs.List.Sorted.{IsPermutation};
ghost use Rattle.ml_ratio.specs.Limits.{most_labels};
ghost use Rattle.ml_cone.specs.Label.{IsLabelList};
ghost use Rattle.ml_cone.specs.declared.label.Label.{Label};
ghost use Rattle.ml_cone.specs.declared.slot.Slot.{Slot};
ghost use Rattle.ml_store.specs.Boxes.{unboxed};
ghost use Rattle.ml_store.specs.Rows.{labels_in, slots_in, AreInTurn};
ghost use Rattle.ml_store.specs.declared.row.Row.{Row};
ghost use Rattle.ml_repair.specs.Settled.{IsSettled};

use ml_cone::{Label, Slot};
use ml_conflict::laws::{own_slots, same_rivals};
use ml_pass::assign;
use ml_ratio::Seq;
use ml_store::{Row, Store};
use std::alloc::{AllocError, Global};

// The same labels in priority order.
fn in_priority_order(labels: Seq<Label>) -> Vec<Label>
    requires differ { AllPairs (λ one other. one.order.id ≢ other.order.id) labels }
    ensures same { IsPermutation labels result.items }
    ensures ordered { IsLabelList result.items }
{
    let mut ordered = labels.into_vec();
    ordered.sort_unstable_by(|one, other| one.order().cmp(other.order()));
    ordered
}

// A label comes in behind all others, with its slot; its place is its number.
fn push_row(
    alloc: Global,
    rows: &mut Vec<Box<Row>>,
    label: Label,
    slot: Slot,
) -> Result<(), AllocError>
    requires few { length rows.old.items < most_labels }
    requires in_turn { AreInTurn (unboxed rows.old.items) }
    ensures labels { OnOk result
        (labels_in (unboxed rows.new.items) ≡ labels_in (unboxed rows.old.items) ++ label ∷ []) }
    ensures slots { OnOk result
        (slots_in (unboxed rows.new.items) ≡ slots_in (unboxed rows.old.items) ++ slot ∷ []) }
    ensures in_turn { OnOk result (AreInTurn (unboxed rows.new.items)) }
{
    let row = Row {
        number: rows.len() as u32,
        label,
        slot,
    };
    let row = Box::new(alloc, row)?;
    rows.push(row)?;
    Ok(())
}

// The labels with their slots; the place of each is its number.
fn rows_of(alloc: Global, labels: Vec<Label>, slots: &[Slot]) -> Result<Vec<Box<Row>>, AllocError>
    requires few { length labels.items ≤ most_labels }
    requires one_slot { length slots.now ≡ length labels.items }
    ensures labels { IfOk result (λ rows. labels_in (unboxed rows.items) ≡ labels.items) }
    ensures slots { IfOk result (λ rows. slots_in (unboxed rows.items) ≡ slots.now) }
    ensures in_turn { IfOk result (λ rows. AreInTurn (unboxed rows.items)) }
{
    let mut rows = Vec::with_capacity(alloc, labels.len())?;
    let mut rest = labels;
    rest.reverse();
    while let Some(label) = rest.pop() {
        let slot = slots[rows.len()];
        push_row(alloc, &mut rows, label, slot)?;
    }
    Ok(rows)
}

// The labels, in priority order, with the slots of the longest choice.
fn settle_all(alloc: Global, labels: Vec<Label>) -> Result<Store, AllocError>
    requires few { length labels.items ≤ most_labels }
    requires ordered { IsLabelList labels.items }
    ensures labels { IfOk result (λ store. labels_in store.rows ≡ labels.items) }
    ensures settled { IfOk result (λ store. IsSettled store.rows) }
{
    own_slots();
    same_rivals();
    let slots = assign(alloc, labels.as_slice())?;
    let rows = rows_of(alloc, labels, slots.as_slice())?;
    Store::of(alloc, rows)
}

/// The labels with the slots of the longest choice. They may come in any order.
///
/// # Errors
/// Out of memory.
pub fn build_store(alloc: Global, labels: Seq<Label>) -> Result<Store, AllocError>
    requires differ { AllPairs (λ one other. one.order.id ≢ other.order.id) labels }
    requires few { length labels ≤ most_labels }
    ensures labels { IfOk result
        (λ store. (label : Label) → Contains (labels_in store.rows) label ↔ Contains labels label) }
    ensures settled { IfOk result (λ store. IsSettled store.rows) }
{
    let ordered = in_priority_order(labels);
    settle_all(alloc, ordered)
}
