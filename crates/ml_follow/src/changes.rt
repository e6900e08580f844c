//! What changes from one state to another.
ghost use Rattle.std.specs.Prelude.{◌≡◌, ◌≤◌, ◌⊎◌, length, IfOk, MatchBool};
ghost use Rattle.std.specs.Option.{option_map};
ghost use Rattle.ml_ratio.specs.Limits.{most_labels};
ghost use Rattle.ml_cone.specs.Label.{IsLabelList};
ghost use Rattle.ml_follow.specs.Changes.{IsStateOf, IsListed, ranged_of, ranged, IsChangeOf, IsTakenIn, IsTakenIfGone, HasId, AreChangesAmong, AreChanges};

use crate::compare::same_unplaced;
use ml_cert::places::{place_of, places_of};
use ml_cone::{Label, Slot, Span, same_spans};
use ml_ratio::{Seq, Text};
use ml_watch::{Change, by_id};
use std::alloc::{AllocError, Global};
use std::collections::BTreeMap;

/// Labels with their slots, and the place of each id.
#[derive(Drop)]
pub struct Listed<'a> {
    pub labels: &'a [Label],
    pub slots: &'a [Slot],
    pub places: BTreeMap<&'a str, u32>,
}

/// A label of a list with its active range.
#[derive(Drop)]
pub struct RangedLabel<'a> {
    pub label: &'a Label,
    pub span: Span,
}

// The list of these labels with their slots.
fn list_of<'a>(
    alloc: Global,
    labels: &'a [Label],
    slots: &'a [Slot],
) -> Result<Listed<'a>, AllocError>
    requires ordered { IsLabelList labels.now }
    requires few { length labels.now ≤ most_labels }
    requires one_slot { length slots.now ≡ length labels.now }
    ensures listed { IfOk result IsListed }
    ensures labels { IfOk result (λ list. list.labels.now ≡ labels.now) }
    ensures slots { IfOk result (λ list. list.slots.now ≡ slots.now) }
{
    let places = places_of(alloc, labels)?;
    Ok(Listed {
        labels,
        slots,
        places,
    })
}

// The label with this id, with its active range; none where no label has it.
fn ranged_label_of<'a>(list: &Listed<'a>, id: &'a str) -> Option<RangedLabel<'a>>
    requires { IsListed list.now }
    ensures { IsStateOf list.now.labels.now list.now.slots.now id.now (ranged result) }
{
    let place = place_of(&list.places, id)? as usize;
    let label = &list.labels[place];
    let span = Span {
        min: label.min(),
        until: list.slots[place].until,
    };
    Some(RangedLabel { label, span })
}

// Whether both are alike and have the same active range.
fn stand_alike(one: &RangedLabel<'_>, other: &RangedLabel<'_>) -> bool
    ensures { MatchBool result (ranged_of one.now ≡ ranged_of other.now)
        (¬ (ranged_of one.now ≡ ranged_of other.now)) }
{
    same_spans(one.span, other.span) && same_unplaced(one.label, other.label)
}

// Whether both are none, or alike with the same active range.
fn both_alike(one: &Option<RangedLabel<'_>>, other: &Option<RangedLabel<'_>>) -> bool
    ensures { MatchBool result (ranged one.now ≡ ranged other.now)
        (¬ (ranged one.now ≡ ranged other.now)) }
{
    match (one, other) {
        (Some(one), Some(other)) => stand_alike(one, other),
        (None, None) => true,
        _ => false,
    }
}

// The active range of the label, if there is one.
fn span_of(ranged_label: &Option<RangedLabel<'_>>) -> Option<Span>
    ensures { result ≡ option_map (λ one. one.span) (ranged ranged_label.now) }
{
    match ranged_label {
        Some(ranged_label) => Some(ranged_label.span),
        None => None,
    }
}

// The change of an id between two lists, or none where its label and its active range stay.
fn change_of<'a>(
    id: &'a Text,
    old: &Listed<'a>,
    new: &Listed<'a>,
) -> Result<Option<Change>, AllocError>
    requires old { IsListed old.now }
    requires new { IsListed new.now }
    ensures { IfOk result (IsChangeOf old.now new.now id.now) }
{
    let was = ranged_label_of(old, id.as_str());
    let is = ranged_label_of(new, id.as_str());
    if both_alike(&was, &is) {
        return Ok(None);
    }
    let id = id.copy()?;
    Ok(Some(Change {
        id,
        before: span_of(&was),
        after: span_of(&is),
    }))
}

// Appends the change of an id between two lists, if there is one.
fn push_change<'a>(
    id: &'a Text,
    old: &Listed<'a>,
    new: &Listed<'a>,
    out: &mut Vec<Change>,
) -> Result<(), AllocError>
    requires old { IsListed old.now }
    requires new { IsListed new.now }
    ensures { IfOk result (λ _. IsTakenIn old.now new.now id.now out.old.items out.new.items) }
{
    match change_of(id, old, new)? {
        Some(change) => {
            out.push(change)?;
            Ok(())
        }
        None => Ok(()),
    }
}

// The changes of the ids of the new list, in no order.
fn changes_of_new<'a>(
    alloc: Global,
    old: &Listed<'a>,
    new: &Listed<'a>,
) -> Result<Vec<Change>, AllocError>
    requires old { IsListed old.now }
    requires new { IsListed new.now }
    ensures { IfOk result
        (λ changes. AreChangesAmong old.now new.now (HasId new.now.labels.now) changes.items) }
{
    let mut out = Vec::new(alloc);
    for label in new.labels {
        push_change(label.id(), old, new, &mut out)?;
    }
    Ok(out)
}

// Appends the change of an id of the old list that the new one does not have.
fn push_gone<'a>(
    id: &'a Text,
    old: &Listed<'a>,
    new: &Listed<'a>,
    out: &mut Vec<Change>,
) -> Result<(), AllocError>
    requires old { IsListed old.now }
    requires new { IsListed new.now }
    ensures { IfOk result (λ _. IsTakenIfGone old.now new.now id.now out.old.items out.new.items) }
{
    if place_of(&new.places, id.as_str()).is_none() {
        push_change(id, old, new, out)?;
    }
    Ok(())
}

// The changes of all ids, in no order.
fn changes_of_all<'a>(
    alloc: Global,
    old: &Listed<'a>,
    new: &Listed<'a>,
) -> Result<Vec<Change>, AllocError>
    requires old { IsListed old.now }
    requires new { IsListed new.now }
    ensures { IfOk result (λ changes. AreChangesAmong old.now new.now
        (λ id. HasId new.now.labels.now id ⊎ HasId old.now.labels.now id) changes.items) }
{
    let mut out = changes_of_new(alloc, old, new)?;
    for label in old.labels {
        push_gone(label.id(), old, new, &mut out)?;
    }
    Ok(out)
}

/// The changes from labels with their slots to others, in byte order of ids.
///
/// # Errors
/// Out of memory.
pub fn changes_between(
    alloc: Global,
    labels: &[Label],
    slots: &[Slot],
    new_labels: &[Label],
    new_slots: &[Slot],
) -> Result<Seq<Change>, AllocError>
    requires ordered { IsLabelList labels.now }
    requires few { length labels.now ≤ most_labels }
    requires one_slot { length slots.now ≡ length labels.now }
    requires new_ordered { IsLabelList new_labels.now }
    requires new_few { length new_labels.now ≤ most_labels }
    requires new_one_slot { length new_slots.now ≡ length new_labels.now }
    ensures { IfOk result (AreChanges labels.now slots.now new_labels.now new_slots.now) }
{
    let old = list_of(alloc, labels, slots)?;
    let new = list_of(alloc, new_labels, new_slots)?;
    let changes = changes_of_all(alloc, &old, &new)?;
    Ok(by_id(changes))
}
