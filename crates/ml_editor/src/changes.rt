//! What changes where all labels of a map are made anew.
ghost use Rattle.std.specs.Prelude.{ℕ, ◌≡◌, List, IfOk, MatchBool, map};
ghost use Rattle.std.specs.Option.{option_map};
ghost use Rattle.ml_geojson.specs.Map.{HaveDifferentIds};
ghost use Rattle.ml_store.specs.Rows.{labels_in, slots_in, HasId};
ghost use Rattle.ml_watch.specs.declared.change.Change.{Change};
ghost use Rattle.ml_repair.specs.Changes.{IsStateOf, AreChanges};
ghost use Rattle.ml_repair.specs.Settled.{IsSettled};
ghost use Rattle.ml_editor.specs.State.{HasFeature};
ghost use Rattle.ml_editor.specs.Changing.{ranged, ranged_of, IsChangeOf, IsTakenIn, AreChangesAt};

use ml_cone::{Label, Span, same_labels, same_spans};
use ml_ratio::{Feature, Seq, Text};
use ml_repair::Engine;
use ml_watch::{Change, by_id};
use std::alloc::{AllocError, Global};

/// A label of an engine with its active range.
#[derive(Drop)]
pub struct RangedLabel<'a> {
    pub label: &'a Label,
    pub span: Span,
}

// The label with this id, with its active range; none where no label has it.
fn held_by<'a>(engine: &'a Engine, id: &Text) -> Option<RangedLabel<'a>>
    ensures { IsStateOf (labels_in engine.now.rows)
        (slots_in engine.now.rows) id.now (ranged result) }
{
    let number = engine.number_of(id)?;
    let label = engine.label_at(number);
    let span = Span {
        min: label.min(),
        until: engine.slot_at(number).until,
    };
    Some(RangedLabel { label, span })
}

// Whether both are the same label with the same active range.
fn same_label(one: &RangedLabel<'_>, other: &RangedLabel<'_>) -> bool
    ensures { MatchBool result (ranged_of one.now ≡ ranged_of other.now)
        (¬ (ranged_of one.now ≡ ranged_of other.now)) }
{
    same_spans(one.span, other.span) && same_labels(one.label, other.label)
}

// Whether both are none, or the same label with the same active range.
fn same_held(one: &Option<RangedLabel<'_>>, other: &Option<RangedLabel<'_>>) -> bool
    ensures { MatchBool result (ranged one.now ≡ ranged other.now)
        (¬ (ranged one.now ≡ ranged other.now)) }
{
    match (one, other) {
        (Some(one), Some(other)) => same_label(one, other),
        (None, None) => true,
        _ => false,
    }
}

// The active range of what is held.
fn span_of(held: &Option<RangedLabel<'_>>) -> Option<Span>
    ensures { result ≡ option_map (λ one. one.span) (ranged held.now) }
{
    match held {
        Some(held) => Some(held.span),
        None => None,
    }
}

// The change of an id between two engines, or none where its label and its active range stay.
fn change_of(id: &Text, old: &Engine, new: &Engine) -> Result<Option<Change>, AllocError>
    requires old { IsSettled old.now.rows }
    requires new { IsSettled new.now.rows }
    ensures { IfOk result (IsChangeOf old.now.rows new.now.rows id.now) }
{
    let was = held_by(old, id);
    let is = held_by(new, id);
    if same_held(&was, &is) {
        return Ok(None);
    }
    let id = id.copy()?;
    Ok(Some(Change {
        id,
        before: span_of(&was),
        after: span_of(&is),
    }))
}

// Appends the change of an id between two engines, if there is one.
fn push_change(
    id: &Text,
    old: &Engine,
    new: &Engine,
    out: &mut Vec<Change>,
) -> Result<(), AllocError>
    requires old { IsSettled old.now.rows }
    requires new { IsSettled new.now.rows }
    ensures { IfOk result
        (λ _. IsTakenIn old.now.rows new.now.rows id.now out.old.items out.new.items) }
{
    match change_of(id, old, new)? {
        Some(change) => {
            out.push(change)?;
            Ok(())
        }
        None => Ok(()),
    }
}

// The changes of the ids of features between two engines, in no order.
fn changes_at(
    alloc: Global,
    features: &[Feature],
    old: &Engine,
    new: &Engine,
) -> Result<Vec<Change>, AllocError>
    requires differ { HaveDifferentIds features.now }
    requires old { IsSettled old.now.rows }
    requires new { IsSettled new.now.rows }
    ensures { IfOk result
        (λ changes. AreChangesAt old.now.rows new.now.rows features.now changes.items) }
{
    let mut out = Vec::new(alloc);
    for feature in features {
        push_change(&feature.id, old, new, &mut out)?;
    }
    Ok(out)
}

/// The changes between two engines, each of whose labels has the id of a feature, in byte order of ids.
///
/// # Errors
/// Out of memory.
pub(crate) fn changes_between(
    alloc: Global,
    features: &[Feature],
    old: &Engine,
    new: &Engine,
) -> Result<Seq<Change>, AllocError>
    requires differ { HaveDifferentIds features.now }
    requires old { (id : List ℕ) → HasId (labels_in old.now.rows) id → HasFeature features.now id }
    requires new { (id : List ℕ) → HasId (labels_in new.now.rows) id → HasFeature features.now id }
    ensures { IfOk result (AreChanges (labels_in old.now.rows)
        (slots_in old.now.rows) (labels_in new.now.rows) (slots_in new.now.rows)) }
{
    let _many = (old.len(), new.len());
    let changes = changes_at(alloc, features, old, new)?;
    Ok(by_id(changes))
}
