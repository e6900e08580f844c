//! The judge: it looks at each label's own end and at the limits that the labels before it set.
ghost use Rattle.std.specs.Prelude.{ℕ, ◌≡◌, ◌≢◌, ◌<◌, ◌≤◌, ◌↔◌, ◌⊎◌, All, length, IfSome, MatchBool, MatchOption};
ghost use Rattle.ml_ratio.specs.Fraction.{value_of};
ghost use Rattle.ml_ratio.specs.Limits.{most_labels};
ghost use Rattle.ml_cone.specs.Choice.{IsEnd};
ghost use Rattle.ml_cone.specs.Slots.{AreSlots};
ghost use Rattle.ml_cone.specs.Sound.{IsSound};
ghost use Rattle.ml_conflict.specs.Field.{IsSpotOf, HasSpot};
ghost use Rattle.ml_cert.specs.Judged.{AllSoundBefore, IsVerdict};
ghost use Rattle.ml_cert.specs.Strips.{IsFieldOf, IsIdle};

use crate::arrange::{arrange, cut, list_active};
use crate::due::blocker_due;
use crate::strip::{Field, Strip};
use crate::verdict::Verdict;
use ml_cone::{Label, Slot};
use ml_conflict::laws::sound_slots;
use ml_conflict::{Area, Spot, spot_of};
use ml_ratio::{MOST_LABELS, Ratio};

// Lists up to this length are judged pair by pair.
const SHORT: usize = 16;

// How many strips spots are cut into at most. The spots of the longest list make 182, if each part is in order.
const MOST_STRIPS: usize = 256;

/// The verdict on the slots of labels in priority order: what the first label with a wrong slot has
/// wrong, the first of the four that applies. It takes no memory.
pub fn check(labels: &[Label], slots: &[Slot]) -> Verdict
    requires { length slots.now ≡ length labels.now }
    ensures verdict { IsVerdict labels.now slots.now result }
    ensures one { (verdict : Verdict) → IsVerdict labels.now slots.now verdict → result ≡ verdict }
    ensures best { (result ≡ Verdict.Best) ↔ AreSlots (λ j. j) labels.now slots.now }
{
    let count = labels.len();
    if count <= SHORT || count > MOST_LABELS {
        return judge(labels, slots, None);
    }
    judge_many(labels, slots)
}

// The same of more labels. Room for the spots of as many as there can be is taken here alone, since it costs more
// than to judge a short list without them.
fn judge_many(labels: &[Label], slots: &[Slot]) -> Verdict
    requires lengths { length slots.now ≡ length labels.now }
    requires some { 0 < length labels.now }
    requires few { length labels.now ≤ most_labels }
    ensures verdict { IsVerdict labels.now slots.now result }
    ensures one { (verdict : Verdict) → IsVerdict labels.now slots.now verdict → result ≡ verdict }
    ensures best { (result ≡ Verdict.Best) ↔ AreSlots (λ j. j) labels.now slots.now }
{
    let mut room = [spot_of(labels, 0); MOST_LABELS];
    let count = list_active(labels, slots, &mut room);
    let spots = &mut room[..count];
    arrange(spots);
    judge_in_strips(labels, slots, spots)
}

// The same, where the spots are those of all labels whose slots are not empty.
fn judge_in_strips(labels: &[Label], slots: &[Slot], spots: &[Spot]) -> Verdict
    requires lengths { length slots.now ≡ length labels.now }
    requires some { 0 < length labels.now }
    requires good { All (IsSpotOf labels.now) spots.now }
    requires each { (j : ℕ) → j < length labels.now →
        HasSpot spots.now j ⊎ IsIdle labels.now slots.now j }
    ensures verdict { IsVerdict labels.now slots.now result }
    ensures one { (verdict : Verdict) → IsVerdict labels.now slots.now verdict → result ≡ verdict }
    ensures best { (result ≡ Verdict.Best) ↔ AreSlots (λ j. j) labels.now slots.now }
{
    let none = Strip {
        from: 0,
        to: 0,
        area: Area::of(&labels[0]),
    };
    let mut room = [none; MOST_STRIPS];
    match cut(labels, spots, &mut room) {
        Some(many) => {
            let strips = &room[..many];
            judge(labels, slots, Some(Field { spots, strips }))
        }
        None => judge(labels, slots, None),
    }
}

// The same, label by label. Where a field of the labels is given, those that are too far away are passed over.
fn judge(labels: &[Label], slots: &[Slot], field: Option<Field<'_>>) -> Verdict
    requires lengths { length slots.now ≡ length labels.now }
    requires field { IfSome field (λ f. IsFieldOf labels.now slots.now f.spots.now f.strips.now) }
    ensures verdict { IsVerdict labels.now slots.now result }
    ensures one { (verdict : Verdict) → IsVerdict labels.now slots.now verdict → result ≡ verdict }
    ensures best { (result ≡ Verdict.Best) ↔ AreSlots (λ j. j) labels.now slots.now }
{
    sound_slots();
    for i in 0..labels.len() {
        if let Some(verdict) = judge_slot(labels, slots, field, i) {
            return verdict;
        }
    }
    Verdict::Best
}

// What is wrong with the slot at `i`, if anything, where nothing is wrong before it.
fn judge_slot(
    labels: &[Label],
    slots: &[Slot],
    field: Option<Field<'_>>,
    i: usize,
) -> Option<Verdict>
    requires lengths { length slots.now ≡ length labels.now }
    requires field { IfSome field (λ f. IsFieldOf labels.now slots.now f.spots.now f.strips.now) }
    requires at { i < length labels.now }
    requires before { AllSoundBefore labels.now slots.now i }
    ensures { MatchOption result
        (IsSound labels.now slots.now i)
        (λ verdict. IsVerdict labels.now slots.now verdict) }
{
    let label = &labels[i];
    let slot = slots[i];
    if !is_end(label, &slot.until) {
        return Some(Verdict::BadEnd(i));
    }
    let due = match blocker_due(labels, slots, field, i) {
        Ok(due) => due,
        Err((j, limit)) => return Some(Verdict::Clash(i, j, limit)),
    };
    if due.is_none() && slot.until.is_less(&label.max()) {
        Some(Verdict::Uncovered(i))
    } else if is_place(slot.blocker, due) {
        None
    } else {
        Some(Verdict::BadBlocker(i))
    }
}

// Whether the end lies in the label's selectable range.
fn is_end(label: &Label, until: &Ratio) -> bool
    ensures { MatchBool result
        (IsEnd label.now (value_of until.now))
        (¬ (IsEnd label.now (value_of until.now))) }
{
    !until.is_less(&label.min()) && !label.max().is_less(until)
}

// Whether the blocker that is given is the label at the place that is due.
fn is_place(given: Option<u32>, due: Option<usize>) -> bool
    ensures { MatchBool result (given ≡ due) (given ≢ due) }
{
    match (given, due) {
        (None, None) => true,
        (Some(given), Some(due)) => given as usize == due,
        _ => false,
    }
}
