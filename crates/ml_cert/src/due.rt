//! The blocker that is due to a label.
ghost use Rattle.std.specs.Prelude.{◌≡◌, ◌<◌, length, IfSome, MatchResult};
ghost use Rattle.ml_cone.specs.Slots.{ends};
ghost use Rattle.ml_cone.specs.Sound.{HasGoodEnd};
ghost use Rattle.ml_cert.specs.Judged.{IsDue, IsClash};
ghost use Rattle.ml_cert.specs.Strips.{IsFieldOf};

use crate::known::known_limits;
use crate::near::Asked;
use crate::strip::Field;
use ml_cone::{Label, Site, Slot};
use ml_conflict::{Area, limit_up_to};
use ml_ratio::Ratio;

/// The first label before `i` that blocks it, where all labels before it allow its end; else the
/// first that does not allow it, and the limit that it sets.
///
/// Where a field of the labels is given, those near are asked first: they are enough, unless one refuses.
pub fn blocker_due(
    labels: &[Label],
    slots: &[Slot],
    field: Option<Field<'_>>,
    i: usize,
) -> Result<Option<usize>, (usize, Ratio)>
    requires lengths { length slots.now ≡ length labels.now }
    requires field { IfSome field (λ f. IsFieldOf labels.now slots.now f.spots.now f.strips.now) }
    requires at { i < length labels.now }
    requires end { HasGoodEnd labels.now (ends slots.now) i }
    ensures { MatchResult result
        (λ due. IsDue labels.now (ends slots.now) i i due)
        (λ clash. IsClash labels.now (ends slots.now) i clash.0 clash.1) }
{
    if let Some(field) = field {
        if let Some(due) = due_near(labels, slots, field, i) {
            return Ok(due);
        }
    }
    due_in_order(labels, slots, i)
}

// The first label before `i` that blocks it, if any does, where all labels before it allow its end; none at all
// where one may refuse it.
fn due_near(labels: &[Label], slots: &[Slot], field: Field<'_>, i: usize) -> Option<Option<usize>>
    requires lengths { length slots.now ≡ length labels.now }
    requires field { IsFieldOf labels.now slots.now field.spots.now field.strips.now }
    requires at { i < length labels.now }
    requires end { HasGoodEnd labels.now (ends slots.now) i }
    ensures { IfSome result (λ due. IsDue labels.now (ends slots.now) i i due) }
{
    let low = &labels[i];
    let asked = Asked {
        labels,
        slots,
        place: i,
        low,
        site: Site::of(low),
        area: Area::of(low),
        until: slots[i].until,
    };
    asked.due(&field)
}

// The same as `blocker_due`, label by label in priority order.
fn due_in_order(labels: &[Label], slots: &[Slot], i: usize) -> Result<Option<usize>, (usize, Ratio)>
    requires lengths { length slots.now ≡ length labels.now }
    requires at { i < length labels.now }
    requires end { HasGoodEnd labels.now (ends slots.now) i }
    ensures { MatchResult result
        (λ due. IsDue labels.now (ends slots.now) i i due)
        (λ clash. IsClash labels.now (ends slots.now) i clash.0 clash.1) }
{
    known_limits();
    let low = &labels[i];
    let until = slots[i].until;
    let mut due = None;
    for j in 0..i {
        if let Some(limit) = limit_up_to(low, &labels[j], &slots[j].until, &until) {
            if limit.is_less(&until) {
                return Err((j, limit));
            }
            if due.is_none() {
                due = Some(j);
            }
        }
    }
    Ok(due)
}
