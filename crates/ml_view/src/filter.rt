//! The labels that a view shows.
ghost use Rattle.std.specs.Prelude.{◌≡◌, ◌<◌, ◌^◌, ◌↔◌, length, IsTrue, IfOk};
ghost use Rattle.ml_ratio.specs.Fraction.{value_of};
ghost use Rattle.ml_cone.specs.Choice.{ActiveUntil};
ghost use Rattle.ml_cone.specs.Slots.{ends};
ghost use Rattle.ml_cone.specs.Shown.{AreShown, IsInView};

use ml_cone::{Label, Slot, Span, View, active, meets};
use ml_ratio::Seq;
use std::alloc::{AllocError, Global};

/// The places of the labels that the view shows, ascending: those that are active at its scale and
/// of which a box meets its window.
///
/// # Errors
/// Out of memory.
pub fn shown(
    alloc: Global,
    labels: &[Label],
    slots: &[Slot],
    view: &View,
) -> Result<Seq<u32>, AllocError>
    requires one_each { length slots.now ≡ length labels.now }
    requires few { length labels.now < 2 ^ 32 }
    ensures { IfOk result (λ places. AreShown labels.now (ends slots.now) view.now places) }
{
    let mut places = Seq::new(alloc);
    for i in 0..labels.len() {
        if is_shown(&labels[i], &slots[i], view) {
            places.push(i as u32)?;
        }
    }
    Ok(places)
}

// Whether the label with this slot is shown.
fn is_shown(label: &Label, slot: &Slot, view: &View) -> bool
    ensures { IsTrue result ↔ (ActiveUntil label.now (value_of slot.now.until)
        (value_of view.now.scale) × IsInView label.now view.now) }
{
    let span = Span {
        min: label.min(),
        until: slot.until,
    };
    active(&span, &view.scale) && meets(label, view)
}
