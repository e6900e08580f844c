//! The zoom timeline of labels.
ghost use Rattle.std.specs.Prelude.{◌≡◌, ◌≤◌, IfOk, length, All};
ghost use Rattle.ml_ratio.specs.Limits.{most_labels};
ghost use Rattle.ml_flight.specs.Shown.{IsShownAt};
ghost use Rattle.ml_flight.specs.Stay.{AreApart};
ghost use Rattle.ml_flight.specs.Stays.{AreMaximal};
ghost use Rattle.ml_flight.specs.Timelines.{AreTimelines, span_of};
ghost use Rattle.ml_command.specs.Zoom.{IsZoomOf};

use crate::zoom_text::zoom_text;
use ml_cone::{Label, Slot, Span};
use ml_flight::laws::{no_view_shows_more, stays_tell_views};
use ml_flight::{Stay, Window, peak, stays};
use ml_pass::assign;
use ml_ratio::Seq;
use std::alloc::{AllocError, Global};

/// The text of the zoom timeline of labels in a window, each active as their longest choice says: for
/// each label that is shown at some scale its id and its stays, and then the greatest number of
/// labels that are shown at one scale.
///
/// # Errors
/// Out of memory.
pub fn zoom_of(alloc: Global, labels: &[Label], window: &Window) -> Result<Seq<u8>, AllocError>
    requires few { length labels.now ≤ most_labels }
    ensures { IfOk result (IsZoomOf labels.now window.now) }
{
    stays_tell_views();
    no_view_shows_more();
    let slots = assign(alloc, labels)?;
    let all = timelines(alloc, labels, slots.as_slice(), window)?;
    let peak = peak(alloc, &all)?;
    zoom_text(alloc, labels, all.as_slice(), &peak)
}

// The stays of each of the labels with its slot.
fn timelines(
    alloc: Global,
    labels: &[Label],
    slots: &[Slot],
    window: &Window,
) -> Result<Seq<Seq<Stay>>, AllocError>
    requires one_each { length slots.now ≡ length labels.now }
    ensures timelines { IfOk result (AreTimelines labels.now slots.now window.now) }
    ensures apart { IfOk result (All AreApart) }
{
    let mut all = Seq::new(alloc);
    for i in 0..labels.len() {
        let its = stays_of(alloc, &labels[i], &slots[i], window)?;
        all.push(its)?;
    }
    Ok(all)
}

// The stays of a label with its slot.
fn stays_of(
    alloc: Global,
    label: &Label,
    slot: &Slot,
    window: &Window,
) -> Result<Seq<Stay>, AllocError>
    ensures stays { IfOk result
        (AreMaximal (IsShownAt label.now (span_of label.now slot.now) window.now)) }
    ensures apart { IfOk result AreApart }
{
    let span = Span {
        min: label.min(),
        until: slot.until,
    };
    stays(alloc, label, &span, window)
}
