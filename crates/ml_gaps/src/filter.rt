//! The labels that a view shows under their gaps.
ghost use Rattle.std.specs.Prelude.{◌≡◌, ◌<◌, ◌^◌, ◌↔◌, length, IsTrue, IfOk};
ghost use Rattle.ml_ratio.specs.Fraction.{value_of};
ghost use Rattle.ml_cone.specs.Shown.{IsInView};
ghost use Rattle.ml_gaps.specs.Gap.{IsActive};
ghost use Rattle.ml_gaps.specs.Gaps.{AreShownGaps};

use crate::gap::Gap;
use ml_cone::{Label, Span, View, active, meets};
use ml_ratio::Seq;
use std::alloc::{AllocError, Global};

/// The places of the labels that the view shows, ascending: those whose gap holds its scale and of
/// which a box meets its window.
///
/// # Errors
/// Out of memory.
pub fn shown_gaps(
    alloc: Global,
    labels: &[Label],
    gaps: &[Gap],
    view: &View,
) -> Result<Seq<u32>, AllocError>
    requires one_each { length gaps.now ≡ length labels.now }
    requires few { length labels.now < 2 ^ 32 }
    ensures { IfOk result (AreShownGaps labels.now gaps.now view.now) }
{
    let mut places = Seq::new(alloc);
    for i in 0..labels.len() {
        if is_shown(&labels[i], &gaps[i], view) {
            places.push(i as u32)?;
        }
    }
    Ok(places)
}

// Whether the label with this gap is shown.
fn is_shown(label: &Label, gap: &Gap, view: &View) -> bool
    ensures { IsTrue result
        ↔ (IsActive gap.now (value_of view.now.scale) × IsInView label.now view.now) }
{
    let span = Span {
        min: gap.from,
        until: gap.until,
    };
    active(&span, &view.scale) && meets(label, view)
}
