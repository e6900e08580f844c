//! The longest choice of any labels, as a view and as a list.
ghost use Rattle.std.specs.Prelude.{◌≤◌, IfOk, length};
ghost use Rattle.ml_ratio.specs.Limits.{most_labels};
ghost use Rattle.ml_command.specs.Answers.{IsViewOf, IsSlotsOf};

use crate::view_line::view_line;
use ml_cone::{Label, View};
use ml_pass::{assign, write_slots};
use ml_ratio::Seq;
use ml_view::shown;
use std::alloc::{AllocError, Global};

/// The line of the view of labels, each active as their longest choice says.
///
/// # Errors
/// Out of memory.
pub fn line_of(alloc: Global, labels: &[Label], view: &View) -> Result<Seq<u8>, AllocError>
    requires few { length labels.now ≤ most_labels }
    ensures { IfOk result (IsViewOf labels.now view.now) }
{
    let slots = assign(alloc, labels)?;
    let places = shown(alloc, labels, slots.as_slice(), view)?;
    view_line(
        alloc,
        labels,
        slots.as_slice(),
        places.as_slice(),
        view.scale,
    )
}

/// The ends of labels in their longest choice, with the blockers, a line each.
///
/// # Errors
/// Out of memory.
pub fn slots_of(alloc: Global, labels: &[Label]) -> Result<Seq<u8>, AllocError>
    requires few { length labels.now ≤ most_labels }
    ensures { IfOk result (IsSlotsOf labels.now) }
{
    let slots = assign(alloc, labels)?;
    write_slots(alloc, labels, slots.as_slice())
}
