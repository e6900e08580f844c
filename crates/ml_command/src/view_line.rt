//! The line of a view.
ghost use Rattle.std.specs.Prelude.{◌≡◌, ◌<◌, length, All, IfOk};
ghost use Rattle.std.specs.List.{filter_map};
ghost use Rattle.ml_answer.specs.View.{no_label, with_labels};
ghost use Rattle.ml_command.specs.ViewLine.{shown_at, view_line};

use ml_answer::JsonView;
use ml_cone::{Label, Slot};
use ml_ratio::{Ratio, Seq};
use std::alloc::{AllocError, Global};

/// The line of a view that shows the labels at these places, at this scale in world units a pixel.
///
/// # Errors
/// Out of memory.
pub fn view_line(
    alloc: Global,
    labels: &[Label],
    slots: &[Slot],
    places: &[u32],
    scale: Ratio,
) -> Result<Seq<u8>, AllocError>
    requires one_each { length slots.now ≡ length labels.now }
    requires placed { All (λ place. place < length labels.now) places.now }
    ensures { IfOk result (λ line. line ≡ view_line labels.now slots.now places.now scale) }
{
    let view = view_of(alloc, labels, slots, places, scale)?;
    let mut line = view.finish()?;
    line.push(b'\n')?;
    Ok(line)
}

// The view of the labels at these places.
fn view_of(
    alloc: Global,
    labels: &[Label],
    slots: &[Slot],
    places: &[u32],
    scale: Ratio,
) -> Result<JsonView, AllocError>
    requires one_each { length slots.now ≡ length labels.now }
    requires placed { All (λ place. place < length labels.now) places.now }
    ensures { IfOk result (λ view. view
        ≡ with_labels (no_label scale) (filter_map (shown_at labels.now slots.now) places.now)) }
{
    let mut view = JsonView::new(alloc, scale)?;
    for place in places {
        let i = *place as usize;
        view.add(&labels[i], slots[i].until)?;
    }
    Ok(view)
}
