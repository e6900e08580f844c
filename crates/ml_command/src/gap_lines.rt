//! The longest free gaps of any labels, as a list and as a view.
ghost use Rattle.std.specs.Prelude.{◌≡◌, ◌≤◌, map, length, IfOk, string_bytes};
ghost use Rattle.ml_ratio.specs.Limits.{most_labels};
ghost use Rattle.ml_command.specs.GapLines.{gap_line, gap_lines, IsGapsOf, slot_of, IsGapViewOf};

use crate::view_line::view_line;
use ml_cone::{Label, Slot, View};
use ml_gaps::{Gap, gaps, shown_gaps};
use ml_ratio::Seq;
use std::alloc::{AllocError, Global};

/// The longest free gaps of labels, a line each: the id, where the gap begins and where it ends.
///
/// # Errors
/// Out of memory.
pub fn gaps_of(alloc: Global, labels: &[Label]) -> Result<Seq<u8>, AllocError>
    ensures { IfOk result (IsGapsOf labels.now) }
{
    let gaps = gaps(alloc, labels)?;
    lines_of(alloc, labels, gaps.as_slice())
}

/// The line of the view of labels, each active under its longest free gap.
///
/// # Errors
/// Out of memory.
pub fn gap_line_of(alloc: Global, labels: &[Label], view: &View) -> Result<Seq<u8>, AllocError>
    requires few { length labels.now ≤ most_labels }
    ensures { IfOk result (IsGapViewOf labels.now view.now) }
{
    let gaps = gaps(alloc, labels)?;
    let places = shown_gaps(alloc, labels, gaps.as_slice(), view)?;
    let slots = slots_of(alloc, gaps.as_slice())?;
    view_line(alloc, labels, &slots, places.as_slice(), view.scale)
}

// The lines of labels with their gaps.
fn lines_of(alloc: Global, labels: &[Label], gaps: &[Gap]) -> Result<Seq<u8>, AllocError>
    requires one_each { length gaps.now ≡ length labels.now }
    ensures { IfOk result (λ text. text ≡ gap_lines labels.now gaps.now) }
{
    let mut text = Vec::new(alloc);
    for i in 0..labels.len() {
        let line = gap_line(alloc, labels[i].id().as_str(), &gaps[i])?;
        text.extend_from_slice(line.as_bytes())?;
    }
    Ok(Seq::of_vec(text))
}

// One line.
fn gap_line(alloc: Global, id: &str, gap: &Gap) -> Result<String, AllocError>
    ensures { IfOk result (λ line. string_bytes line ≡ gap_line id.now gap.now) }
{
    let from = gap.from.text(alloc)?;
    let from = from.as_str();
    let until = gap.until.text(alloc)?;
    let until = until.as_str();
    format!(in alloc; "{id} {from} {until}\n")
}

// For each gap a slot that ends where it does.
fn slots_of(alloc: Global, gaps: &[Gap]) -> Result<Vec<Slot>, AllocError>
    ensures { IfOk result (λ slots. slots.items ≡ map slot_of gaps.now) }
{
    let mut slots = Vec::with_capacity(alloc, gaps.len())?;
    for gap in gaps {
        slots.push(Slot {
            until: gap.until,
            blocker: None,
        })?;
    }
    Ok(slots)
}
