//! The state that is being read.
ghost use Rattle.std.specs.Prelude.{◌<◌, length, IfOk};
ghost use Rattle.ml_follow.specs.Reading.{HasIds, IsOpened, IsJoinedAnswer, IsLongerAnswer};

use crate::row::read_row;
use crate::state::State;
use ml_cone::{Label, Slot};
use ml_ratio::Text;
use ml_watch::laws::one_spelling;
use std::alloc::{AllocError, Global};
use std::collections::BTreeSet;

/// A state of which not all lines have come: how many labels it is to have, what stands so far, and
/// the ids of its labels.
#[derive(Drop)]
pub struct Opened {
    pub count: usize,
    pub state: State,
    pub taken: BTreeSet<Text>,
}

/// The state with the label and the slot that a line writes behind the others; none where the line is
/// not that of the next label, or repeats an id.
///
/// # Errors
/// Out of memory.
pub fn with_row(alloc: Global, opened: Opened, line: &[u8]) -> Result<Option<Opened>, AllocError>
    requires opened { IsOpened opened }
    requires wanting { length opened.state.labels < opened.count }
    ensures { IfOk result (λ answer. IsLongerAnswer line.now opened answer) }
{
    one_spelling();
    let place = opened.state.labels.len() as u32;
    match read_row(alloc, line, place, opened.count)? {
        Some((label, slot)) => with_label(opened, label, slot),
        None => Ok(None),
    }
}

// The same with this label and slot behind the others; none where a label has its id.
fn with_label(opened: Opened, label: Label, slot: Slot) -> Result<Option<Opened>, AllocError>
    requires { HasIds opened.state.labels opened.taken }
    ensures { IfOk result (λ answer. IsJoinedAnswer label slot opened answer) }
{
    let mut opened = opened;
    if opened.taken.contains(label.id()) {
        return Ok(None);
    }
    opened.taken.insert(label.id().copy()?)?;
    opened.state.labels.push(label)?;
    opened.state.slots.push(slot)?;
    Ok(Some(opened))
}
