//! The text of a choice: one line `ID UNTIL BLOCKER` for each label.
ghost use Rattle.std.specs.Prelude.{◌≡◌, length, All, IfOk};
ghost use Rattle.std.specs.String.{string_bytes};
ghost use Rattle.ml_pass.specs.SlotsText.{IsBlockerPlace, ids, blocker_name, slot_line, slots_text};

use ml_cone::{Label, Slot};
use ml_ratio::{Ratio, Seq};
use std::alloc::{AllocError, Global};

/// The text of the slots of some labels, as `B 20/1 A`: for each label in order its id, its end in
/// lowest terms, and the id of its blocker or `-`, with one space between and LF behind.
///
/// # Errors
/// Out of memory.
pub fn write_slots(alloc: Global, labels: &[Label], slots: &[Slot]) -> Result<Seq<u8>, AllocError>
    requires one_each { length slots.now ≡ length labels.now }
    requires places { All (λ slot. IsBlockerPlace labels.now slot.blocker) slots.now }
    ensures { IfOk result (λ text. text ≡ slots_text labels.now slots.now) }
{
    let mut text = Vec::new(alloc);
    for i in 0..labels.len() {
        let slot = &slots[i];
        let blocker = blocker_of(labels, slot.blocker);
        let line = line_of(alloc, labels[i].id().as_str(), &slot.until, blocker)?;
        text.extend_from_slice(line.as_bytes())?;
    }
    Ok(Seq::of_vec(text))
}

// The blocker's id, or `-` for none.
fn blocker_of(labels: &[Label], blocker: Option<u32>) -> &str
    requires { IsBlockerPlace labels.now blocker }
    ensures { result.now ≡ blocker_name (ids labels.now) blocker }
{
    match blocker {
        Some(place) => labels[place as usize].id().as_str(),
        None => "-",
    }
}

// One line.
fn line_of(alloc: Global, id: &str, until: &Ratio, blocker: &str) -> Result<String, AllocError>
    ensures { IfOk result (λ line. string_bytes line ≡ slot_line id.now until.now blocker.now) }
{
    let until = until.text(alloc)?;
    let until = until.as_str();
    format!(in alloc; "{id} {until} {blocker}\n")
}
