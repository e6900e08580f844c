//! The whole state of the labels, for a follower that judges it before it adopts it.
ghost use Rattle.std.specs.Prelude.{◌≡◌, ◌<◌, ◌≤◌, ℕ, List, length, All, IfOk, OnOk, IfSome};
ghost use Rattle.ml_ratio.specs.Limits.{most_labels};
ghost use Rattle.ml_store.specs.Rows.{AreDifferent, IsLive, numbers_in};
ghost use Rattle.ml_http.specs.StateReply.{ArePlacesOf, IsPlaceOf, IsRowAdded, IsStateReply, IsStateText};

use crate::kind::Kind;
use crate::reply::reply;
use http::StatusCode;
use ml_editor::Editor;
use ml_follow::StateText;
use ml_ratio::{MOST_LABELS, Seq};
use std::alloc::{AllocError, Global};

/// The text of the state: the revision, and all labels in priority order with their ends and blockers.
pub(crate) fn state_reply(
    alloc: Global,
    editor: &Editor,
    closes: bool,
) -> Result<Vec<u8>, AllocError>
    ensures { IfOk result (λ bytes. IsStateReply editor.now.state closes bytes.items) }
{
    let text = state_text(alloc, editor)?;
    reply(
        alloc,
        StatusCode::OK,
        Kind::Text,
        None,
        closes,
        text.as_slice(),
    )
}

// The text of the state.
fn state_text(alloc: Global, editor: &Editor) -> Result<Seq<u8>, AllocError>
    ensures { IfOk result (IsStateText editor.now.state) }
{
    let rev = editor.rev();
    let numbers = editor.in_order(alloc)?;
    let places = places_of(alloc, numbers.as_slice())?;
    let mut text = StateText::new(alloc, rev, numbers.len() as u32)?;
    for number in numbers.as_slice() {
        add_row(&mut text, editor, &places, *number)?;
    }
    text.finish()
}

// The place of each number among these, by number.
fn places_of(alloc: Global, numbers: &[u32]) -> Result<Vec<u32>, AllocError>
    requires low { All (λ n. n < most_labels) numbers.now }
    requires few { length numbers.now ≤ most_labels }
    requires own { AreDifferent numbers.now }
    ensures { IfOk result (λ places. ArePlacesOf numbers.now places.items) }
{
    let mut places = vec![in alloc; 0u32; MOST_LABELS]?;
    for place in 0..numbers.len() {
        places[numbers[place] as usize] = place as u32;
    }
    Ok(places)
}

// Adds the label with this number, with its end and the place of its blocker.
fn add_row(
    text: &mut StateText,
    editor: &Editor,
    places: &[u32],
    number: u32,
) -> Result<(), AllocError>
    requires live { IsLive editor.now.engine.rows number }
    requires places { ArePlacesOf (numbers_in editor.now.engine.rows) places.now }
    ensures { OnOk result (IsRowAdded editor.now.engine.rows number text.old text.new) }
{
    let slot = editor.slot_at(number);
    let blocker = place_of(places, slot.blocker);
    text.add(editor.label_at(number), slot.until, blocker)
}

// The place of a number, if there is one.
fn place_of(places: &[u32], number: Option<u32>) -> Option<u32>
    ensures { IsPlaceOf places.now number result }
{
    match number {
        Some(number) => match places.get(number as usize) {
            Some(place) => Some(*place),
            None => None,
        },
        None => None,
    }
}
