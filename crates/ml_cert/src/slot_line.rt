//! One line of the text of slots.
ghost use Rattle.std.specs.Prelude.{IfOk};
ghost use Rattle.ml_cone.specs.Places.{FindsPlaces};
ghost use Rattle.ml_cert.specs.SlotLine.{IsBlockerAnswer, IsWordsAnswer, IsLineAnswer};

use crate::places::place_of;
use ml_cone::{Label, Slot};
use ml_ratio::Ratio;
use ml_ratio::lines::parts_of;
use std::alloc::{AllocError, Global};
use std::collections::BTreeMap;

/// The slot that a line writes for the label at place `due`, as `B 20/1 A`: that label's id, its
/// end, and the id of its blocker or `-`, with one space between.
///
/// None where the line is no such text.
///
/// # Errors
/// Out of memory.
pub fn read_line<'a>(
    alloc: Global,
    labels: &[Label],
    places: &BTreeMap<&'a str, u32>,
    due: usize,
    line: &'a [u8],
) -> Result<Option<Slot>, AllocError>
    requires { FindsPlaces labels.now places.now }
    ensures { IfOk result (λ answer. IsLineAnswer labels.now due line.now answer) }
{
    let Ok(text) = std::str::from_utf8(line) else {
        return Ok(None);
    };
    let words = parts_of(alloc, text, ' ')?;
    match words.as_slice() {
        [id, until, blocker] => Ok(slot_of(labels, places, due, id, until, blocker)),
        _ => Ok(None),
    }
}

// The slot of the label at place `due` that three words write, if they do.
fn slot_of<'a>(
    labels: &[Label],
    places: &BTreeMap<&'a str, u32>,
    due: usize,
    id: &str,
    until: &str,
    blocker: &'a str,
) -> Option<Slot>
    requires { FindsPlaces labels.now places.now }
    ensures { IsWordsAnswer labels.now due id.now until.now blocker.now result }
{
    if due >= labels.len() || labels[due].id().as_str() != id {
        return None;
    }
    let until = Ratio::read(until)?;
    let blocker = read_blocker(labels, places, blocker)?;
    Some(Slot { until, blocker })
}

// The blocker that a word writes, if it writes one.
fn read_blocker<'a>(
    labels: &[Label],
    places: &BTreeMap<&'a str, u32>,
    word: &'a str,
) -> Option<Option<u32>>
    requires { FindsPlaces labels.now places.now }
    ensures { IsBlockerAnswer labels.now word.now result }
{
    if word == "-" {
        return Some(None);
    }
    let place = place_of(places, word)?;
    Some(Some(place))
}
