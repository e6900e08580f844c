//! The line of a label with its slot.
ghost use Rattle.std.specs.Prelude.{◌≤◌, ◌<◌, length, map, IfOk, MatchOption};
ghost use Rattle.ml_ratio.specs.Limits.{most_labels};
ghost use Rattle.ml_follow.specs.Reading.{AreWords, IsBlockerAnswer, IsMarginAnswer, IsSlotAnswer, IsLabelAnswer, IsRowWritten, IsRowAnswer};

use ml_cone::{Label, Order, Slot};
use ml_pass::laws::one_list;
use ml_pass::{pieces_of, read_boxes};
use ml_ratio::lines::parts_of;
use ml_ratio::number::read_up_to;
use ml_ratio::{Ratio, read_whole};
use ml_watch::laws::one_spelling;
use ml_watch::read_id;
use std::alloc::{AllocError, Global};

/// The label at `place` of `count` labels and its slot that a line writes, as
/// `B 400 0 0/1 1000/1 0 20/1 0 -10,-5,10,5`: an id as it stands in the line of a change, the anchor,
/// the selectable range, the margin, the end, the place of the blocker or `-`, and 1 to 64 boxes, with
/// one space between.
///
/// None where the line is no such text.
///
/// # Errors
/// Out of memory.
pub fn read_row(
    alloc: Global,
    line: &[u8],
    place: u32,
    count: usize,
) -> Result<Option<(Label, Slot)>, AllocError>
    requires { count ≤ most_labels }
    ensures { IfOk result (λ answer. IsRowAnswer line.now place count answer) }
{
    let Ok(text) = std::str::from_utf8(line) else {
        return Ok(None);
    };
    let words = parts_of(alloc, text, ' ')?;
    match words_in(words.as_slice()) {
        Some(words) => row_of(alloc, place, count, &words),
        None => Ok(None),
    }
}

// The words of a line.
#[derive(Clone, Copy)]
struct Words<'a> {
    id: &'a str,
    x: &'a str,
    y: &'a str,
    min: &'a str,
    max: &'a str,
    margin: &'a str,
    until: &'a str,
    blocker: &'a str,
    boxes: &'a [&'a str],
}

// The words by what they are; none where they are fewer than eight.
fn words_in<'a>(words: &'a [&'a str]) -> Option<Words<'a>>
    ensures { MatchOption result (length words.now < 8)
        (AreWords (map (λ part. part.now) words.now)) }
{
    match words {
        [id, x, y, min, max, margin, until, blocker, boxes @ ..] => Some(Words {
            id,
            x,
            y,
            min,
            max,
            margin,
            until,
            blocker,
            boxes,
        }),
        _ => None,
    }
}

// The label at `place` of `count` labels and its slot that the words write; none where they write none.
fn row_of(
    alloc: Global,
    place: u32,
    count: usize,
    words: &Words<'_>,
) -> Result<Option<(Label, Slot)>, AllocError>
    requires { count ≤ most_labels }
    ensures { IfOk result (λ answer. IsRowWritten words.now.id.now
        words.now.x.now words.now.y.now words.now.min.now words.now.max.now
        words.now.margin.now words.now.until.now words.now.blocker.now
        (map (λ part. part.now) words.now.boxes.now) place count answer) }
{
    let Some(slot) = slot_of(words.until, words.blocker, count) else {
        return Ok(None);
    };
    match label_of(alloc, place, words)? {
        Some(label) => Ok(Some((label, slot))),
        None => Ok(None),
    }
}

// The slot of one of `count` labels that two words write; none where they write none.
fn slot_of(until: &str, blocker: &str, count: usize) -> Option<Slot>
    requires { count ≤ most_labels }
    ensures { IsSlotAnswer until.now blocker.now count result }
{
    let until = Ratio::read(until)?;
    let blocker = blocker_of(blocker, count)?;
    Some(Slot { until, blocker })
}

// The blocker that a word writes, a place below `count` or `-` for none; none where it writes none.
fn blocker_of(word: &str, count: usize) -> Option<Option<u32>>
    requires { count ≤ most_labels }
    ensures { IsBlockerAnswer count word.now result }
{
    if word == "-" {
        return Some(None);
    }
    let place = read_up_to(5, word)?;
    if place < count as u64 {
        Some(Some(place as u32))
    } else {
        None
    }
}

// The label at `place` that the words write; none where they write none.
fn label_of(alloc: Global, place: u32, words: &Words<'_>) -> Result<Option<Label>, AllocError>
    ensures { IfOk result (λ answer. IsLabelAnswer words.now.id.now
        words.now.x.now words.now.y.now words.now.min.now words.now.max.now
        words.now.margin.now (map (λ part. part.now) words.now.boxes.now) place answer) }
{
    one_spelling();
    one_list();
    let (Some(x), Some(y)) = (read_whole(words.x), read_whole(words.y)) else {
        return Ok(None);
    };
    let (Some(min), Some(max)) = (Ratio::read(words.min), Ratio::read(words.max)) else {
        return Ok(None);
    };
    let Some(margin) = margin_of(words.margin) else {
        return Ok(None);
    };
    let Some(id) = read_id(alloc, words.id)? else {
        return Ok(None);
    };
    let Some(boxes) = read_boxes(alloc, words.boxes)? else {
        return Ok(None);
    };
    let pieces = pieces_of(alloc, id.as_str(), boxes.len())?;
    let order = Order {
        class: place,
        rank: 0,
        id,
    };
    Ok(Label::of(order, x, y, boxes, pieces, min, max, margin))
}

// The margin that a word writes, a whole number from 0 to 64; none where it writes none.
fn margin_of(word: &str) -> Option<u32>
    ensures { IsMarginAnswer word.now result }
{
    match read_whole(word) {
        Some(margin) => {
            if 0 <= margin && margin <= 64 {
                Some(margin as u32)
            } else {
                None
            }
        }
        None => None,
    }
}
