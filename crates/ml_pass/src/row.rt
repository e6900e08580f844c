//! One line of a label table.
ghost use Rattle.std.specs.Prelude.{ℕ, ℤ, Some, ◌≡◌, ◌<◌, ◌≤◌, ◌-◌, ◌↔◌, ◌∷◌, [], List, IsTrue, IfOk, MatchOption, All, length, map, replicate};
ghost use Rattle.std.specs.List.{AllZip};
ghost use Rattle.ml_cone.specs.declared.label.BoxPx.{BoxPx};
ghost use Rattle.ml_ratio.specs.Number.{whole_number};
ghost use Rattle.ml_cone.specs.Plane.{IsOffset};
ghost use Rattle.ml_pass.specs.Row.{IsId, WritesBox, ReadsBox, IsRowOf, IsLabelWritten};

use ml_cone::{BoxPx, Label, Order};
use ml_ratio::lines::parts_of;
use ml_ratio::{Ratio, Seq, Text, read_whole};
use std::alloc::{AllocError, Global};

/// The label of class `place` that a line writes, as `A 400 0 0 1000 -10,-5,10,5`: an id, the
/// anchor, the selectable range and 1 to 64 boxes, with one space between. Its margin is 0. Its id
/// in the line comes with it.
///
/// None where the line is no such text.
///
/// # Errors
/// Out of memory.
pub fn read_row<'a>(
    alloc: Global,
    line: &'a [u8],
    place: u32,
) -> Result<Option<(&'a str, Label)>, AllocError>
    ensures { IfOk result (λ answer. IsRowOf line.now place answer) }
{
    let Ok(text) = std::str::from_utf8(line) else {
        return Ok(None);
    };
    let fields = parts_of(alloc, text, ' ')?;
    match fields.as_slice() {
        [id, x, y, min, max, boxes @ ..] => {
            let fields = Fields {
                id,
                x,
                y,
                min,
                max,
                boxes,
            };
            let label = read_label(alloc, place, &fields)?;
            Ok(label.map(|label| (*id, label)))
        }
        _ => Ok(None),
    }
}

// The fields of a line.
#[derive(Clone, Copy)]
struct Fields<'a> {
    id: &'a str,
    x: &'a str,
    y: &'a str,
    min: &'a str,
    max: &'a str,
    boxes: &'a [&'a str],
}

// The label of class `place` that the fields write; none where they write no label.
fn read_label(alloc: Global, place: u32, fields: &Fields<'_>) -> Result<Option<Label>, AllocError>
    ensures { IfOk result (λ answer. IsLabelWritten fields.now.id.now
        fields.now.x.now fields.now.y.now fields.now.min.now fields.now.max.now
        (map (λ part. part.now) fields.now.boxes.now) place answer) }
{
    if !is_id(fields.id) {
        return Ok(None);
    }
    let (Some(x), Some(y)) = (read_whole(fields.x), read_whole(fields.y)) else {
        return Ok(None);
    };
    let (Some(min), Some(max)) = (Ratio::read(fields.min), Ratio::read(fields.max)) else {
        return Ok(None);
    };
    let Some(boxes) = read_boxes(alloc, fields.boxes)? else {
        return Ok(None);
    };
    let pieces = pieces_of(alloc, fields.id, boxes.len())?;
    let id = Text::of(alloc, fields.id)?;
    let order = Order {
        class: place,
        rank: 0,
        id,
    };
    Ok(Label::of(order, x, y, boxes, pieces, min, max, 0))
}

/// The id as the first piece of text of `count` boxes, and an empty piece for each further box.
///
/// # Errors
/// Out of memory.
pub fn pieces_of(alloc: Global, id: &str, count: usize) -> Result<Seq<Text>, AllocError>
    ensures { IfOk result (λ pieces. pieces ≡ id.now ∷ replicate (count - 1) []) }
{
    let mut pieces = Seq::new(alloc);
    pieces.push(Text::of(alloc, id)?)?;
    for _piece in 1..count {
        pieces.push(Text::of(alloc, "")?)?;
    }
    Ok(pieces)
}

// Whether every byte is a printing ASCII character.
fn are_printing(bytes: &[u8]) -> bool
    ensures { IsTrue result ↔ All (λ byte. (33 ≤ byte) × (byte ≤ 126)) bytes.now }
{
    for byte in bytes {
        if *byte < 33 || *byte > 126 {
            return false;
        }
    }
    true
}

// Whether the text is an id.
fn is_id(id: &str) -> bool
    ensures { IsTrue result ↔ IsId id.now }
{
    let sized = !id.is_empty() && id.len() <= 64;
    sized && id != "-" && are_printing(id.as_bytes())
}

/// The boxes that the texts write, as `-10,-5,10,5`, one each; none where one of them writes no box.
///
/// # Errors
/// Out of memory.
pub fn read_boxes(alloc: Global, texts: &[&str]) -> Result<Option<Seq<BoxPx>>, AllocError>
    ensures { IfOk result (λ answer. MatchOption answer
        ((boxes : List BoxPx) → ¬ (AllZip ReadsBox (map (λ p. p.now) texts.now) boxes))
        (λ boxes. AllZip ReadsBox (map (λ p. p.now) texts.now) boxes)) }
{
    let mut boxes = Seq::new(alloc);
    for text in texts {
        match read_box(alloc, text)? {
            Some(p) => boxes.push(p)?,
            None => return Ok(None),
        }
    }
    Ok(Some(boxes))
}

// The box that a text writes; none where it writes no box.
fn read_box(alloc: Global, text: &str) -> Result<Option<BoxPx>, AllocError>
    ensures { IfOk result (λ answer.
        MatchOption answer ((p : BoxPx) → ¬ (ReadsBox text.now p)) (λ p. ReadsBox text.now p)) }
{
    let offsets = parts_of(alloc, text, ',')?;
    match offsets.as_slice() {
        [l, b, r, t] => Ok(box_of(l, b, r, t)),
        _ => Ok(None),
    }
}

// The box that the four texts write; none where they write no box.
fn box_of(l: &str, b: &str, r: &str, t: &str) -> Option<BoxPx>
    ensures { MatchOption result ((p : BoxPx) → ¬ (WritesBox l.now b.now r.now t.now p))
        (λ p. WritesBox l.now b.now r.now t.now p) }
{
    let (Some(l), Some(r)) = (read_offset(l), read_offset(r)) else {
        return None;
    };
    let (Some(b), Some(t)) = (read_offset(b), read_offset(t)) else {
        return None;
    };
    if l < r && b < t {
        Some(BoxPx { l, b, r, t })
    } else {
        None
    }
}

// The offset that the text writes; none where it is no whole number in -512..=512.
fn read_offset(text: &str) -> Option<i32>
    ensures { MatchOption result ((u : ℤ) → whole_number text.now ≡ Some u → ¬ (IsOffset u))
        (λ u. (whole_number text.now ≡ Some u) × IsOffset u) }
{
    match read_whole(text) {
        Some(u) => {
            if -512 <= u && u <= 512 {
                Some(u as i32)
            } else {
                None
            }
        }
        None => None,
    }
}
