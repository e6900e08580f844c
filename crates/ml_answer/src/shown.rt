//! A label that a view shows, as JSON.
//!
//! What stands between the values of its members is always the same, so it is put down as it is, and
//! neither a tree of values nor a text of the label's own is made.
ghost use Rattle.std.specs.Prelude.{◌≡◌, ◌++◌, false, OnOk};
ghost use Rattle.serde_json.specs.Written.{comma_if};
ghost use Rattle.ml_answer.specs.Layout.{pair_text, sides_text, box_text, boxes_text, anchor_text};
ghost use Rattle.ml_answer.specs.Layout.{names_text, pieces_text, until_text, label_text};
ghost use Rattle.ml_answer.specs.View.{shown_text};

use crate::push::{push_byte, push_comma, push_number, push_ratio, push_string};
use crate::values::text_of;
use ml_cone::{BoxPx, Label};
use ml_ratio::Ratio;
use std::alloc::AllocError;

// Adds the text of a label that a view shows until a scale. Where it fails, some of it may stand there.
pub(crate) fn push_label(text: &mut Vec<u8>, label: &Label, until: Ratio) -> Result<(), AllocError>
    ensures { OnOk result (text.new.items ≡ text.old.items ++ shown_text label.now until) }
{
    push_members(text, label, until)
}

// The same, member by member.
fn push_members(text: &mut Vec<u8>, label: &Label, until: Ratio) -> Result<(), AllocError>
    ensures { OnOk result (text.new.items ≡ text.old.items ++ label_text label.now until) }
{
    push_anchor(text, label)?;
    push_boxes(text, label.boxes().as_slice())?;
    push_names(text, label)?;
    push_until(text, until)
}

// Adds what comes up to the boxes.
fn push_anchor(text: &mut Vec<u8>, label: &Label) -> Result<(), AllocError>
    ensures { OnOk result (text.new.items ≡ text.old.items ++ anchor_text label.now) }
{
    text.extend_from_slice(b"{\"at\":[")?;
    push_point(text, label)?;
    text.extend_from_slice(b"],\"boxes\":[")
}

// Adds the coordinates of the anchor.
fn push_point(text: &mut Vec<u8>, label: &Label) -> Result<(), AllocError>
    ensures { OnOk result (text.new.items ≡ text.old.items ++ pair_text label.now.x label.now.y) }
{
    push_pair(text, label.x(), label.y())
}

// Adds two whole numbers with a comma between them.
fn push_pair(text: &mut Vec<u8>, one: i64, other: i64) -> Result<(), AllocError>
    ensures { OnOk result (text.new.items ≡ text.old.items ++ pair_text one other) }
{
    push_number(text, one)?;
    text.push(b',')?;
    push_number(text, other)
}

// Adds boxes and the end of their list.
fn push_boxes(text: &mut Vec<u8>, boxes: &[BoxPx]) -> Result<(), AllocError>
    ensures { OnOk result (text.new.items ≡ text.old.items ++ boxes_text false boxes.now) }
{
    let mut later = false;
    for p in boxes {
        push_next(text, later, p)?;
        later = true;
    }
    push_byte(text, b']')
}

// Adds a box, behind a comma where others stand before it.
fn push_next(text: &mut Vec<u8>, later: bool, p: &BoxPx) -> Result<(), AllocError>
    ensures { OnOk result (text.new.items ≡ text.old.items ++ (comma_if later ++ box_text p.now)) }
{
    push_comma(text, later)?;
    push_box(text, p)
}

// Adds a box.
fn push_box(text: &mut Vec<u8>, p: &BoxPx) -> Result<(), AllocError>
    ensures { OnOk result (text.new.items ≡ text.old.items ++ box_text p.now) }
{
    text.push(b'[')?;
    push_sides(text, p)?;
    push_byte(text, b']')
}

// Adds the four sides of a box.
fn push_sides(text: &mut Vec<u8>, p: &BoxPx) -> Result<(), AllocError>
    ensures { OnOk result (text.new.items ≡ text.old.items ++ sides_text p.now) }
{
    push_low(text, p)?;
    text.push(b',')?;
    push_high(text, p)
}

// Adds the left and the bottom side of a box.
fn push_low(text: &mut Vec<u8>, p: &BoxPx) -> Result<(), AllocError>
    ensures { OnOk result (text.new.items ≡ text.old.items ++ pair_text p.now.l p.now.b) }
{
    push_pair(text, i64::from(p.l), i64::from(p.b))
}

// Adds the right and the top side of a box.
fn push_high(text: &mut Vec<u8>, p: &BoxPx) -> Result<(), AllocError>
    ensures { OnOk result (text.new.items ≡ text.old.items ++ pair_text p.now.r p.now.t) }
{
    push_pair(text, i64::from(p.r), i64::from(p.t))
}

// Adds the id and the text.
fn push_names(text: &mut Vec<u8>, label: &Label) -> Result<(), AllocError>
    ensures { OnOk result (text.new.items ≡ text.old.items ++ names_text label.now) }
{
    text.extend_from_slice(b",\"id\":")?;
    push_string(text, label.id().as_str())?;
    push_pieces(text, label)
}

// Adds the text, which is that of the pieces.
fn push_pieces(text: &mut Vec<u8>, label: &Label) -> Result<(), AllocError>
    ensures { OnOk result (text.new.items ≡ text.old.items ++ pieces_text label.now) }
{
    let pieces = text_of(*text.allocator(), label.pieces().as_slice())?;
    text.extend_from_slice(b",\"text\":")?;
    push_string(text, pieces.as_str())
}

// Adds the scale from which on the label is not shown, and the end.
fn push_until(text: &mut Vec<u8>, until: Ratio) -> Result<(), AllocError>
    ensures { OnOk result (text.new.items ≡ text.old.items ++ until_text until) }
{
    text.extend_from_slice(b",\"until\":")?;
    push_ratio(text, until)?;
    push_byte(text, b'}')
}
