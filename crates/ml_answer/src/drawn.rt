//! A label drawn in a view: a line for each of its boxes.
ghost use Rattle.std.specs.Prelude.{◌≡◌, ◌++◌, IfOk, OnOk, string_bytes};
ghost use Rattle.ml_answer.specs.Svg.{box_tag, box_line, label_lines, text_tag};

use crate::escape::push_escaped;
use crate::place::{bottom_of, extent, left_of};
use crate::px::write_px;
use ml_cone::{BoxPx, Label, View};
use std::alloc::{AllocError, Global};

// The lines of a label.
pub(crate) fn lines_of(alloc: Global, view: &View, label: &Label) -> Result<Vec<u8>, AllocError>
    ensures { IfOk result (λ lines. lines.items ≡ label_lines view.now label.now) }
{
    let mut lines = Vec::new(alloc);
    let boxes = label.boxes().as_slice();
    let pieces = label.pieces().as_slice();
    for i in 0..boxes.len() {
        push_line(&mut lines, view, label, &boxes[i], pieces[i].as_str())?;
    }
    Ok(lines)
}

// Adds the line of a box and its piece of text.
fn push_line(
    lines: &mut Vec<u8>,
    view: &View,
    label: &Label,
    p: &BoxPx,
    piece: &str,
) -> Result<(), AllocError>
    ensures { OnOk result
        (lines.new.items ≡ lines.old.items ++ box_line view.now label.now p.now piece.now) }
{
    let tag = box_tag(*lines.allocator(), view, label, p)?;
    lines.extend_from_slice(tag.as_bytes())?;
    push_escaped(lines, piece)?;
    lines.extend_from_slice(b"</text>\n")
}

// The tag of a box.
fn box_tag(alloc: Global, view: &View, label: &Label, p: &BoxPx) -> Result<String, AllocError>
    ensures { IfOk result (λ tag. string_bytes tag ≡ box_tag view.now label.now p.now) }
{
    let x = write_px(alloc, left_of(view, label, p))?;
    let y = write_px(alloc, bottom_of(view, label, p))?;
    let height = extent(p.b, p.t);
    let width = extent(p.l, p.r);
    tag_of(alloc, x.as_str(), y.as_str(), height, width)
}

// The tag of a text that begins at `x` and `y`, and is so many pixels high and wide.
fn tag_of(alloc: Global, x: &str, y: &str, height: i64, width: i64) -> Result<String, AllocError>
    ensures { IfOk result (λ tag. string_bytes tag ≡ text_tag x.now y.now height width) }
{
    format!(in alloc; "<text x=\"{x}\" y=\"{y}\" font-size=\"{height}\" textLength=\"{width}\">")
}
