//! The lines of the text of a state.
ghost use Rattle.std.specs.Prelude.{◌≡◌, ◌++◌, ◌∷◌, flat_map, IfOk, OnOk, string_bytes};
ghost use Rattle.ml_follow.specs.StateText.{box_text, blocker_text, row_line as spec_row_line, head_line as spec_head_line, row_words, place_words, end_words};
ghost use Rattle.ml_ratio.specs.Ratio.{ratio_text};

use ml_cone::{BoxPx, Label, Slot};
use ml_watch::id_text;
use std::alloc::{AllocError, Global};

/// The first line: the revision and the number of labels.
///
/// # Errors
/// Out of memory.
pub fn head_line(alloc: Global, rev: u64, count: u32) -> Result<String, AllocError>
    ensures { IfOk result (λ line. string_bytes line ≡ spec_head_line rev count) }
{
    format!(in alloc; "state {rev} {count}\n")
}

/// The line of a label with its slot.
///
/// # Errors
/// Out of memory.
pub fn row_line(alloc: Global, label: &Label, slot: Slot) -> Result<Vec<u8>, AllocError>
    ensures { IfOk result (λ line. line.items ≡ spec_row_line label.now slot) }
{
    let id = id_text(alloc, label.id())?;
    let words = words_of(alloc, label, slot)?;
    let mut line = id.into_vec();
    line.extend_from_slice(words.as_bytes())?;
    push_boxes(alloc, &mut line, label.boxes().as_slice())?;
    line.extend_from_slice(b"\n")?;
    Ok(line)
}

// The words between the id and the boxes, each behind a blank.
fn words_of(alloc: Global, label: &Label, slot: Slot) -> Result<String, AllocError>
    ensures { IfOk result (λ words. string_bytes words ≡ row_words label.now slot) }
{
    let mut words = label_words(alloc, label)?;
    let more = slot_words(alloc, label.margin(), slot)?;
    words.push_str(more.as_str())?;
    Ok(words)
}

// The words of a label's anchor and selectable range, each behind a blank.
fn label_words(alloc: Global, label: &Label) -> Result<String, AllocError>
    ensures { IfOk result (λ words. string_bytes words ≡ place_words label.now.x label.now.y
        (ratio_text label.now.min) (ratio_text label.now.max)) }
{
    let min = label.min().text(alloc)?;
    let max = label.max().text(alloc)?;
    four_words(alloc, label.x(), label.y(), min.as_str(), max.as_str())
}

// Four words, each behind a blank.
fn four_words(alloc: Global, x: i64, y: i64, min: &str, max: &str) -> Result<String, AllocError>
    ensures { IfOk result (λ words. string_bytes words ≡ place_words x y min.now max.now) }
{
    format!(in alloc; " {x} {y} {min} {max}")
}

// The words of a margin and a slot, each behind a blank.
fn slot_words(alloc: Global, margin: u32, slot: Slot) -> Result<String, AllocError>
    ensures { IfOk result (λ words.
        string_bytes words ≡ end_words margin (ratio_text slot.until) (blocker_text slot.blocker)) }
{
    let until = slot.until.text(alloc)?;
    let blocker = blocker_word(alloc, slot.blocker)?;
    three_words(alloc, margin, until.as_str(), blocker.as_str())
}

// Three words, each behind a blank.
fn three_words(alloc: Global, margin: u32, until: &str, blocker: &str) -> Result<String, AllocError>
    ensures { IfOk result (λ words. string_bytes words ≡ end_words margin until.now blocker.now) }
{
    format!(in alloc; " {margin} {until} {blocker}")
}

// A blocker's place, or `-` for none.
fn blocker_word(alloc: Global, blocker: Option<u32>) -> Result<String, AllocError>
    ensures { IfOk result (λ word. string_bytes word ≡ blocker_text blocker) }
{
    match blocker {
        Some(place) => format!(in alloc; "{place}"),
        None => String::from_str(alloc, "-"),
    }
}

// Appends boxes, each behind a blank.
fn push_boxes(alloc: Global, line: &mut Vec<u8>, boxes: &[BoxPx]) -> Result<(), AllocError>
    ensures { OnOk result
        (line.new.items ≡ line.old.items ++ flat_map (λ p. 32 ∷ box_text p) boxes.now) }
{
    for p in boxes {
        let word = box_word(alloc, p)?;
        line.extend_from_slice(word.as_bytes())?;
    }
    Ok(())
}

// A box behind a blank.
fn box_word(alloc: Global, p: &BoxPx) -> Result<String, AllocError>
    ensures { IfOk result (λ word. string_bytes word ≡ 32 ∷ box_text p.now) }
{
    let (l, b, r, t) = (p.l, p.b, p.r, p.t);
    format!(in alloc; " {l},{b},{r},{t}")
}
