//! The text of a zoom timeline.
ghost use Rattle.std.specs.Prelude.{◌≡◌, ◌++◌, codes, length, IfOk, OnOk, string_bytes};
ghost use Rattle.ml_command.specs.Zoom.{stay_text, stays_text, zoom_line, zoom_lines, peak_line};

use ml_cone::Label;
use ml_flight::{Peak, Stay};
use ml_ratio::{Seq, Text};
use ml_watch::id_text;
use std::alloc::{AllocError, Global};

/// The lines of labels that have stays, as `A [1/1,20/1) (25/1,30/1)`, and the last line, as
/// `peak 3 after 40/3`.
///
/// # Errors
/// Out of memory.
pub fn zoom_text(
    alloc: Global,
    labels: &[Label],
    all: &[Seq<Stay>],
    peak: &Peak,
) -> Result<Seq<u8>, AllocError>
    requires one_each { length all.now ≡ length labels.now }
    ensures { IfOk result (λ text. text ≡ zoom_lines labels.now all.now ++ peak_line peak.now) }
{
    let mut text = lines_of(alloc, labels, all)?;
    let last = last_line(alloc, peak)?;
    text.extend_from_slice(last.as_bytes())?;
    Ok(Seq::of_vec(text))
}

// The lines of labels.
fn lines_of(alloc: Global, labels: &[Label], all: &[Seq<Stay>]) -> Result<Vec<u8>, AllocError>
    requires one_each { length all.now ≡ length labels.now }
    ensures { IfOk result (λ text. text.items ≡ zoom_lines labels.now all.now) }
{
    let mut text = Vec::new(alloc);
    for i in 0..labels.len() {
        push_line(&mut text, labels[i].id(), all[i].as_slice())?;
    }
    Ok(text)
}

// Adds the line of a label, if it has stays.
fn push_line(text: &mut Vec<u8>, id: &Text, stays: &[Stay]) -> Result<(), AllocError>
    ensures { OnOk result (text.new.items ≡ text.old.items ++ zoom_line id.now stays.now) }
{
    if stays.is_empty() {
        return Ok(());
    }
    let id = id_text(*text.allocator(), id)?;
    text.extend_from_slice(id.as_slice())?;
    push_stays(text, stays)?;
    text.push(b'\n')?;
    Ok(())
}

// Adds stays, each behind a blank.
fn push_stays(text: &mut Vec<u8>, stays: &[Stay]) -> Result<(), AllocError>
    ensures { OnOk result (text.new.items ≡ text.old.items ++ stays_text stays.now) }
{
    for stay in stays {
        let word = stay_word(*text.allocator(), stay)?;
        text.extend_from_slice(word.as_bytes())?;
    }
    Ok(())
}

// A stay behind a blank.
fn stay_word(alloc: Global, stay: &Stay) -> Result<String, AllocError>
    ensures { IfOk result (λ word. string_bytes word ≡ codes " " ++ stay_text stay.now) }
{
    let open = if stay.from_in { "[" } else { "(" };
    let from = stay.from.text(alloc)?;
    let from = from.as_str();
    let to = stay.to.text(alloc)?;
    let to = to.as_str();
    format!(in alloc; " {open}{from},{to})")
}

// The last line.
fn last_line(alloc: Global, peak: &Peak) -> Result<String, AllocError>
    ensures { IfOk result (λ line. string_bytes line ≡ peak_line peak.now) }
{
    let count = peak.count;
    let side = if peak.after { "after" } else { "at" };
    let mark = peak.mark.text(alloc)?;
    let mark = mark.as_str();
    format!(in alloc; "peak {count} {side} {mark}\n")
}
