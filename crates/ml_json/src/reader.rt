//! Bytes to a value.
ghost use Rattle.std.specs.Prelude.{◌≡◌, ℕ, IfOk, option_map};
ghost use Rattle.ml_ratio.specs.Refusal.{RefusesExactly};
ghost use Rattle.ml_json.specs.Tree.{Tree};
ghost use Rattle.ml_json.specs.Machine.{finish as spec_finish};
ghost use Rattle.ml_json.specs.State.{mode_of, frames_of};
ghost use Rattle.ml_json.specs.View.{tree_of};
ghost use Rattle.ml_json.specs.Lent.{lent_of};
ghost use Rattle.ml_json.specs.Canonical.{IsWritable};
ghost use Rattle.ml_json.specs.Answer.{Answers, IsText, IsNotJson, IsDeep, GivesTree};

use crate::copies::copy_value;
use crate::leaps::leap;
use crate::lent::{Lent, LentText};
use crate::machine::advance;
use crate::state::{Frame, Mode, Stop};
use crate::tokens::may_end;
use crate::value::{Json, JsonFault};
use std::alloc::{AllocError, Global};

// The value, where the bytes may end here.
fn finish<'a>(frames: Vec<Frame<'a>>, mode: Mode<'a>) -> Option<Lent<'a>>
    ensures { option_map lent_of result
        ≡ spec_finish (mode_of mode.entry) (frames_of frames.entry.items) }
{
    if !frames.is_empty() {
        return None;
    }
    match mode {
        Mode::After(value) => Some(value),
        Mode::Number(part, text) => if may_end(part) {
            Some(Lent::Num(LentText::of_string(text)))
        } else {
            None
        },
        _ => None,
    }
}

/// Reads JSON text (RFC 8259) in UTF-8, of at most 64 lists and maps within one another.
///
/// The three bytes EF BB BF may stand before it. A number is kept as its text. An escaped surrogate
/// that has no other half is U+FFFD. Of equal keys of a map, compared once their escapes are read,
/// the last one's value is kept. Time is linear in the bytes, but for keys, which are sorted.
///
/// # Errors
/// [`JsonFault::NotJson`] at the first byte with which no text begins, or at the end of bytes that are
/// none; [`JsonFault::Deep`] at the byte that opens a 65th list or map; out of memory.
pub fn read(alloc: Global, bytes: &[u8]) -> Result<Json, JsonFault>
    ensures ok { IfOk result (λ value. IsText bytes.now (tree_of value)) }
    ensures writable { IfOk result (λ value. IsWritable (tree_of value)) }
    ensures text { (tree : Tree) → IsText bytes.now tree → GivesTree tree_of result tree }
    ensures not_json { (at : ℕ) →
        RefusesExactly result (JsonFault.NotJson at) JsonFault.Memory (IsNotJson bytes.now at) }
    ensures deep { (at : ℕ) →
        RefusesExactly result (JsonFault.Deep at) JsonFault.Memory (IsDeep bytes.now at) }
{
    scan_and_copy(alloc, bytes)
}

/// Reads JSON text as [`read`] does, and borrows from the bytes what it takes as whole tokens: strings of
/// plain ASCII, and numbers in a list or a map.
///
/// # Errors
/// Those of [`read`].
pub fn lend<'a>(alloc: Global, bytes: &'a [u8]) -> Result<Lent<'a>, JsonFault>
    ensures ok { IfOk result (λ value. IsText bytes.now (lent_of value)) }
    ensures writable { IfOk result (λ value. IsWritable (lent_of value)) }
    ensures text { (tree : Tree) → IsText bytes.now tree → GivesTree lent_of result tree }
    ensures not_json { (at : ℕ) →
        RefusesExactly result (JsonFault.NotJson at) JsonFault.Memory (IsNotJson bytes.now at) }
    ensures deep { (at : ℕ) →
        RefusesExactly result (JsonFault.Deep at) JsonFault.Memory (IsDeep bytes.now at) }
{
    scan(alloc, bytes)
}

// Reads bytes and copies the texts of what is lent.
fn scan_and_copy(alloc: Global, bytes: &[u8]) -> Result<Json, JsonFault>
    ensures { Answers tree_of result bytes.now }
{
    match scan(alloc, bytes) {
        Ok(lent) => match copy_value(alloc, &lent) {
            Ok(value) => Ok(value),
            Err(AllocError) => Err(JsonFault::Memory),
        },
        Err(fault) => Err(fault),
    }
}

// Takes whole tokens where they are plain, else the bytes one by one.
fn scan<'a>(alloc: Global, bytes: &'a [u8]) -> Result<Lent<'a>, JsonFault>
    ensures { Answers lent_of result bytes.now }
{
    let mut frames = Vec::new(alloc);
    let mut mode = Mode::Begin;
    let mut rest = bytes;
    while let [byte, next @ ..] = rest {
        match leap(alloc, &mut frames, &mut mode, rest) {
            Ok(left) => {
                if left.len() < rest.len() {
                    rest = left;
                    continue;
                }
            }
            Err(AllocError) => return Err(JsonFault::Memory),
        }
        match advance(alloc, &mut frames, &mut mode, *byte) {
            Ok(()) => rest = next,
            Err(Stop::Memory) => return Err(JsonFault::Memory),
            Err(Stop::NotJson) => return Err(JsonFault::NotJson(bytes.len() - rest.len())),
            Err(Stop::Deep) => return Err(JsonFault::Deep(bytes.len() - rest.len())),
        }
    }
    match finish(frames, mode) {
        Some(value) => Ok(value),
        None => Err(JsonFault::NotJson(bytes.len())),
    }
}
