//! Leaps over whole tokens: plain scalars with the byte that ends them, opening brackets, and plain keys
//! with their colon. Most of a text is made of these. What is no such token is left to the single steps
//! of [`crate::machine`], and what stands here reads the same as they do.
ghost use Rattle.std.specs.Prelude.{◌≡◌, ◌≤◌, ◌∷◌, ◌↔◌, IfOk, IfSome, IsTrue, length};
ghost use Rattle.ml_json.specs.Machine.{value, first, open_of, after_step};
ghost use Rattle.ml_json.specs.State.{mode_of, frame_of, frames_of, GoesTo};
ghost use Rattle.ml_json.specs.Lent.{lent_of};
ghost use Rattle.ml_json.specs.Leaps.{IsTaken, TakesByte, Leaps};

use crate::brackets::after_next;
use crate::lent::Lent;
use crate::members::no_members;
use crate::plain::{behind, plain_number, plain_scalar, plain_string, skip_space};
use crate::state::{Frame, Mode, Stop};
use std::alloc::{AllocError, Global};
use std::mem;

// Whether the list or map goes on by the byte behind a value, or ends by it.
fn takes<'a>(frame: &Frame<'a>, byte: u8) -> bool
    ensures { IsTrue result ↔ IsTaken (frame_of frame.now) byte }
{
    let end = match frame {
        Frame::List(_) => b']',
        Frame::Map(_, _) => b'}',
    };
    byte == b',' || byte == end
}

// Whether the innermost list or map takes the byte.
fn closes<'a>(frames: &Vec<Frame<'a>>, byte: u8) -> bool
    ensures { IsTrue result ↔ TakesByte (frames_of frames.now.items) byte }
{
    match frames.last() {
        Some(frame) => takes(frame, byte),
        None => false,
    }
}

// The byte behind a value, where the innermost list or map takes it, and what follows the byte.
fn closing<'a>(frames: &Vec<Frame<'a>>, end: &'a [u8]) -> Option<(u8, &'a [u8])>
    ensures cut { IfSome result (λ cut. end.now ≡ cut.0 ∷ cut.1.now) }
    ensures takes { IfSome result (λ cut. TakesByte (frames_of frames.now.items) cut.0) }
{
    let [byte, rest @ ..] = end else {
        return None;
    };
    if closes(frames, *byte) {
        return Some((*byte, rest));
    }
    None
}

// The mode behind a value and a byte that the innermost list or map takes.
fn close<'a>(
    alloc: Global,
    frames: &mut Vec<Frame<'a>>,
    value: Lent<'a>,
    byte: u8,
) -> Result<Mode<'a>, AllocError>
    requires shallow { length frames.old.items ≤ 64 }
    requires takes { TakesByte (frames_of frames.old.items) byte }
    ensures { IfOk result (λ mode. GoesTo mode frames.new.items
        (after_step (lent_of value.entry) (frames_of frames.old.items) byte)) }
{
    match after_next(alloc, frames, value, byte) {
        Ok(mode) => Ok(mode),
        Err(Stop::Memory) => Err(AllocError),
        Err(Stop::NotJson) => unreachable!(),
        Err(Stop::Deep) => unreachable!(),
    }
}

// Where a value is awaited: takes a plain scalar and the byte behind it.
fn leap_scalar<'a>(
    alloc: Global,
    frames: &mut Vec<Frame<'a>>,
    mode: &mut Mode<'a>,
    bytes: &'a [u8],
) -> Result<&'a [u8], AllocError>
    requires value { mode_of mode.old ≡ value }
    requires shallow { open_of (mode_of mode.old) (frames_of frames.old.items) ≤ 64 }
    ensures { IfOk result (Leaps mode.old frames.old.items bytes.now mode.new frames.new.items) }
{
    let Some((value, end)) = plain_scalar(bytes) else {
        return Ok(bytes);
    };
    let Some((byte, rest)) = closing(frames, end) else {
        return Ok(bytes);
    };
    *mode = close(alloc, frames, value, byte)?;
    Ok(rest)
}

// Where a value is awaited: takes the opening bracket of a list or map, unless 64 are open.
fn leap_open<'a>(frames: &Vec<Frame<'a>>, mode: &mut Mode<'a>, bytes: &'a [u8]) -> &'a [u8]
    requires { mode_of mode.old ≡ value }
    ensures { Leaps mode.old frames.now.items bytes.now mode.new frames.now.items result }
{
    let [first, rest @ ..] = bytes else {
        return bytes;
    };
    if frames.len() >= 64 {
        return bytes;
    }
    match *first {
        b'{' => *mode = Mode::FirstKey,
        b'[' => *mode = Mode::First,
        _ => return bytes,
    }
    rest
}

// Where a value is awaited: takes white space, and the plain scalar or opening bracket behind it.
fn leap_value<'a>(
    alloc: Global,
    frames: &mut Vec<Frame<'a>>,
    mode: &mut Mode<'a>,
    bytes: &'a [u8],
) -> Result<&'a [u8], AllocError>
    requires value { mode_of mode.old ≡ value }
    requires shallow { open_of (mode_of mode.old) (frames_of frames.old.items) ≤ 64 }
    ensures { IfOk result (Leaps mode.old frames.old.items bytes.now mode.new frames.new.items) }
{
    let bytes = skip_space(bytes);
    match bytes {
        [b'{' | b'[', ..] => Ok(leap_open(frames, mode, bytes)),
        _ => leap_scalar(alloc, frames, mode, bytes),
    }
}

// Where a key may come: takes a plain key and its colon.
fn leap_key<'a>(
    alloc: Global,
    frames: &mut Vec<Frame<'a>>,
    mode: &mut Mode<'a>,
    bytes: &'a [u8],
) -> Result<&'a [u8], AllocError>
    requires { open_of (mode_of mode.old) (frames_of frames.old.items) ≤ 64 }
    ensures { IfOk result (Leaps mode.old frames.old.items bytes.now mode.new frames.new.items) }
{
    let Some((key, end)) = plain_string(bytes) else {
        return Ok(bytes);
    };
    let Some(rest) = behind(end, b':') else {
        return Ok(bytes);
    };
    let members = match mem::replace(mode, Mode::Value) {
        Mode::FirstKey => no_members(alloc),
        Mode::Key(members) => members,
        other => {
            *mode = other;
            return Ok(bytes);
        }
    };
    frames.push(Frame::Map(members, key))?;
    Ok(rest)
}

// Behind an opening bracket: takes a number and the comma behind it.
fn leap_first<'a>(
    alloc: Global,
    frames: &mut Vec<Frame<'a>>,
    mode: &mut Mode<'a>,
    bytes: &'a [u8],
) -> Result<&'a [u8], AllocError>
    requires first { mode_of mode.old ≡ first }
    requires shallow { open_of (mode_of mode.old) (frames_of frames.old.items) ≤ 64 }
    ensures { IfOk result (Leaps mode.old frames.old.items bytes.now mode.new frames.new.items) }
{
    let Some((text, end)) = plain_number(bytes) else {
        return Ok(bytes);
    };
    let Some(rest) = behind(end, b',') else {
        return Ok(bytes);
    };
    let mut items = Vec::new(alloc);
    items.push(Lent::Num(text))?;
    frames.push(Frame::List(items))?;
    *mode = Mode::Value;
    Ok(rest)
}

/// Takes a whole token at the front, and gives what follows it; all bytes where there is none.
///
/// # Errors
/// Out of memory, and nothing else: what is no plain token is left to the single steps.
pub fn leap<'a>(
    alloc: Global,
    frames: &mut Vec<Frame<'a>>,
    mode: &mut Mode<'a>,
    bytes: &'a [u8],
) -> Result<&'a [u8], AllocError>
    requires { open_of (mode_of mode.old) (frames_of frames.old.items) ≤ 64 }
    ensures { IfOk result (Leaps mode.old frames.old.items bytes.now mode.new frames.new.items) }
{
    match mode {
        Mode::Value => leap_value(alloc, frames, mode, bytes),
        Mode::First => leap_first(alloc, frames, mode, bytes),
        Mode::FirstKey | Mode::Key(_) => leap_key(alloc, frames, mode, bytes),
        _ => Ok(bytes),
    }
}
