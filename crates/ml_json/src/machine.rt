//! One step of the reader.
ghost use Rattle.std.specs.Prelude.{◌≤◌};
ghost use Rattle.ml_json.specs.Machine.{open_of, step as spec_step};
ghost use Rattle.ml_json.specs.State.{Advances, Steps, mode_of, frames_of};

use crate::brackets::{after_next, first_next, value_next};
use crate::members::{colon_next, first_key_next, key_next};
use crate::state::{Frame, Mode, Stop};
use crate::strings::{bytes_next, escape_next, hex_next, push_plain, text_next};
use crate::tokens::{number_next, push_number_digit, word_next};
use std::alloc::Global;
use std::mem;

/// Takes one byte more. Characters of strings and digits are pushed in place, and the mode, which is
/// large, is not moved. Behind an error the mode says nothing.
pub fn advance<'a>(
    alloc: Global,
    frames: &mut Vec<Frame<'a>>,
    mode: &mut Mode<'a>,
    byte: u8,
) -> Result<(), Stop>
    requires { open_of (mode_of mode.old) (frames_of frames.old.items) ≤ 64 }
    ensures { Advances result mode.new frames.new.items
        (spec_step (mode_of mode.old) (frames_of frames.old.items) byte) }
{
    if push_plain(mode, byte)? || push_number_digit(mode, byte)? {
        return Ok(());
    }
    let before = mem::replace(mode, Mode::Begin);
    *mode = step(alloc, frames, before, byte)?;
    Ok(())
}

/// The mode behind one byte more, and the lists and maps that are open then.
#[tactic(auto, using(crate::proofs::FrameLemmas::frames_length), unfolding(crate::specs::Machine::open_of, crate::specs::Machine::step))]
pub fn step<'a>(
    alloc: Global,
    frames: &mut Vec<Frame<'a>>,
    mode: Mode<'a>,
    byte: u8,
) -> Result<Mode<'a>, Stop>
    requires { open_of (mode_of mode) (frames_of frames.old.items) ≤ 64 }
    ensures { Steps result frames.new.items
        (spec_step (mode_of mode.entry) (frames_of frames.old.items) byte) }
{
    match mode {
        Mode::Begin => if byte == 0xEF {
            Ok(Mode::MarkTwo)
        } else {
            value_next(alloc, frames, byte)
        },
        Mode::MarkTwo => if byte == 0xBB {
            Ok(Mode::MarkOne)
        } else {
            Err(Stop::NotJson)
        },
        Mode::MarkOne => if byte == 0xBF {
            Ok(Mode::Value)
        } else {
            Err(Stop::NotJson)
        },
        Mode::Value => value_next(alloc, frames, byte),
        Mode::First => first_next(alloc, frames, byte),
        Mode::FirstKey => first_key_next(alloc, byte),
        Mode::Key(members) => key_next(alloc, members, byte),
        Mode::Colon(members, key) => colon_next(members, key, frames, byte),
        Mode::After(value) => after_next(alloc, frames, value, byte),
        Mode::Text(text) => text_next(alloc, text, byte),
        Mode::Escape(text) => escape_next(text, byte),
        Mode::Hex(text, code) => hex_next(text, code, byte),
        Mode::Bytes(text, partial) => bytes_next(text, partial, byte),
        Mode::Number(part, text) => number_next(alloc, frames, part, text, byte),
        Mode::Word(word) => word_next(word, byte),
    }
}
