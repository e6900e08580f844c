//! Steps within a number, `null`, `true` and `false`.
ghost use Rattle.std.specs.Prelude.{◌≡◌, ◌≤◌, ◌<◌, length, option_map, string_bytes};
ghost use Rattle.ml_json.specs.Machine.{go_on as spec_go_on, may_end as spec_may_end, word_step, number_step};
ghost use Rattle.ml_json.specs.State.{Goes, Pushes, Steps, part_of, word_of, frames_of};

use crate::brackets::after_next;
use crate::lent::{Lent, LentText};
use crate::state::{Frame, Mode, Part, Stop, Word};
use std::alloc::Global;

/// The mode behind a byte of `null`, `true` or `false`.
pub fn word_next<'a>(word: Word, byte: u8) -> Result<Mode<'a>, Stop>
    ensures { Goes result (λ st. word_step (word_of word) st byte) }
{
    match (word, byte) {
        (Word::N, b'u') => Ok(Mode::Word(Word::Nu)),
        (Word::Nu, b'l') => Ok(Mode::Word(Word::Nul)),
        (Word::Nul, b'l') => Ok(Mode::After(Lent::Null)),
        (Word::T, b'r') => Ok(Mode::Word(Word::Tr)),
        (Word::Tr, b'u') => Ok(Mode::Word(Word::Tru)),
        (Word::Tru, b'e') => Ok(Mode::After(Lent::Flag(true))),
        (Word::F, b'a') => Ok(Mode::Word(Word::Fa)),
        (Word::Fa, b'l') => Ok(Mode::Word(Word::Fal)),
        (Word::Fal, b's') => Ok(Mode::Word(Word::Fals)),
        (Word::Fals, b'e') => Ok(Mode::After(Lent::Flag(false))),
        _ => Err(Stop::NotJson),
    }
}

/// What has come of a number with the byte; none where the byte is no part of it.
pub fn go_on(part: Part, byte: u8) -> Option<Part>
    ensures { option_map part_of result ≡ spec_go_on (part_of part) byte }
{
    match (part, byte) {
        (Part::Minus, b'0') => Some(Part::Nought),
        (Part::Minus, b'1'..=b'9') | (Part::Whole, b'0'..=b'9') => Some(Part::Whole),
        (Part::Nought | Part::Whole, b'.') => Some(Part::Dot),
        (Part::Dot | Part::Digits, b'0'..=b'9') => Some(Part::Digits),
        (Part::Nought | Part::Whole | Part::Digits, b'e' | b'E') => Some(Part::Letter),
        (Part::Letter, b'+' | b'-') => Some(Part::Sign),
        (Part::Letter | Part::Sign | Part::Power, b'0'..=b'9') => Some(Part::Power),
        _ => None,
    }
}

/// Whether a number may end with what has come of it.
pub fn may_end(part: Part) -> bool
    ensures { result ≡ spec_may_end (part_of part) }
{
    match part {
        Part::Nought | Part::Whole | Part::Digits | Part::Power => true,
        Part::Minus | Part::Dot | Part::Letter | Part::Sign => false,
    }
}

/// Pushes a digit behind another one of a number's whole part or decimals, and tells whether it did.
#[tactic(auto, unfolding(crate::specs::Machine::open_of, crate::specs::Machine::step))]
pub fn push_number_digit<'a>(mode: &mut Mode<'a>, byte: u8) -> Result<bool, Stop>
    ensures { Pushes result mode.old mode.new byte }
{
    if byte < b'0' || byte > b'9' {
        return Ok(false);
    }
    match mode {
        Mode::Number(Part::Whole | Part::Digits, text) => {
            text.push(byte as char)?;
            Ok(true)
        }
        _ => Ok(false),
    }
}

/// The mode behind a byte in or just behind a number.
#[tactic(auto, using(crate::proofs::FrameLemmas::frames_length), unfolding(crate::specs::Machine::open_of))]
pub fn number_next<'a>(
    alloc: Global,
    frames: &mut Vec<Frame<'a>>,
    part: Part,
    text: String,
    byte: u8,
) -> Result<Mode<'a>, Stop>
    requires { length frames.old.items ≤ 64 }
    ensures { Steps result frames.new.items (number_step (part_of part) (string_bytes text)
        (frames_of frames.old.items) byte (spec_go_on (part_of part) byte)) }
{
    match go_on(part, byte) {
        Some(next) => {
            let mut text = text;
            text.push(byte as char)?;
            Ok(Mode::Number(next, text))
        }
        None => {
            if may_end(part) {
                return after_next(alloc, frames, Lent::Num(LentText::of_string(text)), byte);
            }
            Err(Stop::NotJson)
        }
    }
}
