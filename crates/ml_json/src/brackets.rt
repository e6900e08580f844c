//! Steps between tokens: where a value begins, and where a list or map goes on or ends.
ghost use Rattle.std.specs.Prelude.{◌≡◌, ◌≤◌, ◌<◌, length};
ghost use Rattle.ml_json.specs.Machine.{open_step, value_step, first_step, after_step};
ghost use Rattle.ml_json.specs.State.{Steps, frames_of};
ghost use Rattle.ml_json.specs.Grammar.{is_space as spec_is_space};
ghost use Rattle.ml_json.specs.Lent.{lent_of};
ghost use Rattle.ml_json.specs.declared.state.Stop.TheVariants.{Memory};

use crate::lent::{Lent, LentText};
use crate::members::{list_of_members, put_member};
use crate::state::{Frame, Mode, Open, Owner, Part, Stop, Word};
use std::alloc::{AllocError, AllocFailed, Global};

impl<T: Drop> From<AllocFailed<T>> for Stop {
    ghost from_gives = { λ _ e. e ≡ Memory };

    fn from(_error: AllocFailed<T>) -> Stop {
        Stop::Memory
    }
}

impl From<AllocError> for Stop {
    ghost from_gives = { λ _ e. e ≡ Memory };

    fn from(_error: AllocError) -> Stop {
        Stop::Memory
    }
}

/// Whether the byte is white space between tokens.
pub fn is_space(byte: u8) -> bool
    ensures { result ≡ spec_is_space byte }
{
    byte == b' ' || byte == b'\t' || byte == b'\n' || byte == b'\r'
}

// The mode behind the first byte of a value.
#[tactic(auto, using(crate::proofs::FrameLemmas::frames_length), unfolding(crate::specs::Machine::open_of))]
fn open_value<'a>(alloc: Global, frames: &Vec<Frame<'a>>, byte: u8) -> Result<Mode<'a>, Stop>
    requires { length frames.now.items ≤ 64 }
    ensures { Steps result frames.now.items (open_step (frames_of frames.now.items) byte) }
{
    match byte {
        b'"' => Ok(Mode::Text(Open {
            owner: Owner::Value,
            half: None,
            text: String::new(alloc),
        })),
        b'[' => if frames.len() < 64 {
            Ok(Mode::First)
        } else {
            Err(Stop::Deep)
        },
        b'{' => if frames.len() < 64 {
            Ok(Mode::FirstKey)
        } else {
            Err(Stop::Deep)
        },
        b'-' => Ok(Mode::Number(Part::Minus, String::from_str(alloc, "-")?)),
        b'0' => Ok(Mode::Number(Part::Nought, String::from_str(alloc, "0")?)),
        b'1'..=b'9' => {
            let mut text = String::new(alloc);
            text.push(byte as char)?;
            Ok(Mode::Number(Part::Whole, text))
        }
        b'n' => Ok(Mode::Word(Word::N)),
        b't' => Ok(Mode::Word(Word::T)),
        b'f' => Ok(Mode::Word(Word::F)),
        _ => Err(Stop::NotJson),
    }
}

/// The mode behind a byte where a value is awaited.
#[tactic(auto, using(crate::proofs::FrameLemmas::frames_length), unfolding(crate::specs::Machine::open_of))]
pub fn value_next<'a>(alloc: Global, frames: &Vec<Frame<'a>>, byte: u8) -> Result<Mode<'a>, Stop>
    requires { length frames.now.items ≤ 64 }
    ensures { Steps result frames.now.items (value_step (frames_of frames.now.items) byte) }
{
    if is_space(byte) {
        return Ok(Mode::Value);
    }
    open_value(alloc, frames, byte)
}

/// The mode behind a byte between a list's bracket and its first item or its end.
#[tactic(auto, using(crate::proofs::FrameLemmas::frames_length), unfolding(crate::specs::Machine::open_of))]
pub fn first_next<'a>(
    alloc: Global,
    frames: &mut Vec<Frame<'a>>,
    byte: u8,
) -> Result<Mode<'a>, Stop>
    requires { length frames.old.items < 64 }
    ensures { Steps result frames.new.items (first_step (frames_of frames.old.items) byte) }
{
    if is_space(byte) {
        return Ok(Mode::First);
    }
    if byte == b']' {
        return Ok(Mode::After(Lent::List(Vec::new(alloc))));
    }
    frames.push(Frame::List(Vec::new(alloc)))?;
    open_value(alloc, frames, byte)
}

/// The mode behind a byte after a value.
#[tactic(auto, using(crate::proofs::FrameLemmas::frames_length), unfolding(crate::specs::Machine::open_of))]
pub fn after_next<'a>(
    alloc: Global,
    frames: &mut Vec<Frame<'a>>,
    value: Lent<'a>,
    byte: u8,
) -> Result<Mode<'a>, Stop>
    requires { length frames.old.items ≤ 64 }
    ensures { Steps result frames.new.items
        (after_step (lent_of value.entry) (frames_of frames.old.items) byte) }
{
    if is_space(byte) {
        return Ok(Mode::After(value));
    }
    match frames.pop() {
        None => Err(Stop::NotJson),
        Some(Frame::List(mut items)) => {
            items.push(value)?;
            match byte {
                b',' => {
                    frames.push(Frame::List(items))?;
                    Ok(Mode::Value)
                }
                b']' => Ok(Mode::After(Lent::List(items))),
                _ => Err(Stop::NotJson),
            }
        }
        Some(Frame::Map(members, key)) => {
            let members = put_member(alloc, members, key, value)?;
            match byte {
                b',' => Ok(Mode::Key(members)),
                b'}' => Ok(Mode::After(Lent::Map(list_of_members(alloc, members)?))),
                _ => Err(Stop::NotJson),
            }
        }
    }
}
