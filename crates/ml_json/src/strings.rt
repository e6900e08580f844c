//! Steps within a string.
ghost use Rattle.std.specs.Prelude.{◌≡◌, string_bytes};
ghost use Rattle.ml_json.specs.Strings.{hex_digit as spec_hex_digit};
ghost use Rattle.ml_json.specs.Machine.{text_step, escape_step, hex_step, bytes_step};
ghost use Rattle.ml_json.specs.State.{Goes, Pushes, owner_of};
ghost use Rattle.ml_json.specs.Partial.{tail_of};

use crate::lent::{Lent, LentText};
use crate::state::{Code, Mode, Open, Owner, Partial, Stop};
use crate::units::{escaped, hex_digit, settled, with_unit};
use crate::utf8::{later, lead, may_follow};
use std::alloc::Global;

/// The mode behind a byte that is no part of an escape or of a character that has begun.
pub fn text_next<'a>(alloc: Global, open_text: Open<'a>, byte: u8) -> Result<Mode<'a>, Stop>
    ensures { Goes result (λ st. text_step (owner_of open_text.entry.owner) open_text.entry.half
        (string_bytes open_text.entry.text) st byte) }
{
    match byte {
        b'"' => {
            let Open { owner, half, text } = open_text;
            let text = LentText::of_string(settled(half, text)?);
            match owner {
                Owner::Value => Ok(Mode::After(Lent::Str(text))),
                Owner::Key(members) => Ok(Mode::Colon(members, text)),
            }
        }
        b'\\' => Ok(Mode::Escape(open_text)),
        0..=31 => Err(Stop::NotJson),
        32..=127 => {
            let Open { owner, half, text } = open_text;
            let mut text = settled(half, text)?;
            text.push(byte as char)?;
            Ok(Mode::Text(Open {
                owner,
                half: None,
                text,
            }))
        }
        _ => match lead(byte) {
            None => Err(Stop::NotJson),
            Some(tail) => {
                let mut got = Vec::new(alloc);
                got.push(byte)?;
                Ok(Mode::Bytes(open_text, Partial { tail, got }))
            }
        },
    }
}

/// Pushes a byte that stands for itself, where a string is open and no half of a surrogate pair is
/// held, and tells whether it did.
#[tactic(auto, unfolding(crate::specs::Machine::open_of, crate::specs::Machine::step))]
pub fn push_plain<'a>(mode: &mut Mode<'a>, byte: u8) -> Result<bool, Stop>
    ensures { Pushes result mode.old mode.new byte }
{
    if byte < 32 || byte >= 128 || byte == b'"' || byte == b'\\' {
        return Ok(false);
    }
    match mode {
        Mode::Text(open_text) => {
            if open_text.half.is_some() {
                return Ok(false);
            }
            open_text.text.push(byte as char)?;
            Ok(true)
        }
        _ => Ok(false),
    }
}

/// The mode behind a byte of a character that has begun.
pub fn bytes_next<'a>(open_text: Open<'a>, partial: Partial, byte: u8) -> Result<Mode<'a>, Stop>
    ensures { Goes result (λ st. bytes_step (owner_of open_text.entry.owner) open_text.entry.half
        (string_bytes open_text.entry.text) (tail_of partial.tail) partial.got.items st byte) }
{
    let Partial { tail, mut got } = partial;
    if !may_follow(tail, byte) {
        return Err(Stop::NotJson);
    }
    got.push(byte)?;
    match later(tail) {
        Some(tail) => Ok(Mode::Bytes(open_text, Partial { tail, got })),
        None => {
            let Open { owner, half, text } = open_text;
            let mut text = settled(half, text)?;
            match str::from_utf8(got.as_slice()) {
                Ok(character) => {
                    text.push_str(character)?;
                    Ok(Mode::Text(Open {
                        owner,
                        half: None,
                        text,
                    }))
                }
                Err(_) => unreachable!(),
            }
        }
    }
}

/// The mode behind the byte after a backslash.
pub fn escape_next<'a>(open_text: Open<'a>, byte: u8) -> Result<Mode<'a>, Stop>
    ensures { Goes result (λ st. escape_step (owner_of open_text.entry.owner) open_text.entry.half
        (string_bytes open_text.entry.text) st byte) }
{
    if byte == b'u' {
        return Ok(Mode::Hex(open_text, Code { left: 3, sum: 0 }));
    }
    match escaped(byte) {
        None => Err(Stop::NotJson),
        Some(code) => {
            let Open { owner, half, text } = open_text;
            let mut text = settled(half, text)?;
            text.push(code as char)?;
            Ok(Mode::Text(Open {
                owner,
                half: None,
                text,
            }))
        }
    }
}

/// The mode behind one of the four digits of an escape.
pub fn hex_next<'a>(open_text: Open<'a>, code: Code, byte: u8) -> Result<Mode<'a>, Stop>
    ensures { Goes result (λ st. hex_step (owner_of open_text.entry.owner) open_text.entry.half
        (string_bytes open_text.entry.text) code.left code.sum st (spec_hex_digit byte)) }
{
    match hex_digit(byte) {
        None => Err(Stop::NotJson),
        Some(digit) => {
            let sum = 16 * code.sum + digit as u32;
            if code.left > 0 {
                return Ok(Mode::Hex(
                    open_text,
                    Code {
                        left: code.left - 1,
                        sum,
                    },
                ));
            }
            let Open { owner, half, text } = open_text;
            let (half, text) = with_unit(half, text, sum)?;
            Ok(Mode::Text(Open { owner, half, text }))
        }
    }
}
