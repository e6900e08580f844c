//! Values as compact text, put behind a text that is there already.
ghost use Rattle.std.specs.Prelude.{◌≡◌, ◌<◌, ◌≤◌, ◌∷◌, ◌++◌, [], length, unsigned_abs, IfOk, OnOk};
ghost use Rattle.std.specs.Bool.{OnTrue};
ghost use Rattle.std.specs.Fmt.{decimal};
ghost use Rattle.json.specs.Print.{escape};
ghost use Rattle.json.specs.Written.{PlainBetween};
ghost use Rattle.serde_json.specs.Data.{number, string};
ghost use Rattle.serde_json.specs.Find.{of_integer};
ghost use Rattle.serde_json.specs.Written.{comma_if, compact_text};
ghost use Rattle.ml_ratio.specs.Ratio.{ratio_text};
ghost use Rattle.ml_answer.specs.Px.{sign_text};

use crate::compact::written;
use itoa::Buffer;
use ml_ratio::Ratio;
use std::alloc::{AllocError, Global};

// Adds a comma where something stands before what comes next.
pub(crate) fn push_comma(text: &mut Vec<u8>, later: bool) -> Result<(), AllocError>
    ensures { OnOk result (text.new.items ≡ text.old.items ++ comma_if later) }
{
    if later {
        text.push(b',')?;
    }
    Ok(())
}

// Adds a whole number.
pub(crate) fn push_number(text: &mut Vec<u8>, value: i64) -> Result<(), AllocError>
    ensures { OnOk result
        (text.new.items ≡ text.old.items ++ compact_text (number (of_integer value))) }
{
    push_signed(text, value)
}

// The same, in two parts.
fn push_signed(text: &mut Vec<u8>, value: i64) -> Result<(), AllocError>
    ensures { OnOk result
        (text.new.items ≡ text.old.items ++ (sign_text value ++ decimal (unsigned_abs value))) }
{
    push_sign(text, value)?;
    push_digits(text, value.unsigned_abs())
}

// Adds a minus before what is below 0.
fn push_sign(text: &mut Vec<u8>, value: i64) -> Result<(), AllocError>
    ensures { OnOk result (text.new.items ≡ text.old.items ++ sign_text value) }
{
    if value < 0 {
        text.push(b'-')?;
    }
    Ok(())
}

// Whether none of the bytes has to be escaped.
fn are_plain(bytes: &[u8]) -> bool
    ensures { OnTrue result (PlainBetween bytes.now 0 (length bytes.now)) }
{
    for &byte in bytes {
        if byte == b'"' || byte == b'\\' || byte < 0x20 {
            return false;
        }
    }
    true
}

// Whether a string stands in JSON just as it is, between quotes.
fn is_plain(value: &str) -> bool
    ensures { OnTrue result (escape value.now ≡ value.now) }
{
    are_plain(value.as_bytes())
}

// Adds a string. Where a byte of it has to be escaped, the library writes it.
pub(crate) fn push_string(text: &mut Vec<u8>, value: &str) -> Result<(), AllocError>
    ensures { OnOk result (text.new.items ≡ text.old.items ++ compact_text (string value.now)) }
{
    if is_plain(value) {
        push_plain(text, value)
    } else {
        push_escaped(text, value)
    }
}

// Adds a string in which nothing has to be escaped.
fn push_plain(text: &mut Vec<u8>, value: &str) -> Result<(), AllocError>
    requires { escape value.now ≡ value.now }
    ensures { OnOk result (text.new.items ≡ text.old.items ++ compact_text (string value.now)) }
{
    push_quoted(text, value)
}

// Adds a string as it is, between quotes.
fn push_quoted(text: &mut Vec<u8>, value: &str) -> Result<(), AllocError>
    ensures { OnOk result (text.new.items ≡ text.old.items ++ 34 ∷ (value.now ++ 34 ∷ [])) }
{
    text.push(b'"')?;
    text.extend_from_slice(value.as_bytes())?;
    push_byte(text, b'"')
}

// Adds a string as the library writes it.
fn push_escaped(text: &mut Vec<u8>, value: &str) -> Result<(), AllocError>
    ensures { OnOk result (text.new.items ≡ text.old.items ++ compact_text (string value.now)) }
{
    let escaped = escaped(*text.allocator(), value)?;
    text.extend_from_slice(&escaped)
}

// The text of a string.
fn escaped(alloc: Global, value: &str) -> Result<Vec<u8>, AllocError>
    ensures { IfOk result (λ text. text.items ≡ compact_text (string value.now)) }
{
    written(alloc, &value)
}

// Adds a fraction, which is a string.
pub(crate) fn push_ratio(text: &mut Vec<u8>, ratio: Ratio) -> Result<(), AllocError>
    ensures { OnOk result
        (text.new.items ≡ text.old.items ++ compact_text (string (ratio_text ratio))) }
{
    push_quoted_ratio(text, ratio)
}

// Adds a fraction between quotes.
fn push_quoted_ratio(text: &mut Vec<u8>, ratio: Ratio) -> Result<(), AllocError>
    ensures { OnOk result (text.new.items ≡ text.old.items ++ 34 ∷ (ratio_text ratio ++ 34 ∷ [])) }
{
    text.push(b'"')?;
    push_parts(text, ratio)?;
    push_byte(text, b'"')
}

// Adds a fraction's parts.
fn push_parts(text: &mut Vec<u8>, ratio: Ratio) -> Result<(), AllocError>
    ensures { OnOk result (text.new.items ≡ text.old.items ++ ratio_text ratio) }
{
    push_digits(text, ratio.num())?;
    text.push(b'/')?;
    push_digits(text, ratio.den())
}

// Adds a number's digits. Most sides of boxes and most denominators have one or two, and need no buffer.
pub(crate) fn push_digits(text: &mut Vec<u8>, value: u64) -> Result<(), AllocError>
    ensures { OnOk result (text.new.items ≡ text.old.items ++ decimal value) }
{
    if value < 10 {
        push_digit(text, value)
    } else if value < 100 {
        push_two(text, value)
    } else {
        push_many(text, value)
    }
}

// Adds the digit of a number that has one.
fn push_digit(text: &mut Vec<u8>, value: u64) -> Result<(), AllocError>
    requires { value < 10 }
    ensures { OnOk result (text.new.items ≡ text.old.items ++ decimal value) }
{
    push_byte(text, b'0' + value as u8)
}

// Adds the digits of a number that has two.
fn push_two(text: &mut Vec<u8>, value: u64) -> Result<(), AllocError>
    requires least { 10 ≤ value }
    requires most { value < 100 }
    ensures { OnOk result (text.new.items ≡ text.old.items ++ decimal value) }
{
    push_digit(text, value / 10)?;
    push_digit(text, value % 10)
}

// Adds the digits of a number that may have more.
fn push_many(text: &mut Vec<u8>, value: u64) -> Result<(), AllocError>
    ensures { OnOk result (text.new.items ≡ text.old.items ++ decimal value) }
{
    text.extend_from_slice(Buffer::new().format(value).as_bytes())
}

// Adds a byte.
pub(crate) fn push_byte(text: &mut Vec<u8>, byte: u8) -> Result<(), AllocError>
    ensures { OnOk result (text.new.items ≡ text.old.items ++ byte ∷ []) }
{
    text.push(byte)?;
    Ok(())
}
