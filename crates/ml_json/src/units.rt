//! Escapes in strings, and the 16-bit units that `\u` writes.
ghost use Rattle.std.specs.Prelude.{◌≡◌, ◌+◌, ◌*◌, ◌-◌, ◌<◌, ◌++◌, IfOk, true, false, string_bytes};
ghost use Rattle.ml_json.specs.Strings.{escaped as spec_escaped, hex_digit as spec_hex_digit, lone, single as spec_single, is_high as spec_is_high, is_low as spec_is_low};
ghost use Rattle.ml_json.specs.State.{UnitGives};
ghost use Rattle.ml_json.specs.Partial.{HoldsHigh};

use std::alloc::AllocError;

/// The character that the byte behind a backslash stands for; none for `u` and any other byte.
pub fn escaped(byte: u8) -> Option<u8>
    ensures { result ≡ spec_escaped byte }
{
    match byte {
        b'"' => Some(34),
        b'\\' => Some(92),
        b'/' => Some(47),
        b'b' => Some(8),
        b'f' => Some(12),
        b'n' => Some(10),
        b'r' => Some(13),
        b't' => Some(9),
        _ => None,
    }
}

/// The value of a hexadecimal digit.
pub fn hex_digit(byte: u8) -> Option<u8>
    ensures { result ≡ spec_hex_digit byte }
{
    match byte {
        b'0'..=b'9' => Some(byte - 48),
        b'A'..=b'F' => Some(byte - 55),
        b'a'..=b'f' => Some(byte - 87),
        _ => None,
    }
}

/// Whether the unit is the first half of a surrogate pair.
pub fn is_high(unit: u32) -> bool
    ensures { result ≡ spec_is_high unit }
{
    0xD800 <= unit && unit <= 0xDBFF
}

/// Whether the unit is the second half of a surrogate pair.
pub fn is_low(unit: u32) -> bool
    ensures { result ≡ spec_is_low unit }
{
    0xDC00 <= unit && unit <= 0xDFFF
}

/// The text, with U+FFFD behind it where half of a pair was held.
pub fn settled(half: Option<u32>, mut text: String) -> Result<String, AllocError>
    ensures { IfOk result (λ t. string_bytes t ≡ string_bytes text ++ lone half) }
{
    match half {
        None => Ok(text),
        Some(_) => {
            text.push('\u{FFFD}')?;
            Ok(text)
        }
    }
}

/// The text with one unit more, and the first half of a pair that now waits for its second.
pub fn with_unit(
    half: Option<u32>,
    text: String,
    unit: u32,
) -> Result<(Option<u32>, String), AllocError>
    requires unit { unit < 65536 }
    requires half { HoldsHigh half }
    ensures { IfOk result (λ x. UnitGives half (string_bytes text) unit x.0 (string_bytes x.1)) }
{
    match half {
        None => {
            if is_high(unit) {
                return Ok((Some(unit), text));
            }
            Ok((None, single(text, unit)?))
        }
        Some(high) => {
            if is_low(unit) {
                let mut text = text;
                text.push(pair(high, unit))?;
                return Ok((None, text));
            }
            let text = settled(half, text)?;
            if is_high(unit) {
                return Ok((Some(unit), text));
            }
            Ok((None, single(text, unit)?))
        }
    }
}

/// The text with a unit that is no first half: U+FFFD for a second half, else its character.
pub fn single(mut text: String, unit: u32) -> Result<String, AllocError>
    requires below { unit < 65536 }
    requires other { spec_is_high unit ≡ false }
    ensures { IfOk result (λ t. string_bytes t ≡ string_bytes text ++ spec_single unit) }
{
    if is_low(unit) {
        text.push('\u{FFFD}')?;
        return Ok(text);
    }
    match char::from_u32(unit) {
        Some(character) => {
            text.push(character)?;
            Ok(text)
        }
        None => unreachable!(),
    }
}

/// The character of a surrogate pair.
pub fn pair(high: u32, low: u32) -> char
    requires high { spec_is_high high ≡ true }
    requires low { spec_is_low low ≡ true }
    ensures { result ≡ 65536 + ((high - 55296) * 1024 + (low - 56320)) }
{
    match char::from_u32(0x10000 + (high - 0xD800) * 1024 + (low - 0xDC00)) {
        Some(character) => character,
        None => unreachable!(),
    }
}
