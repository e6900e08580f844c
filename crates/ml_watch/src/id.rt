//! An id as it stands in a line, where blanks part the words.
ghost use Rattle.std.specs.Prelude.{◌≡◌, ◌<◌, ◌≤◌, ◌++◌, [], ◌∷◌, ℕ, List, length, flat_map, IfOk, OnOk, MatchOption};
ghost use Rattle.ml_watch.specs.Line.{is_plain, hex_digit, byte_text, id_text};
ghost use Rattle.ml_watch.specs.Spelling.{Spells, hex_value as spec_hex_value, bytes_spelled, spelled};

use ml_ratio::{Seq, Text};
use std::alloc::{AllocError, Global};

/// The id as it stands in a line: letters, digits and `-._~#` as they are, every other byte as `%`
/// and two upper-case hexadecimal digits. An empty id is `%`.
///
/// # Errors
/// Out of memory.
pub fn id_text(alloc: Global, id: &Text) -> Result<Seq<u8>, AllocError>
    ensures { IfOk result (λ text. text ≡ id_text id.now) }
{
    let bytes = id.as_str().as_bytes();
    if bytes.is_empty() {
        let text = Vec::from_slice(alloc, b"%")?;
        return Ok(Seq::of_vec(text));
    }
    bytes_text(alloc, bytes)
}

// The bytes of an id as they stand in a line.
fn bytes_text(alloc: Global, bytes: &[u8]) -> Result<Seq<u8>, AllocError>
    ensures { IfOk result (λ text. text ≡ flat_map byte_text bytes.now) }
{
    let mut text = Vec::new(alloc);
    for byte in bytes {
        push_byte(&mut text, *byte)?;
    }
    Ok(Seq::of_vec(text))
}

// Adds a byte of an id.
fn push_byte(text: &mut Vec<u8>, byte: u8) -> Result<(), AllocError>
    ensures { OnOk result (text.new.items ≡ text.old.items ++ byte_text byte) }
{
    if is_plain(byte) {
        text.extend_from_slice(&[byte])
    } else {
        text.extend_from_slice(&[b'%', hex_digit(byte / 16), hex_digit(byte % 16)])
    }
}

// Whether a byte of an id stands as it is.
pub(crate) fn is_plain(byte: u8) -> bool
    ensures { result ≡ is_plain byte }
{
    let letter_or_digit = byte.is_ascii_uppercase()
        || byte.is_ascii_lowercase()
        || byte.is_ascii_digit();
    letter_or_digit || byte == b'-' || byte == b'.' || byte == b'_' || byte == b'~' || byte == b'#'
}

// The upper-case hexadecimal digit of a number below 16.
pub(crate) fn hex_digit(n: u8) -> u8
    requires { n < 16 }
    ensures { result ≡ hex_digit n }
{
    if n < 10 { b'0' + n } else { b'A' + (n - 10) }
}

/// The id that a text spells as [`id_text`] does; none for any other text.
///
/// # Errors
/// Out of memory.
pub fn read_id(alloc: Global, text: &str) -> Result<Option<Text>, AllocError>
    ensures { IfOk result
        (λ answer. MatchOption answer ((id : List ℕ) → ¬ (Spells text.now id)) (Spells text.now)) }
{
    let bytes = spelled_by(alloc, text.as_bytes())?;
    let Ok(id) = std::str::from_utf8(&bytes) else {
        return Ok(None);
    };
    let id = Text::of(alloc, id)?;
    let again = id_text(alloc, &id)?;
    if again.as_slice() == text.as_bytes() {
        Ok(Some(id))
    } else {
        Ok(None)
    }
}

// The bytes of the id that a text would spell, if it spells one.
fn spelled_by(alloc: Global, text: &[u8]) -> Result<Vec<u8>, AllocError>
    ensures { IfOk result (λ bytes. bytes.items ≡ spelled text.now) }
{
    match text {
        [b'%'] => Ok(Vec::new(alloc)),
        _ => all_spelled_by(alloc, text),
    }
}

// The bytes that a text would spell, where each stands as it is or as `%` and two digits.
fn all_spelled_by(alloc: Global, text: &[u8]) -> Result<Vec<u8>, AllocError>
    ensures { IfOk result (λ bytes. bytes.items ≡ bytes_spelled text.now) }
{
    let mut bytes = Vec::new(alloc);
    let mut rest = text;
    while let Some((byte, after)) = next_spelled(rest) {
        bytes.push(byte)?;
        rest = after;
    }
    Ok(bytes)
}

// The first byte that a text would spell, and the text behind it; none where there is none.
fn next_spelled(text: &[u8]) -> Option<(u8, &[u8])>
    ensures { MatchOption result (text.now ≡ [])
        (λ p. (bytes_spelled text.now ≡ p.0 ∷ bytes_spelled p.1.now)
        × (length p.1.now < length text.now)) }
{
    match text {
        [b'%', high, low, after @ ..] => Some((hex_value(*high) * 16 + hex_value(*low), after)),
        [byte, after @ ..] => Some((*byte, after)),
        [] => None,
    }
}

// The value of an upper-case hexadecimal digit; 0 for any other byte.
fn hex_value(digit: u8) -> u8
    ensures value { result ≡ spec_hex_value digit }
    ensures low { result ≤ 15 }
{
    match digit {
        b'0'..=b'9' => digit - b'0',
        b'A'..=b'F' => digit - b'A' + 10,
        _ => 0,
    }
}
