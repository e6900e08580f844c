//! Plain tokens at the front of bytes: white space, numbers, and strings of ASCII without escapes. A
//! token is a part of the bytes, and what follows it comes with it.
ghost use Rattle.std.specs.Prelude.{◌≡◌, ◌∷◌, ◌++◌, All, IfSome, option_map};
ghost use Rattle.std.specs.Str.{IsAscii};
ghost use Rattle.ml_json.specs.Grammar.{Blank};
ghost use Rattle.ml_json.specs.Strings.{is_plain as spec_is_plain};
ghost use Rattle.ml_json.specs.State.{part_of};
ghost use Rattle.ml_json.specs.Lent.{lent_of};
ghost use Rattle.ml_json.specs.Leaps.{first_part as spec_first_part, IsPlain, PlainString, PlainNumber, PlainScalar};

use crate::brackets::is_space;
use crate::lent::{Lent, LentText};
use crate::state::Part;
use crate::tokens::{go_on, may_end};

/// The bytes without the white space at their front.
pub fn skip_space(mut bytes: &[u8]) -> &[u8]
    ensures { Blank bytes.now result.now }
{
    while let [byte, rest @ ..] = bytes
        && is_space(*byte)
    {
        bytes = rest;
    }
    bytes
}

/// What follows the byte, where the bytes begin with it.
pub fn behind(bytes: &[u8], byte: u8) -> Option<&[u8]>
    ensures { IfSome result (λ rest. bytes.now ≡ byte ∷ rest.now) }
{
    match bytes {
        [first, rest @ ..] if *first == byte => Some(rest),
        _ => None,
    }
}

// Whether the byte stands for itself in a string.
fn is_plain(byte: u8) -> bool
    ensures { result ≡ spec_is_plain byte }
{
    32 <= byte && byte < 128 && byte != b'"' && byte != b'\\'
}

// The text of ASCII bytes, which need no further look.
fn text_of<'a>(bytes: &'a [u8]) -> LentText<'a>
    requires { IsAscii bytes.now }
    ensures { result ≡ bytes.now }
{
    LentText::of(unsafe { str::from_utf8_unchecked(bytes) })
}

// The plain bytes at the front, and what follows them.
fn split_plain<'a>(bytes: &'a [u8]) -> (LentText<'a>, &'a [u8])
    ensures plain { All IsPlain result.0 }
    ensures split { bytes.now ≡ result.0 ++ result.1.now }
{
    let mut rest = bytes;
    while let [byte, next @ ..] = rest
        && is_plain(*byte)
    {
        rest = next;
    }
    (text_of(&bytes[..bytes.len() - rest.len()]), rest)
}

/// The text of a plain string in its quotes, and what follows them.
pub fn plain_string<'a>(bytes: &'a [u8]) -> Option<(LentText<'a>, &'a [u8])>
    ensures { IfSome result (λ cut. PlainString cut.0 bytes.now cut.1.now) }
{
    let (text, end) = split_plain(behind(bytes, b'"')?);
    let rest = behind(end, b'"')?;
    Some((text, rest))
}

// What a number's first byte makes; none for any other byte.
fn first_part(byte: u8) -> Option<Part>
    ensures { option_map part_of result ≡ spec_first_part byte }
{
    match byte {
        b'-' => Some(Part::Minus),
        b'0' => Some(Part::Nought),
        b'1'..=b'9' => Some(Part::Whole),
        _ => None,
    }
}

/// The text of a number, and what follows it.
pub fn plain_number<'a>(bytes: &'a [u8]) -> Option<(LentText<'a>, &'a [u8])>
    ensures { IfSome result (λ cut. PlainNumber cut.0 bytes.now cut.1.now) }
{
    let [first, more @ ..] = bytes else {
        return None;
    };
    let mut part = first_part(*first)?;
    let mut rest = more;
    while let [byte, next @ ..] = rest
        && let Some(grown) = go_on(part, *byte)
    {
        rest = next;
        part = grown;
    }
    if !may_end(part) {
        return None;
    }
    Some((text_of(&bytes[..bytes.len() - rest.len()]), rest))
}

/// A plain string or a number, and what follows it.
pub fn plain_scalar<'a>(bytes: &'a [u8]) -> Option<(Lent<'a>, &'a [u8])>
    ensures { IfSome result (λ cut. PlainScalar (lent_of cut.0) bytes.now cut.1.now) }
{
    match bytes {
        [b'"', ..] => {
            let (text, rest) = plain_string(bytes)?;
            Some((Lent::Str(text), rest))
        }
        _ => {
            let (text, rest) = plain_number(bytes)?;
            Some((Lent::Num(text), rest))
        }
    }
}
