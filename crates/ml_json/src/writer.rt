//! A value to its canonical text.
ghost use Rattle.std.specs.Prelude.{◌≡◌, ◌<◌, ◌++◌, ◌∷◌, List, ℕ, true, IfOk, OnOk};
ghost use Rattle.std.specs.Str.{IsUtf8};
ghost use Rattle.ml_json.specs.Answer.{IsText};
ghost use Rattle.ml_json.specs.Canonical.{canonical, byte_on, bytes_on, string_on, hex_byte, tree_on, rest_on, items_on, members_on, more_on, settled, IsPrintable, IsWritable, HasUtf8, AllHaveUtf8, AllPairsHaveUtf8};
ghost use Rattle.ml_json.specs.View.{tree_of, pair_of, trees_view, pairs_view};

use crate::value::{Json, Pair};
use ml_ratio::{Seq, Text};
use std::alloc::{AllocError, Global};

/// The canonical text of a value: no white space, strings with as few escapes as can be, numbers as
/// their texts, keys as they stand.
///
/// Where each number is a JSON number's text and the depth is at most 64, reading it gives the value,
/// with the members of each map in byte order of their keys.
///
/// # Errors
/// Out of memory.
pub fn write(alloc: Global, value: &Json) -> Result<Seq<u8>, AllocError>
    ensures ok { IfOk result (λ text. text ≡ canonical (tree_of value.now)) }
    ensures reads { IsPrintable (tree_of value.now) →
        IfOk result (λ text. IsText text (settled (tree_of value.now))) }
    ensures back { IsWritable (tree_of value.now) →
        IfOk result (λ text. IsText text (tree_of value.now)) }
{
    let mut out = Vec::new(alloc);
    put_value(&mut out, value)?;
    Ok(Seq::of_vec(out))
}

// Puts a value's text behind what was written.
#[cycle(writing)]
fn put_value(out: &mut Vec<u8>, value: &Json) -> Result<(), AllocError>
    ensures text { OnOk result
        ((r : List ℕ) → out.new.items ++ r ≡ out.old.items ++ tree_on (tree_of value.now) r) }
    ensures utf8 { OnOk result (HasUtf8 (tree_of value.now)) }
{
    match value {
        Json::Null => out.extend_from_slice(b"null"),
        Json::Flag(true) => out.extend_from_slice(b"true"),
        Json::Flag(false) => out.extend_from_slice(b"false"),
        Json::Num(text) => out.extend_from_slice(text.as_str().as_bytes()),
        Json::Str(text) => put_string(out, text),
        Json::List(items) => put_items(out, items.as_slice()),
        Json::Map(pairs) => put_members(out, pairs.as_slice()),
    }
}

// Puts a list behind what was written.
#[cycle(writing)]
fn put_items(out: &mut Vec<u8>, items: &[Json]) -> Result<(), AllocError>
    ensures text { OnOk result ((r : List ℕ) →
        out.new.items ++ r ≡ out.old.items ++ 91 ∷ items_on (trees_view items.now) r) }
    ensures utf8 { OnOk result (AllHaveUtf8 (trees_view items.now)) }
{
    match items {
        [] => out.extend_from_slice(b"[]"),
        [first, others @ ..] => {
            out.push(b'[')?;
            put_value(out, first)?;
            for item in others {
                out.push(b',')?;
                put_value(out, item)?;
            }
            out.push(b']')?;
            Ok(())
        }
    }
}

// Puts a map behind what was written.
#[cycle(writing)]
fn put_members(out: &mut Vec<u8>, pairs: &[Pair]) -> Result<(), AllocError>
    ensures text { OnOk result ((r : List ℕ) →
        out.new.items ++ r ≡ out.old.items ++ 123 ∷ members_on (pairs_view pairs.now) r) }
    ensures utf8 { OnOk result (AllPairsHaveUtf8 (pairs_view pairs.now)) }
{
    match pairs {
        [] => out.extend_from_slice(b"{}"),
        [first, others @ ..] => {
            out.push(b'{')?;
            put_member(out, first)?;
            for pair in others {
                out.push(b',')?;
                put_member(out, pair)?;
            }
            out.push(b'}')?;
            Ok(())
        }
    }
}

// Puts a key, a colon and a value behind what was written.
#[cycle(writing)]
fn put_member(out: &mut Vec<u8>, pair: &Pair) -> Result<(), AllocError>
    ensures text { OnOk result ((r : List ℕ) → out.new.items ++ r
        ≡ out.old.items ++ string_on (pair_of pair.now).0 (58 ∷ tree_on (pair_of pair.now).1 r)) }
    ensures utf8 { OnOk result (IsUtf8 (pair_of pair.now).0 × HasUtf8 (pair_of pair.now).1) }
{
    put_string(out, &pair.key)?;
    out.push(b':')?;
    put_value(out, &pair.value)
}

/// Puts a string between quotes behind what was written.
///
/// # Errors
/// Out of memory.
pub fn put_string(out: &mut Vec<u8>, text: &Text) -> Result<(), AllocError>
    ensures text { OnOk result
        ((r : List ℕ) → out.new.items ++ r ≡ out.old.items ++ string_on text.now r) }
    ensures utf8 { IsUtf8 text.now }
{
    let bytes = text.as_str().as_bytes();
    out.push(b'"')?;
    put_bytes(out, bytes)?;
    out.push(b'"')?;
    Ok(())
}

// Puts a string's bytes behind what was written: at once where no byte is escaped, as in most strings.
fn put_bytes(out: &mut Vec<u8>, bytes: &[u8]) -> Result<(), AllocError>
    ensures { OnOk result
        ((r : List ℕ) → out.new.items ++ r ≡ out.old.items ++ bytes_on bytes.now r) }
{
    if are_raw(bytes) {
        return out.extend_from_slice(bytes);
    }
    for byte in bytes {
        put_byte(out, *byte)?;
    }
    Ok(())
}

// Whether each of the bytes stands for itself.
fn are_raw(bytes: &[u8]) -> bool
    ensures { result ≡ true → (r : List ℕ) → bytes_on bytes.now r ≡ bytes.now ++ r }
{
    for byte in bytes {
        if !is_raw(*byte) {
            return false;
        }
    }
    true
}

// Whether the byte stands for itself in a string.
fn is_raw(byte: u8) -> bool
    ensures { result ≡ true → (r : List ℕ) → byte_on byte r ≡ byte ∷ r }
{
    32 <= byte && byte != b'"' && byte != b'\\'
}

// Puts a byte of a string behind what was written, escaped where it has to be.
fn put_byte(out: &mut Vec<u8>, byte: u8) -> Result<(), AllocError>
    ensures { OnOk result ((r : List ℕ) → out.new.items ++ r ≡ out.old.items ++ byte_on byte r) }
{
    match byte {
        b'"' => out.extend_from_slice(b"\\\""),
        b'\\' => out.extend_from_slice(b"\\\\"),
        8 => out.extend_from_slice(b"\\b"),
        9 => out.extend_from_slice(b"\\t"),
        10 => out.extend_from_slice(b"\\n"),
        12 => out.extend_from_slice(b"\\f"),
        13 => out.extend_from_slice(b"\\r"),
        0..=31 => out.extend_from_slice(&[
            b'\\',
            b'u',
            b'0',
            b'0',
            hex_digit_of(byte / 16),
            hex_digit_of(byte % 16),
        ]),
        _ => out.extend_from_slice(&[byte]),
    }
}

// A hexadecimal digit in lower case.
fn hex_digit_of(value: u8) -> u8
    requires { value < 16 }
    ensures { result ≡ hex_byte value }
{
    if value < 10 {
        b'0' + value
    } else {
        b'a' + (value - 10)
    }
}
