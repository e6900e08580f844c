//! What the fields of a head say.
ghost use Rattle.std.specs.Prelude.{◌≡◌, ◌<◌, ◌==◌, ◌&&◌, All, IfSome, codes, length, map, reverse};
ghost use Rattle.std.specs.Option.{option_map};
ghost use Rattle.std.specs.List.{list_any, slice_split};
ghost use Rattle.httparse.specs.Grammar.{skip_ows, trim_ows};
ghost use Rattle.httparse.specs.Spans.{IsHeaderWithin, header_bytes};
ghost use Rattle.ml_ratio.specs.Number.{numeral};
ghost use Rattle.ml_request.specs.Heads.{is_named, values_of, length_of, body_length, lists_close, asks_to_close, begins_with_slash, is_host_count, framed, framing_of};

use crate::request::{Framing, Refusal};
use httparse::is_space_or_tab;
use httparse::spans::HeaderSpan;
use ml_ratio::number::read_digits;

// Whether a header has this name, whatever the case of its letters.
fn has_name(bytes: &[u8], header: &HeaderSpan, name: &[u8]) -> bool
    requires { IsHeaderWithin (length bytes.now) header.now }
    ensures { result ≡ is_named name.now (header_bytes bytes.now header.now).0 }
{
    header.name.of(bytes).eq_ignore_ascii_case(name)
}

// How many headers have this name.
fn count_named(bytes: &[u8], headers: &[HeaderSpan], name: &[u8]) -> usize
    requires { All (IsHeaderWithin (length bytes.now)) headers.now }
    ensures { result ≡ length (values_of name.now (map (header_bytes bytes.now) headers.now)) }
{
    let mut count = 0;
    for header in headers {
        if has_name(bytes, header, name) {
            count += 1;
        }
    }
    count
}

// The length that a Content-Length field gives.
fn length_in(value: &[u8]) -> Result<usize, Refusal>
    ensures { result ≡ length_of (numeral value.now) }
{
    let Ok(text) = std::str::from_utf8(value) else {
        return Err(Refusal::Request);
    };
    match read_digits(text) {
        None => Err(Refusal::Request),
        Some(length) if length > 1_048_576 => Err(Refusal::Size),
        Some(length) => Ok(length as usize),
    }
}

// The length of the body, of which at most one field may speak.
fn length_of_body(bytes: &[u8], headers: &[HeaderSpan]) -> Result<usize, Refusal>
    requires { All (IsHeaderWithin (length bytes.now)) headers.now }
    ensures { result ≡ body_length
        (values_of (codes "content-length") (map (header_bytes bytes.now) headers.now)) }
{
    let mut length = Ok(0);
    let mut found = false;
    for header in headers {
        if has_name(bytes, header, b"content-length") {
            if found {
                return Err(Refusal::Request);
            }
            found = true;
            length = length_in(header.value.of(bytes));
        }
    }
    length
}

fn trim_start(mut text: &[u8]) -> &[u8]
    ensures { result.now ≡ skip_ows text.now }
{
    while let [first, rest @ ..] = text
        && is_space_or_tab(*first)
    {
        text = rest;
    }
    text
}

fn trim_end(mut text: &[u8]) -> &[u8]
    ensures { result.now ≡ reverse (skip_ows (reverse text.now)) }
{
    while let [rest @ .., last] = text
        && is_space_or_tab(*last)
    {
        text = rest;
    }
    text
}

// Whether an item of a Connection field is `close`.
#[tactic(auto, unfolding(httparse::specs::Grammar::trim_ows))]
fn is_close(item: &[u8]) -> bool
    ensures { result ≡ is_named (codes "close") (trim_ows item.now) }
{
    trim_end(trim_start(item)).eq_ignore_ascii_case(b"close")
}

// Whether `close` is among the items of a Connection field.
fn lists_close(value: &[u8]) -> bool
    ensures { result ≡ lists_close value.now }
{
    value.split(|byte| *byte == b',').any(|item| is_close(item))
}

// Whether the request asks to close the connection.
fn asks_to_close(bytes: &[u8], headers: &[HeaderSpan], minor: u8) -> bool
    requires { All (IsHeaderWithin (length bytes.now)) headers.now }
    ensures { result ≡ asks_to_close minor (map (header_bytes bytes.now) headers.now) }
{
    if minor == 0 {
        return true;
    }
    for header in headers {
        if has_name(bytes, header, b"connection") && lists_close(header.value.of(bytes)) {
            return true;
        }
    }
    false
}

// Whether the target and the number of Host fields are as they must be.
fn is_addressed(target: &[u8], minor: u8, hosts: usize) -> bool
    ensures { result ≡ (begins_with_slash target.now && is_host_count minor hosts) }
{
    match target {
        [b'/', ..] => hosts == 1 || (minor == 0 && hosts == 0),
        _ => false,
    }
}

/// How the request goes on behind its head, or why it is refused.
pub(crate) fn framing(
    bytes: &[u8],
    headers: &[HeaderSpan],
    target: &[u8],
    minor: u8,
) -> Result<Framing, Refusal>
    requires { All (IsHeaderWithin (length bytes.now)) headers.now }
    ensures { result ≡ framing_of target.now minor (map (header_bytes bytes.now) headers.now) }
{
    if !is_addressed(target, minor, count_named(bytes, headers, b"host")) {
        return Err(Refusal::Request);
    }
    if count_named(bytes, headers, b"transfer-encoding") > 0 {
        return Err(Refusal::Coding);
    }
    match length_of_body(bytes, headers) {
        Ok(length) => Ok(Framing {
            length,
            closes: asks_to_close(bytes, headers, minor),
        }),
        Err(refusal) => Err(refusal),
    }
}
