//! The text of a reply.
ghost use Rattle.std.specs.Prelude.{◌≡◌, ◌++◌, IfOk, length, string_bytes};
ghost use Rattle.ml_http.specs.Reply.{phrase_of, type_of, allow_line, close_line, first_lines, last_lines, reply_text};

use crate::kind::{Allow, Kind};
use http::StatusCode;
use std::alloc::{AllocError, Global};

// As many bytes as a head takes at most, so that room for a whole reply is taken at once.
const HEAD_ROOM: usize = 192;

// The phrase for a status.
#[tactic(auto, unfolding(crate::specs::Reply::phrase_of))]
fn phrase(code: u16) -> &'static str
    ensures { result.now ≡ phrase_of code }
{
    match code {
        200 => "OK",
        400 => "Bad Request",
        404 => "Not Found",
        405 => "Method Not Allowed",
        409 => "Conflict",
        413 => "Content Too Large",
        422 => "Unprocessable Content",
        431 => "Request Header Fields Too Large",
        501 => "Not Implemented",
        _ => "Service Unavailable",
    }
}

// The media type of a body.
fn media_type(kind: Kind) -> &'static str
    ensures { result.now ≡ type_of kind }
{
    match kind {
        Kind::Json => "application/json",
        Kind::Svg => "image/svg+xml",
        Kind::GeoJson => "application/geo+json",
        Kind::Text => "text/plain",
    }
}

// The line on the methods of a path, where the reply has one.
fn allow_text(allow: Option<Allow>) -> &'static str
    ensures { result.now ≡ allow_line allow }
{
    match allow {
        None => "",
        Some(Allow::Get) => "Allow: GET\r\n",
        Some(Allow::Put) => "Allow: PUT\r\n",
        Some(Allow::Edits) => "Allow: POST, PUT, DELETE\r\n",
    }
}

// The line that says that the connection closes.
fn close_text(closes: bool) -> &'static str
    ensures { result.now ≡ close_line closes }
{
    if closes { "Connection: close\r\n" } else { "" }
}

// The first two lines of a reply.
fn first_lines(alloc: Global, status: StatusCode, kind: Kind) -> Result<String, AllocError>
    ensures { IfOk result (λ text. string_bytes text ≡ first_lines status kind) }
{
    let code = status.as_u16();
    let phrase = phrase(code);
    let media = media_type(kind);
    format!(in alloc; "HTTP/1.1 {code} {phrase}\r\nContent-Type: {media}\r\n")
}

// The other lines of a reply before its body.
fn last_lines(
    alloc: Global,
    size: usize,
    allow: Option<Allow>,
    closes: bool,
) -> Result<String, AllocError>
    ensures { IfOk result (λ text. string_bytes text ≡ last_lines size allow closes) }
{
    let methods = allow_text(allow);
    let close = close_text(closes);
    format!(in alloc; "Content-Length: {size}\r\n{methods}{close}\r\n")
}

/// The bytes of a reply: its status, its type, the length of its body, the methods of the path where
/// they are told, whether the connection closes, and the body.
///
/// # Errors
/// Out of memory.
pub fn reply(
    alloc: Global,
    status: StatusCode,
    kind: Kind,
    allow: Option<Allow>,
    closes: bool,
    body: &[u8],
) -> Result<Vec<u8>, AllocError>
    ensures { IfOk result (λ bytes. bytes.items ≡ reply_text status kind allow closes body.now) }
{
    let first = first_lines(alloc, status, kind)?;
    let last = last_lines(alloc, body.len(), allow, closes)?;
    let mut bytes = Vec::with_capacity(alloc, HEAD_ROOM + body.len())?;
    bytes.extend_from_slice(first.as_bytes())?;
    bytes.extend_from_slice(last.as_bytes())?;
    bytes.extend_from_slice(body)?;
    Ok(bytes)
}
