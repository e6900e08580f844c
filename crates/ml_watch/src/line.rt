//! The line of a change, written into a sink without taking memory.
ghost use Rattle.std.specs.Prelude.{◌≡◌, ◌<◌, ◌++◌, ◌∷◌, [], ℕ, length, flat_map, codes, OnOk};
ghost use Rattle.ml_io.specs.Causes.{HasCause};
ghost use Rattle.ml_watch.specs.Line.{byte_text, id_text, spaced_span, change_line};
ghost use Rattle.ml_watch.specs.Puts.{Puts, HeldPuts, Grows, with_held};

use crate::change::Change;
use crate::held::Held;
use crate::id::{hex_digit, is_plain};
use itoa::Buffer;
use ml_cone::Span;
use ml_io::{Failed, Sink};

/// Writes the line of a change: `ID BEFORE AFTER` and LF. The bytes are given to the sink in pieces of 256 and
/// what is left.
pub(crate) fn put_line<K: Sink>(sink: &mut K, change: &Change) -> Result<(), Failed>
    ensures { Puts (K.written sink.old) (K.written sink.new) (K.faults sink.old)
        (K.faults sink.new) (change_line change.now) result }
{
    let mut held = Held::new();
    match put_change(sink, &mut held, change) {
        Ok(()) => give(sink, &mut held),
        Err(fault) => Err(fault),
    }
}

// Gives the bytes that are held back to the sink. After a fault those that it did not take are held still.
fn give<K: Sink>(sink: &mut K, held: &mut Held) -> Result<(), Failed>
    ensures ok { OnOk result (held.new ≡ []) }
    ensures same { with_held (K.written sink.new) held.new
        ≡ with_held (K.written sink.old) held.old }
    ensures grows { Grows (K.written sink.old) (K.written sink.new) }
    ensures cause { HasCause (K.faults sink.old) (K.faults sink.new) result }
{
    while !held.is_empty() {
        let count = sink.put(held.as_slice())?;
        if count == 0 {
            return Err(Failed);
        }
        held.drop_front(count);
    }
    Ok(())
}

// Makes room for another byte.
fn make_room<K: Sink>(sink: &mut K, held: &mut Held) -> Result<(), Failed>
    ensures room { OnOk result (length held.new < 256) }
    ensures same { with_held (K.written sink.new) held.new
        ≡ with_held (K.written sink.old) held.old }
    ensures grows { Grows (K.written sink.old) (K.written sink.new) }
    ensures cause { HasCause (K.faults sink.old) (K.faults sink.new) result }
{
    if held.is_full() {
        give(sink, held)
    } else {
        Ok(())
    }
}

// Writes a change: `ID BEFORE AFTER` and LF.
fn put_change<K: Sink>(sink: &mut K, held: &mut Held, change: &Change) -> Result<(), Failed>
    ensures { HeldPuts (K.written sink.old) (K.written sink.new) held.old held.new
        (K.faults sink.old) (K.faults sink.new) (change_line change.now) result }
{
    match put_id(sink, held, change.id.as_str()) {
        Ok(()) => put_spans(sink, held, change.before, change.after),
        Err(fault) => Err(fault),
    }
}

// Writes the two spans, each behind a blank, and LF.
fn put_spans<K: Sink>(
    sink: &mut K,
    held: &mut Held,
    before: Option<Span>,
    after: Option<Span>,
) -> Result<(), Failed>
    ensures { HeldPuts (K.written sink.old) (K.written sink.new) held.old held.new
        (K.faults sink.old) (K.faults sink.new)
        (spaced_span before ++ (spaced_span after ++ codes "\n")) result }
{
    match put_span(sink, held, before) {
        Ok(()) => put_last(sink, held, after),
        Err(fault) => Err(fault),
    }
}

// Writes the last span, behind a blank, and LF.
fn put_last<K: Sink>(sink: &mut K, held: &mut Held, after: Option<Span>) -> Result<(), Failed>
    ensures { HeldPuts (K.written sink.old) (K.written sink.new) held.old held.new
        (K.faults sink.old) (K.faults sink.new)
        (spaced_span after ++ codes "\n") result }
{
    match put_span(sink, held, after) {
        Ok(()) => put_text(sink, held, "\n"),
        Err(fault) => Err(fault),
    }
}

// Writes a span behind a blank; a missing one is `-`.
fn put_span<K: Sink>(sink: &mut K, held: &mut Held, span: Option<Span>) -> Result<(), Failed>
    ensures { HeldPuts (K.written sink.old) (K.written sink.new) held.old held.new
        (K.faults sink.old) (K.faults sink.new) (spaced_span span) result }
{
    let Some(span) = span else {
        return put_text(sink, held, " -");
    };
    let (mut n, mut d) = (Buffer::new(), Buffer::new());
    let (mut m, mut e) = (Buffer::new(), Buffer::new());
    let pieces = [
        " ",
        n.format(span.min.num()),
        "/",
        d.format(span.min.den()),
        "..",
        m.format(span.until.num()),
        "/",
        e.format(span.until.den()),
    ];
    put_pieces(sink, held, &pieces)
}

// Writes pieces of text, one behind the other.
fn put_pieces<K: Sink>(sink: &mut K, held: &mut Held, pieces: &[&str]) -> Result<(), Failed>
    ensures { HeldPuts (K.written sink.old) (K.written sink.new) held.old held.new
        (K.faults sink.old) (K.faults sink.new)
        (flat_map (λ piece. piece.now) pieces.now) result }
{
    for piece in pieces {
        match put_text(sink, held, piece) {
            Ok(()) => {}
            Err(fault) => return Err(fault),
        }
    }
    Ok(())
}

// Writes an id; an empty one is `%`.
fn put_id<K: Sink>(sink: &mut K, held: &mut Held, id: &str) -> Result<(), Failed>
    ensures { HeldPuts (K.written sink.old) (K.written sink.new) held.old held.new
        (K.faults sink.old) (K.faults sink.new) (id_text id.now) result }
{
    if id.is_empty() {
        put_text(sink, held, "%")
    } else {
        put_bytes(sink, held, id.as_bytes())
    }
}

// Writes the bytes of an id.
fn put_bytes<K: Sink>(sink: &mut K, held: &mut Held, bytes: &[u8]) -> Result<(), Failed>
    ensures { HeldPuts (K.written sink.old) (K.written sink.new) held.old held.new
        (K.faults sink.old) (K.faults sink.new)
        (flat_map byte_text bytes.now) result }
{
    for byte in bytes {
        match put_byte(sink, held, *byte) {
            Ok(()) => {}
            Err(fault) => return Err(fault),
        }
    }
    Ok(())
}

// Writes a byte of an id: as it is, or as `%` and two upper-case hexadecimal digits.
fn put_byte<K: Sink>(sink: &mut K, held: &mut Held, byte: u8) -> Result<(), Failed>
    ensures { HeldPuts (K.written sink.old) (K.written sink.new) held.old held.new
        (K.faults sink.old) (K.faults sink.new) (byte_text byte) result }
{
    if is_plain(byte) {
        put_piece(sink, held, &[byte])
    } else {
        put_piece(
            sink,
            held,
            &[b'%', hex_digit(byte / 16), hex_digit(byte % 16)],
        )
    }
}

// Writes a text.
fn put_text<K: Sink>(sink: &mut K, held: &mut Held, text: &str) -> Result<(), Failed>
    ensures { HeldPuts (K.written sink.old) (K.written sink.new) held.old held.new
        (K.faults sink.old) (K.faults sink.new) text.now result }
{
    put_piece(sink, held, text.as_bytes())
}

// Writes bytes.
fn put_piece<K: Sink>(sink: &mut K, held: &mut Held, piece: &[u8]) -> Result<(), Failed>
    ensures { HeldPuts (K.written sink.old) (K.written sink.new) held.old held.new
        (K.faults sink.old) (K.faults sink.new) piece.now result }
{
    for byte in piece {
        match put_one(sink, held, *byte) {
            Ok(()) => {}
            Err(fault) => return Err(fault),
        }
    }
    Ok(())
}

// Writes one byte.
fn put_one<K: Sink>(sink: &mut K, held: &mut Held, byte: u8) -> Result<(), Failed>
    ensures { HeldPuts (K.written sink.old) (K.written sink.new) held.old held.new
        (K.faults sink.old) (K.faults sink.new) (byte ∷ []) result }
{
    match make_room(sink, held) {
        Ok(()) => {
            held.push(byte);
            Ok(())
        }
        Err(fault) => Err(fault),
    }
}
