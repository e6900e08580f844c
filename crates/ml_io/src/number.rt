//! Numbers that go out, without taking memory.
ghost use Rattle.std.specs.Prelude.{OnOk, OnErr, decimal};
ghost use Rattle.ml_io.specs.Causes.{HasCause, Appends, AppendsPart};

use crate::failed::Failed;
use crate::sink::{Sink, put_all};
use itoa::Buffer;

/// Writes a number in decimal digits. It takes no memory.
///
/// # Errors
/// `Failed` comes only where the sink's count of faults rose in this call; a prefix of the digits
/// that is not the whole was appended.
pub fn put_number<K: Sink>(sink: &mut K, number: u64) -> Result<(), Failed>
    ensures ok { OnOk result (Appends (K.written sink.old) (K.written sink.new) (decimal number)) }
    ensures err { OnErr result
        (AppendsPart (K.written sink.old) (K.written sink.new) (decimal number)) }
    ensures cause { HasCause (K.faults sink.old) (K.faults sink.new) result }
{
    let mut buffer = Buffer::new();
    let digits = buffer.format(number);
    put_all(sink, digits.as_bytes())
}
