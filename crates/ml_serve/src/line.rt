//! The line that says how many connections were served.
ghost use Rattle.std.specs.Prelude.{OnOk, OnErr};
ghost use Rattle.ml_io.specs.Causes.{HasCause, Appends, AppendsPart};
ghost use Rattle.ml_serve.specs.Printed.{served_line};

use ml_io::laws::{append_part_after, append_twice, part_of_more};
use ml_io::{Failed, Sink, put_all, put_number};

/// Writes how many connections were served. It takes no memory.
///
/// # Errors
/// `Failed` comes only where the sink's count of faults rose in this call; a part of the line was
/// written.
pub(crate) fn put_served<K: Sink>(sink: &mut K, number: u64) -> Result<(), Failed>
    ensures ok { OnOk result
        (Appends (K.written sink.old) (K.written sink.new) (served_line number)) }
    ensures err { OnErr result
        (AppendsPart (K.written sink.old) (K.written sink.new) (served_line number)) }
    ensures cause { HasCause (K.faults sink.old) (K.faults sink.new) result }
{
    append_twice::<u8>();
    append_part_after();
    part_of_more();
    match put_all(sink, b"served ") {
        Ok(()) => {}
        Err(_) => return Err(Failed),
    }
    match put_number(sink, number) {
        Ok(()) => {}
        Err(_) => return Err(Failed),
    }
    match put_all(sink, b"\n") {
        Ok(()) => Ok(()),
        Err(_) => Err(Failed),
    }
}
