//! What a run prints.
ghost use Rattle.std.specs.Prelude.{◌≡◌, ◌≤◌};
ghost use Rattle.ml_io.specs.Calls.{put};
ghost use Rattle.maplabel.specs.Outcome.{IsAnswerPrinted, IsPrinted, IsStopPrinted, IsVerdictPrinted, status_of, usage_line};
ghost use Rattle.maplabel.specs.declared.status.Status.TheVariants.{Usage};

use crate::status::Status;
use ml_cert::Verdict;
use ml_command::Stop;
use ml_io::{Failed, Sink, put_all};
use ml_ratio::Seq;

// What is printed for words that have none of the forms.
const USAGE: &str = "usage: maplabel show, slots, check, view, pipe, serve or gen\n";

/// Prints a text, and gives the status; `WriteFault` where not all was printed.
pub fn print<K: Sink>(out: &mut K, text: &[u8], status: Status) -> Status
    ensures printed { IsPrinted text.now status (put K.written K.faults out.old out.new) result }
    ensures later { K.faults out.old ≤ K.faults out.new }
{
    match put_all(out, text) {
        Ok(()) => status,
        Err(Failed) => Status::WriteFault,
    }
}

/// Prints the line of a stop, and gives its status; `WriteFault` where not all was printed.
pub fn print_stop<K: Sink>(out: &mut K, stop: &Stop) -> Status
    ensures printed { IsStopPrinted stop.now (put K.written K.faults out.old out.new) result }
    ensures later { K.faults out.old ≤ K.faults out.new }
{
    match stop {
        Stop::StyleRefused(line) => print(out, line.as_slice(), Status::StyleRefused),
        Stop::InputRefused(line) => print(out, line.as_slice(), Status::InputRefused),
        Stop::FileFault => print(out, b"file fault\n", Status::FileFault),
        Stop::TooLong => print(out, b"file too long\n", Status::TooLong),
        Stop::Memory => print(out, b"", Status::Memory),
    }
}

/// Prints a text that was due, or the line that says why there is none, and gives the status;
/// `WriteFault` where not all was printed.
pub fn print_answer<K: Sink>(out: &mut K, answer: Result<Seq<u8>, Stop>) -> Status
    ensures printed { IsAnswerPrinted answer (put K.written K.faults out.old out.new) result }
    ensures later { K.faults out.old ≤ K.faults out.new }
{
    match answer {
        Ok(text) => print(out, text.as_slice(), Status::Done),
        Err(stop) => print_stop(out, &stop),
    }
}

/// Prints the line of a verdict, or the one that says why there is none, and gives its status;
/// `WriteFault` where not all was printed.
pub fn print_verdict<K: Sink>(out: &mut K, answer: Result<(Verdict, Seq<u8>), Stop>) -> Status
    ensures printed { IsVerdictPrinted answer (put K.written K.faults out.old out.new) result }
    ensures later { K.faults out.old ≤ K.faults out.new }
{
    match answer {
        Ok((verdict, line)) => print(out, line.as_slice(), status_of(verdict)),
        Err(stop) => print_stop(out, &stop),
    }
}

// The status of a verdict.
fn status_of(verdict: Verdict) -> Status
    ensures { result ≡ status_of verdict }
{
    match verdict {
        Verdict::Best => Status::Done,
        Verdict::BadEnd(_) => Status::NotBest,
        Verdict::Clash(_, _, _) => Status::NotBest,
        Verdict::Uncovered(_) => Status::NotBest,
        Verdict::BadBlocker(_) => Status::NotBest,
    }
}

/// Prints the line for words that have none of the forms, and gives its status; `WriteFault` where not
/// all was printed.
pub fn print_usage<K: Sink>(out: &mut K) -> Status
    ensures printed { IsPrinted usage_line Usage (put K.written K.faults out.old out.new) result }
    ensures later { K.faults out.old ≤ K.faults out.new }
{
    print(out, USAGE.as_bytes(), Status::Usage)
}
