//! A source over a reader of `std`, as standard input or a socket: a part of the trusted edge.
ghost use Rattle.std.specs.Prelude.{◌≡◌, ◌<◌, ◌≤◌, ◌||◌, true, false, [], IfOk, IsOk, OnErr, length, take};
ghost use Rattle.std.specs.Io.KnownBytes.{ReadConsumes};
ghost use Rattle.ml_io.specs.Causes.{HasCause};
ghost use Rattle.ml_io.specs.Takes.{Draws, HasRunOut};
ghost use Rattle.ml_io.specs.RealInput.{RealInputState, faults_after_call, says_end, told_left};

use crate::failed::Failed;
use crate::source::Source;
use std::io::Read;
use std::marker::Model;

/// A source over a reader of `std`. It tells nothing of content. Once the reader has said that the
/// input is over, it is asked no more.
#[derive(Drop)]
pub struct RealInput<R> {
    reader: R,
    faults: u64,
    ended: bool,
}

impl<R> Model for RealInput<R> {
    ghost use Rattle.ml_io.specs.Takes.{Draws, HasRunOut};
    ghost use Rattle.ml_io.specs.RealInput.{RealInputState};

    ghost Value = { RealInputState R };

    ghost view = { λ a. record { reader = a.reader; faults = a.faults; ended = a.ended } };
}

impl<R: Read> RealInput<R> {
    /// A source that has not failed yet.
    pub fn new(reader: R) -> RealInput<R>
        ensures { result ≡ record { reader = reader; faults = 0; ended = false } }
    {
        RealInput {
            reader,
            faults: 0,
            ended: false,
        }
    }
}

impl<R: Read> Source for RealInput<R> {
    ghost left = { λ s. told_left s.ended };

    ghost faults = { λ s. s.faults };

    /// Hands on what the reader gives.
    fn take(&mut self, buf: &mut [u8]) -> Result<usize, Failed>
        ensures bound { IfOk result (λ n. n ≤ length buf.new) }
        ensures ok { IfOk result (λ n.
            Draws (told_left self.old.ended) (told_left self.new.ended) (take n buf.new)) }
        ensures err { OnErr result
            (Draws (told_left self.old.ended) (told_left self.new.ended) []) }
        ensures end { IfOk result (λ n. n ≡ 0 → 0 < length buf.new →
            HasRunOut (told_left self.new.ended)) }
        ensures cause { HasCause self.old.faults self.new.faults result }
        ensures read { self.old.ended ≡ false
            → ReadConsumes (R.remaining self.old.reader)
            (R.remaining self.new.reader) result buf.new }
        ensures over { self.old.ended ≡ true → IsOk result × (self.new.reader ≡ self.old.reader) }
        ensures ended { self.new.ended ≡ (self.old.ended || says_end result (length buf.new)) }
        ensures counted { self.new.faults ≡ faults_after_call result self.old.faults }
    {
        if self.ended {
            return Ok(0);
        }
        match self.reader.read(buf) {
            Ok(count) => {
                self.ended = count == 0 && !buf.is_empty();
                Ok(count)
            }
            Err(_) => {
                self.faults = self.faults.saturating_add(1);
                Err(Failed)
            }
        }
    }
}
