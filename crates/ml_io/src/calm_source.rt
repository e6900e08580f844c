//! A source in memory that never fails.
ghost use Rattle.std.specs.Prelude.{◌≡◌, ◌<◌, ◌≤◌, Some, [], IfOk, IsOk, OnErr, length, min, take};
ghost use Rattle.ml_io.specs.Causes.{HasCause};
ghost use Rattle.ml_io.specs.Takes.{Draws, HasRunOut};

use crate::failed::Failed;
use crate::mem_source::copy_front;
use crate::source::Source;
use std::marker::Model;

/// Bytes in memory, of which a call gives as many as fit its buffer. It tells them.
#[derive(Drop)]
pub struct CalmSource {
    bytes: Vec<u8>,
    at: usize,
}

impl Model for CalmSource {
    ghost use Rattle.std.specs.Prelude.{◌≤◌, ℕ, List, drop, vec_len};

    ghost Value = { List ℕ };

    ghost view = { λ a. drop a.at a.bytes.items };

    ghost invariant = { λ a. a.at ≤ vec_len a.bytes };
}

impl CalmSource {
    /// These bytes.
    pub fn new(bytes: Vec<u8>) -> CalmSource
        ensures { result ≡ bytes.items }
    {
        CalmSource { bytes, at: 0 }
    }
}

impl Source for CalmSource {
    ghost left = { λ s. Some s };

    ghost faults = { λ _. 0 };

    /// Gives as many bytes as there are and fit the buffer.
    fn take(&mut self, buf: &mut [u8]) -> Result<usize, Failed>
        ensures bound { IfOk result (λ n. n ≤ length buf.new) }
        ensures ok { IfOk result (λ n. Draws (Some self.old) (Some self.new) (take n buf.new)) }
        ensures err { OnErr result (Draws (Some self.old) (Some self.new) []) }
        ensures end { IfOk result (λ n. n ≡ 0 → 0 < length buf.new → HasRunOut (Some self.new)) }
        ensures cause { HasCause 0 0 result }
        ensures calm { IsOk result }
        ensures count { IfOk result (λ n. n ≡ min (length self.old) (length buf.new)) }
    {
        let (_, rest) = self.bytes.split_at(self.at);
        let count = copy_front(rest, buf, rest.len());
        self.at += count;
        Ok(count)
    }
}
