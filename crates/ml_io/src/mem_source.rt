//! A source in memory, which tells its bytes and fails at listed calls.
ghost use Rattle.std.specs.Prelude.{◌≡◌, ◌<◌, ◌≤◌, ◌↔◌, Some, [], Contains, IfOk, IsOk, OnErr, length, min, take, drop, ◌++◌};
ghost use Rattle.ml_io.specs.Causes.{HasCause};
ghost use Rattle.ml_io.specs.MemSource.{fresh_source, TakeLeaves};
ghost use Rattle.ml_io.specs.Takes.{Draws, HasRunOut};

use crate::failed::Failed;
use crate::failing::FailingCalls;
use crate::source::Source;
use std::marker::Model;

/// Bytes in memory, of which a call gives at most a fixed number.
#[derive(Drop)]
pub struct MemSource {
    bytes: Vec<u8>,
    at: usize,
    cut: usize,
    calls: FailingCalls,
    faults: u64,
}

impl Model for MemSource {
    ghost use Rattle.std.specs.Prelude.{◌≤◌, ◌<◌, drop, vec_len};
    ghost use Rattle.ml_io.specs.MemSource.{MemSourceState};

    ghost Value = { MemSourceState };

    ghost view = { λ a. record {
      left = drop a.at a.bytes.items;
      cut = a.cut;
      fails = a.calls.listed.items;
      calls = a.calls.made;
      faults = a.faults;
    } };

    ghost invariant = { λ a. (a.at ≤ vec_len a.bytes) × (0 < a.cut) };
}

impl MemSource {
    /// These bytes, of which a call gives at most `cut`. Its calls of `take` that `fails` lists,
    /// counted from 0, fail.
    pub fn new(bytes: Vec<u8>, cut: usize, fails: Vec<u64>) -> MemSource
        requires { 0 < cut }
        ensures { result ≡ fresh_source bytes.items cut fails.items }
    {
        MemSource {
            bytes,
            at: 0,
            cut,
            calls: FailingCalls::new(fails),
            faults: 0,
        }
    }
}

impl Source for MemSource {
    ghost left = { λ s. Some s.left };

    ghost faults = { λ s. s.faults };

    /// Gives as many bytes as there are, fit the buffer and the cut allows, exactly where this call
    /// is not listed.
    fn take(&mut self, buf: &mut [u8]) -> Result<usize, Failed>
        ensures bound { IfOk result (λ n. n ≤ length buf.new) }
        ensures ok { IfOk result (λ n.
            Draws (Some self.old.left) (Some self.new.left) (take n buf.new)) }
        ensures err { OnErr result (Draws (Some self.old.left) (Some self.new.left) []) }
        ensures end { IfOk result (λ n. n ≡ 0 → 0 < length buf.new →
            HasRunOut (Some self.new.left)) }
        ensures cause { HasCause self.old.faults self.new.faults result }
        ensures count { IfOk result (λ n.
            n ≡ min (min (length self.old.left) (length buf.new)) self.old.cut) }
        ensures taken { IsOk result ↔ (¬ (Contains self.old.fails self.old.calls)) }
        ensures same { TakeLeaves self.old self.new result }
    {
        if self.calls.next_fails() {
            self.faults = self.faults.saturating_add(1);
            return Err(Failed);
        }
        let (_, rest) = self.bytes.split_at(self.at);
        let count = copy_front(rest, buf, self.cut);
        self.at += count;
        Ok(count)
    }
}

// Copies as many bytes as there are, fit the buffer and are at most `most`, to the buffer's front.
pub(crate) fn copy_front(bytes: &[u8], buf: &mut [u8], most: usize) -> usize
    ensures count { result ≡ min (min (length bytes.now) (length buf.old)) most }
    ensures parts { bytes.now ≡ take result buf.new ++ drop result bytes.now }
{
    let count = bytes.len().min(buf.len()).min(most);
    let (piece, _) = bytes.split_at(count);
    let (front, _) = buf.split_at_mut(count);
    front.copy_from_slice(piece);
    count
}
