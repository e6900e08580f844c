//! Bytes that were taken from a source and not used yet.
ghost use Rattle.std.specs.Prelude.{◌≡◌, ◌+◌, ◌-◌, ◌<◌, ◌≤◌, ◌++◌, [], IfOk, OnOk, OnErr, length, take, drop};
ghost use Rattle.ml_io.specs.Causes.{HasCause};
ghost use Rattle.ml_io.specs.Takes.{Draws, HasRunOut};
ghost use Rattle.ml_request.specs.Held.{Gains};

use ml_io::{Failed, Source};
use std::alloc::{AllocError, Global};
use std::marker::Model;

/// How many bytes are held at most: a head is no longer.
pub(crate) const ROOM: usize = 16384;

/// The bytes that a connection has brought and no request has used, in a part of a buffer of fixed
/// length. They are moved to its front only where there is no room behind them.
#[derive(Drop)]
pub struct Held {
    buffer: Vec<u8>,
    start: usize,
    count: usize,
}

impl Model for Held {
    ghost use Rattle.std.specs.Prelude.{◌≡◌, ◌≤◌, ◌+◌, List, ℕ, take, drop, vec_len};

    ghost Value = { List ℕ };

    ghost view = { λ a. take a.count (drop a.start a.buffer.items) };

    ghost invariant = { λ a. (vec_len a.buffer ≡ 16384) × (a.start + a.count ≤ 16384) };
}

impl Held {
    /// No bytes yet, and room for as many as a head may have.
    ///
    /// # Errors
    /// Out of memory.
    pub fn new(alloc: Global) -> Result<Held, AllocError>
        ensures { IfOk result (λ held. held ≡ []) }
    {
        // copied at once: `vec!` would write one byte after another, for each connection
        let buffer = Vec::from_slice(alloc, &[0u8; ROOM])?;
        Ok(Held {
            buffer,
            start: 0,
            count: 0,
        })
    }

    /// The bytes held.
    pub(crate) fn as_slice(&self) -> &[u8]
        ensures bytes { result.now ≡ self.now }
        ensures room { length self.now ≤ 16384 }
    {
        let (_, rest) = self.buffer.split_at(self.start);
        let (held, _) = rest.split_at(self.count);
        held
    }

    /// How many bytes are held.
    pub(crate) fn len(&self) -> usize
        ensures len { result ≡ length self.now }
        ensures room { length self.now ≤ 16384 }
    {
        self.count
    }

    /// Takes what the source gives, behind the bytes held, and says how many bytes came. None came
    /// only where the input has ended.
    ///
    /// # Errors
    /// The source failed.
    pub(crate) fn fill<S: Source>(&mut self, source: &mut S) -> Result<usize, Failed>
        requires { length self.old < 16384 }
        ensures gains { Gains (S.left source.old) (S.left source.new) self.old self.new }
        ensures count { IfOk result (λ n. length self.new ≡ length self.old + n) }
        ensures err { OnErr result (self.new ≡ self.old) }
        ensures end { IfOk result (λ n. n ≡ 0 → HasRunOut (S.left source.new)) }
        ensures cause { HasCause (S.faults source.old) (S.faults source.new) result }
    {
        let (start, taken) = refill(source, &mut self.buffer, self.start, self.count);
        self.start = start;
        match taken {
            Ok(count) => {
                self.count += count;
                Ok(count)
            }
            Err(fault) => Err(fault),
        }
    }

    /// Passes over the first bytes.
    pub(crate) fn pass(&mut self, count: usize)
        requires { count ≤ length self.old }
        ensures { self.new ≡ drop count self.old }
    {
        self.start += count;
        self.count -= count;
    }

    /// Moves the first bytes, up to so many, behind those of `body`.
    ///
    /// # Errors
    /// Out of memory; nothing was moved.
    pub(crate) fn move_into(&mut self, body: &mut Vec<u8>, wanted: usize) -> Result<(), AllocError>
        ensures body { OnOk result (body.new.items ≡ body.old.items ++ take wanted self.old) }
        ensures held { OnOk result (self.new ≡ drop wanted self.old) }
        ensures err { OnErr result (self.new ≡ self.old) }
    {
        let count = wanted.min(self.count);
        let (front, _) = self.as_slice().split_at(count);
        body.extend_from_slice(front)?;
        self.pass(count);
        Ok(())
    }
}

// Takes what the source gives, behind the bytes of a part of the buffer. Says where they begin
// afterwards, and how many bytes came.
fn refill<S: Source>(
    source: &mut S,
    buffer: &mut [u8],
    start: usize,
    count: usize,
) -> (usize, Result<usize, Failed>)
    requires within { start + count ≤ length buffer.old }
    requires room { count < length buffer.old }
    ensures gains { IfOk result.1 (λ n. Gains (S.left source.old) (S.left source.new)
        (take count (drop start buffer.old)) (take (count + n) (drop result.0 buffer.new))) }
    ensures err { OnErr result.1
        (take count (drop result.0 buffer.new) ≡ take count (drop start buffer.old)) }
    ensures nothing { OnErr result.1 (Draws (S.left source.old) (S.left source.new) []) }
    ensures bound { IfOk result.1 (λ n. result.0 + (count + n) ≤ length buffer.new) }
    ensures within { result.0 + count ≤ length buffer.new }
    ensures end { IfOk result.1 (λ n. n ≡ 0 → HasRunOut (S.left source.new)) }
    ensures cause { HasCause (S.faults source.old) (S.faults source.new) result.1 }
{
    let start = make_room(buffer, start, count);
    let taken = take_behind(source, buffer, start + count);
    (start, taken)
}

// Makes room behind the bytes of a part of the buffer, and says where they begin afterwards.
fn make_room(buffer: &mut [u8], start: usize, count: usize) -> usize
    requires within { start + count ≤ length buffer.old }
    requires room { count < length buffer.old }
    ensures same { take count (drop result buffer.new) ≡ take count (drop start buffer.old) }
    ensures room { result + count < length buffer.new }
{
    if count == 0 {
        return 0;
    }
    if start + count < buffer.len() {
        return start;
    }
    buffer.rotate_left(start);
    0
}

// Takes what the source gives behind the first bytes of the buffer.
fn take_behind<S: Source>(source: &mut S, buffer: &mut [u8], filled: usize) -> Result<usize, Failed>
    requires { filled < length buffer.old }
    ensures front { take filled buffer.new ≡ take filled buffer.old }
    ensures bound { IfOk result (λ n. filled + n ≤ length buffer.new) }
    ensures ok { IfOk result (λ n.
        Draws (S.left source.old) (S.left source.new) (take n (drop filled buffer.new))) }
    ensures err { OnErr result (Draws (S.left source.old) (S.left source.new) []) }
    ensures end { IfOk result (λ n. n ≡ 0 → HasRunOut (S.left source.new)) }
    ensures cause { HasCause (S.faults source.old) (S.faults source.new) result }
{
    let (_, room) = buffer.split_at_mut(filled);
    source.take(room)
}
