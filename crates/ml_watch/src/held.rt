//! Bytes that are held back for a sink.
ghost use Rattle.std.specs.Prelude.{◌≡◌, ◌↔◌, ◌<◌, ◌≤◌, ◌++◌, ◌∷◌, [], IsTrue, length, drop};

use std::marker::Model;

/// How many bytes are held back at most.
const ROOM: usize = 256;

/// Up to 256 bytes in order, so that a sink is asked for whole pieces and not for each byte.
#[derive(Drop)]
pub(crate) struct Held {
    bytes: [u8; 256],
    len: usize,
}

impl Model for Held {
    ghost use Rattle.std.specs.Prelude.{List, ℕ, take, ◌≤◌};

    ghost Value = { List ℕ };

    ghost view = { λ h. take h.len h.bytes };

    ghost invariant = { λ h. h.len ≤ 256 };
}

impl Held {
    /// No bytes.
    pub(crate) fn new() -> Held
        ensures { result ≡ [] }
    {
        Held {
            bytes: [0; 256],
            len: 0,
        }
    }

    /// Whether there are no bytes.
    pub(crate) fn is_empty(&self) -> bool
        ensures { IsTrue result ↔ (self.now ≡ []) }
    {
        self.len == 0
    }

    /// Whether there is no room for another byte.
    pub(crate) fn is_full(&self) -> bool
        ensures full { IsTrue result ↔ (length self.now ≡ 256) }
        ensures few { length self.now ≤ 256 }
    {
        self.len == ROOM
    }

    /// One more byte.
    pub(crate) fn push(&mut self, byte: u8)
        requires { length self.old < 256 }
        ensures { self.new ≡ self.old ++ byte ∷ [] }
    {
        self.bytes[self.len] = byte;
        self.len += 1;
    }

    /// The bytes.
    pub(crate) fn as_slice(&self) -> &[u8]
        ensures { result.now ≡ self.now }
    {
        &self.bytes[..self.len]
    }

    /// The first `n` bytes go.
    pub(crate) fn drop_front(&mut self, n: usize)
        requires { n ≤ length self.old }
        ensures { self.new ≡ drop n self.old }
    {
        self.bytes.copy_within(n..self.len, 0);
        self.len -= n;
    }
}
