//! Bytes that come in.
ghost use Rattle.std.specs.Prelude.{◌≡◌, ◌<◌, ◌≤◌, ℕ, List, [], Option, IfOk, OnErr, length, take};
ghost use Rattle.ml_io.specs.Causes.{HasCause};
ghost use Rattle.ml_io.specs.Takes.{Draws, HasRunOut};

use crate::failed::Failed;

/// Something that gives bytes, in order, and may fail.
pub trait Source {
    /// The bytes that are left, where the source tells them. One that does not tells at least, once it
    /// has said that the input is over, that none are left.
    ghost left: { Self → Option (List ℕ) };

    /// How often it has failed. The count never falls.
    ghost faults: { Self → ℕ };

    /// Asks for bytes. `Ok(n)`, with `n` at most the buffer's length, has put the next `n` bytes at
    /// the front of `buf`. `Ok(0)` for a buffer that is not empty is the end of input: no byte is left,
    /// and none will come.
    ///
    /// # Errors
    /// `Failed` comes only where the count of faults rose in this call; nothing was taken.
    fn take(&mut self, buf: &mut [u8]) -> Result<usize, Failed>
        ensures bound { IfOk result (λ n. n ≤ length buf.new) }
        ensures ok { IfOk result (λ n. Draws (left self.old) (left self.new) (take n buf.new)) }
        ensures err { OnErr result (Draws (left self.old) (left self.new) []) }
        ensures end { IfOk result (λ n. n ≡ 0 → 0 < length buf.new → HasRunOut (left self.new)) }
        ensures cause { HasCause (faults self.old) (faults self.new) result };
}
