//! Which labels wait.
ghost use Rattle.std.specs.Prelude.{◌≡◌, ◌+◌, ◌<◌, ◌≤◌, true, false, List, length, replicate, slice_index_or, slice_set, IfOk, IsTrue};
ghost use Rattle.ml_ratio.specs.Limits.{most_labels};
ghost use Rattle.ml_repair.specs.Waiting.{NoneWaits, AllWait};

use ml_ratio::MOST_LABELS;
use std::alloc::{AllocError, Global};
use std::marker::Model;

// So many labels share a word.
const SHARING: usize = 64;

// So many words do for the largest map.
const MOST_WORDS: usize = MOST_LABELS / SHARING;

/// Whether each of the labels waits.
///
/// Each edit clears it and goes through it whole, so it keeps one bit a label: 4 KB for the largest map.
#[derive(Drop)]
pub struct Waiting {
    words: Vec<u64>,
    many: usize,
}

impl Model for Waiting {
    ghost use Rattle.std.specs.Prelude.{List, Bool};
    ghost use Rattle.ml_repair.specs.Waiting.{waiting_in, HaveRoom};

    ghost Value = { List Bool };

    ghost view = { λ w. waiting_in w.words.items w.many };

    ghost invariant = { λ w. HaveRoom w.words.items w.many };
}

impl Waiting {
    /// None of so many labels waits.
    ///
    /// # Errors
    /// Out of memory.
    pub fn none(alloc: Global, many: usize) -> Result<Waiting, AllocError>
        requires { many ≤ most_labels }
        ensures { IfOk result (λ waiting. waiting ≡ replicate many false) }
    {
        // copied at once: `vec!` would write one word after another
        let clear = [0; MOST_WORDS];
        let words = Vec::from_slice(alloc, &clear[..many.div_ceil(SHARING)])?;
        Ok(Waiting { words, many })
    }

    /// How many labels there are.
    pub fn len(&self) -> usize
        ensures count { result ≡ length self.now }
        ensures few { result ≤ most_labels }
    {
        self.many
    }

    /// Whether the label at a place waits.
    pub fn has(&self, place: usize) -> bool
        requires { place < length self.now }
        ensures { result ≡ slice_index_or self.now place false }
    {
        (self.words[place / SHARING] >> (place % SHARING)) & 1 == 1
    }

    /// The label at a place waits from now on.
    pub fn wake(&mut self, place: usize)
        requires { place < length self.old }
        ensures { self.new ≡ slice_set self.old place true }
    {
        let word = self.words[place / SHARING];
        self.words[place / SHARING] = word | 1u64 << (place % SHARING);
    }

    /// The first place from `from` on whose label waits; the end where none does.
    ///
    /// Few of many labels wait, so it passes over all labels of a word at once.
    pub fn next(&self, from: usize) -> usize
        requires { from ≤ length self.now }
        ensures behind { from ≤ result }
        ensures within { result ≤ length self.now }
        ensures idle { NoneWaits self.now from result }
        ensures found { result < length self.now → IsTrue (slice_index_or self.now result false) }
    {
        let mut at = from;
        while at < self.many {
            let waiting = self.words[at / SHARING] >> (at % SHARING);
            if waiting != 0 {
                return self.many.min(at + waiting.trailing_zeros() as usize);
            }
            at += SHARING - at % SHARING;
        }
        self.many
    }

    /// The first place from `from` on whose label does not wait; the end where all do.
    pub fn next_idle(&self, from: usize) -> usize
        requires { from ≤ length self.now }
        ensures behind { from ≤ result }
        ensures within { result ≤ length self.now }
        ensures waiting { AllWait self.now from result }
        ensures found { ¬ (IsTrue (slice_index_or self.now result false)) }
    {
        let mut at = from;
        while at < self.many {
            let idle = !self.words[at / SHARING] >> (at % SHARING);
            if idle != 0 {
                return self.many.min(at + idle.trailing_zeros() as usize);
            }
            at += SHARING - at % SHARING;
        }
        self.many
    }
}
