//! The numbers by which labels are known.
ghost use Rattle.std.specs.Prelude.{ℕ, ◌≡◌, ◌<◌, ◌≤◌, ◌↔◌, [], List, length, All, Contains, IfOk, MatchOption, insert, remove, slice_index};
ghost use Rattle.ml_ratio.specs.Limits.{most_labels};
ghost use Rattle.ml_store.specs.Rows.{AreDifferent};
ghost use Rattle.ml_store.specs.Numbers.{IsAt};

use crate::tiers::Tiers;
use ml_ratio::MOST_LABELS;
use std::alloc::{AllocError, Global};
use std::marker::Model;

/// Different numbers below 32,768 in some order, each found at once.
#[derive(Drop)]
pub struct Numbers {
    // The numbers in use come first, and behind them those that are free.
    tiers: Tiers,
    used: usize,
}

impl Model for Numbers {
    ghost use Rattle.std.specs.Prelude.{List, ℕ, take};
    ghost use Rattle.ml_store.specs.Numbers.{AreInUse};

    ghost Value = { List ℕ };

    ghost view = { λ n. take n.used n.tiers };

    ghost invariant = { λ n. AreInUse n.tiers n.used };
}

impl Numbers {
    /// No number is in use.
    ///
    /// # Errors
    /// Out of memory.
    pub fn new(alloc: Global) -> Result<Numbers, AllocError>
        ensures { IfOk result (λ numbers. numbers ≡ []) }
    {
        Numbers::first(alloc, 0)
    }

    /// The first numbers are in use, ascending.
    ///
    /// # Errors
    /// Out of memory.
    pub fn first(alloc: Global, used: usize) -> Result<Numbers, AllocError>
        requires { used ≤ most_labels }
        ensures count { IfOk result (λ numbers. length numbers ≡ used) }
        ensures ascending { IfOk result
            (λ numbers. (k : ℕ) → k < used → slice_index numbers k ≡ k) }
    {
        let tiers = Tiers::of(alloc, &[])?;
        Ok(Numbers { tiers, used })
    }

    /// These numbers are in use, in this order.
    ///
    /// # Errors
    /// Out of memory.
    pub fn of(alloc: Global, order: &[u32]) -> Result<Numbers, AllocError>
        requires few { length order.now ≤ most_labels }
        requires first { (n : ℕ) → Contains order.now n ↔ n < length order.now }
        requires differ { AreDifferent order.now }
        ensures { IfOk result (λ numbers. numbers ≡ order.now) }
    {
        let tiers = Tiers::of(alloc, order)?;
        Ok(Numbers {
            tiers,
            used: order.len(),
        })
    }

    /// How many numbers are in use: at most 32,768, different ones and each below that.
    pub fn len(&self) -> usize
        ensures count { result ≡ length self.now }
        ensures few { length self.now ≤ most_labels }
        ensures low { All (λ n. n < most_labels) self.now }
        ensures differ { AreDifferent self.now }
    {
        self.used
    }

    /// The number in use at a place.
    pub fn at(&self, k: usize) -> u32
        requires { k < length self.now }
        ensures { result ≡ slice_index self.now k }
    {
        self.tiers.at(k)
    }

    /// The place of a number; none where it is not in use.
    pub fn place_of(&self, number: u32) -> Option<usize>
        ensures place { MatchOption result (¬ (Contains self.now number)) (IsAt self.now number) }
        ensures differ { AreDifferent self.now }
    {
        if (number as usize) < MOST_LABELS {
            let at = self.tiers.place_of(number as usize);
            if at < self.used { Some(at) } else { None }
        } else {
            None
        }
    }

    /// A number that is not in use.
    pub fn free(&self) -> u32
        requires { length self.now < most_labels }
        ensures free { ¬ (Contains self.now result) }
        ensures low { result < most_labels }
    {
        self.tiers.at(self.used)
    }

    /// A number that is not in use comes into use at `at`.
    pub fn insert(&mut self, at: usize, number: u32)
        requires is_place { at ≤ length self.old }
        requires free { ¬ (Contains self.old number) }
        requires low { number < most_labels }
        ensures inserted { self.new ≡ insert self.old at number }
        ensures few { length self.old < most_labels }
    {
        let from = self.tiers.place_of(number as usize);
        self.tiers.shift(from, at);
        self.used += 1;
    }

    /// The number at `at` is not in use any more.
    pub fn remove(&mut self, at: usize)
        requires is_place { at < length self.old }
        ensures { self.new ≡ remove self.old at }
    {
        self.tiers.shift(at, self.used - 1);
        self.used -= 1;
    }
}
