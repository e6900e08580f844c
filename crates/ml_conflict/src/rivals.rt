//! The rivals of a label, and the slot that they leave it.
ghost use Rattle.std.specs.Prelude.{ℕ, ◌≡◌, ◌+◌, ◌<◌, List, length, slice_index_or};
ghost use Rattle.ml_cone.specs.Slots.{Rival, IsSlotAmong};

use crate::block::block;
use ml_cone::{Label, Slot};
use ml_ratio::{Quotient, Ratio, Steps};
use std::sync::ledger::Ledger;

/// Labels that may bound another, each with a number and the end until which it is active.
///
/// No call takes memory.
pub trait RivalList {
    /// The rivals, in the order in which they are given.
    ghost rivals: { Self → List Rival };

    /// How many there are.
    fn count(&self) -> usize
        ensures { result ≡ length (rivals self.now) };

    /// The number of the rival at place `k`.
    fn number(&self, k: usize) -> u32
        requires { k < length (rivals self.now) }
        ensures { (d : Rival) → result ≡ (slice_index_or (rivals self.now) k d).number };

    /// The label of the rival at place `k`.
    fn label(&self, k: usize) -> &Label
        requires { k < length (rivals self.now) }
        ensures { (d : Rival) → result.now ≡ (slice_index_or (rivals self.now) k d).label };

    /// The end of the rival at place `k`.
    fn until(&self, k: usize) -> Ratio
        requires { k < length (rivals self.now) }
        ensures { (d : Rival) → result ≡ (slice_index_or (rivals self.now) k d).until };
}

/// The least of the label's maximum and the limits that the rivals set it, and the number of the
/// first rival that sets it where it is below the maximum. It spends one step and takes no memory.
pub fn evaluate<R: RivalList, L: Ledger>(low: &Label, rivals: &R, steps: &mut Steps<L>) -> Slot
    ensures own { IsSlotAmong low.now (R.rivals rivals.now) result }
    ensures spent { steps.new ≡ steps.old + 1 }
{
    steps.tick();
    let mut end = Quotient::of_ratio(&low.max());
    let mut blocker = None;
    for k in 0..rivals.count() {
        let first = block(low, rivals.label(k), &rivals.until(k), end);
        if first.is_less(end) {
            end = first;
            blocker = Some(rivals.number(k));
        }
    }
    Slot {
        until: end.reduced(),
        blocker,
    }
}
