//! Which label blocks which.
ghost use Rattle.std.specs.Prelude.{◌≡◌, ◌+◌, ◌≤◌, ◌⊎◌, ◌↔◌, Contains};
ghost use Rattle.ml_spans.specs.Spans.{entry_of};
ghost use Rattle.ml_store.specs.Pairs.{pair_count};
ghost use Rattle.ml_store.specs.Store.{Pair, IsPairBy};

use crate::same::same_blockers;
use ml_spans::SpanTree;

/// The index of blockers: for each label that another one blocks, the blocker's number as key, and its
/// own number as value.
pub type Pairs = SpanTree<u32, u32, u32>;

// Takes out a pair that is there.
fn take_out(pairs: &mut Pairs, blocker: u32, number: u32)
    requires there { Contains pairs.old.entries (entry_of blocker 0 number) }
    ensures pairs { (p : Pair) → Contains pairs.new.entries p
        ↔ (Contains pairs.old.entries p × (¬ (p ≡ entry_of blocker 0 number))) }
    ensures spare { pairs.new.spare ≡ pairs.old.spare + 1 }
{
    let _there = pairs.remove(&blocker, &0, &number);
}

// Puts in a pair that is not there.
fn put_in(pairs: &mut Pairs, blocker: u32, number: u32)
    requires room { 1 ≤ pairs.old.spare }
    requires new { ¬ (Contains pairs.old.entries (entry_of blocker 0 number)) }
    ensures pairs { (p : Pair) → Contains pairs.new.entries p
        ↔ (Contains pairs.old.entries p ⊎ (p ≡ entry_of blocker 0 number)) }
    ensures spare { pairs.new.spare + 1 ≡ pairs.old.spare }
{
    pairs.insert(blocker, 0, number);
}

/// Takes out the pair of a label and its blocker, if it has one.
pub fn take_pair(pairs: &mut Pairs, number: u32, blocker: Option<u32>)
    requires there { (p : Pair) → IsPairBy number blocker p → Contains pairs.old.entries p }
    ensures pairs { (p : Pair) → Contains pairs.new.entries p
        ↔ (Contains pairs.old.entries p × (¬ (IsPairBy number blocker p))) }
    ensures spare { pairs.new.spare ≡ pairs.old.spare + pair_count blocker }
{
    match blocker {
        Some(b) => take_out(pairs, b, number),
        None => {}
    }
}

/// Puts in the pair of a label and its blocker, if it has one.
pub fn put_pair(pairs: &mut Pairs, number: u32, blocker: Option<u32>)
    requires new { (p : Pair) → IsPairBy number blocker p → ¬ (Contains pairs.old.entries p) }
    requires room { pair_count blocker ≤ pairs.old.spare }
    ensures pairs { (p : Pair) →
        Contains pairs.new.entries p ↔ (Contains pairs.old.entries p ⊎ IsPairBy number blocker p) }
    ensures spare { pairs.new.spare + pair_count blocker ≡ pairs.old.spare }
{
    match blocker {
        Some(b) => put_in(pairs, b, number),
        None => {}
    }
}

/// The pair of a label and its blocker goes, and that with its new blocker comes, if that is another one.
pub fn change_pair(pairs: &mut Pairs, number: u32, from: Option<u32>, to: Option<u32>)
    requires its { (p : Pair) →
        (Contains pairs.old.entries p × (p.value ≡ number)) ↔ IsPairBy number from p }
    requires room { pair_count to ≤ pairs.old.spare + pair_count from }
    ensures pairs { (p : Pair) → Contains pairs.new.entries p
        ↔ ((Contains pairs.old.entries p × (¬ (p.value ≡ number))) ⊎ IsPairBy number to p) }
    ensures spare { pairs.new.spare + pair_count to ≡ pairs.old.spare + pair_count from }
{
    if !same_blockers(from, to) {
        take_pair(pairs, number, from);
        put_pair(pairs, number, to);
    }
}
