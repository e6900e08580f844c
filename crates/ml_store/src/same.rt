//! Whether slots are the same.
ghost use Rattle.std.specs.Prelude.{◌≡◌, ◌≢◌, MatchBool};

use ml_cone::Slot;
use ml_ratio::Ratio;
use std::cmp::Ordering;

/// Whether the ends are the same.
pub(crate) fn same_ends(one: &Ratio, other: &Ratio) -> bool
    ensures { MatchBool result (one.now ≡ other.now) (one.now ≢ other.now) }
{
    match one.cmp(other) {
        Ordering::Equal => true,
        _ => false,
    }
}

/// Whether the blockers are the same, or there is none either time.
pub(crate) fn same_blockers(one: Option<u32>, other: Option<u32>) -> bool
    ensures { MatchBool result (one ≡ other) (one ≢ other) }
{
    match (one, other) {
        (Some(a), Some(b)) => a == b,
        (None, None) => true,
        _ => false,
    }
}

/// Whether the slots have the same end and the same blocker.
pub fn same_slots(one: &Slot, other: &Slot) -> bool
    ensures { MatchBool result (one.now ≡ other.now) (one.now ≢ other.now) }
{
    same_ends(&one.until, &other.until) && same_blockers(one.blocker, other.blocker)
}
