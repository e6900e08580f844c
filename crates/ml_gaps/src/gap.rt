//! Ranges of scales, and how long they are.
ghost use Rattle.std.specs.Prelude.{◌≡◌, ◌+◌, ◌-◌, ◌*◌, ◌^◌, ◌≤◌, MatchBool};
ghost use Rattle.ml_ratio.specs.Fraction.{IsLess, IsAtMost, value_of};

use ml_ratio::Ratio;

/// A range of scales from `from` until `until`, the upper end left out, in which a label is active.
#[derive(Clone, Copy, Debug, PartialEq, Eq)]
pub struct Gap {
    pub from: Ratio,
    pub until: Ratio,
}

// A fraction that is not reduced.
#[derive(Clone, Copy)]
struct Length {
    num: u64,
    den: u64,
    ghost low_num: { num ≤ 2 ^ 48 },
    ghost low_den: { den ≤ 2 ^ 32 },
}

impl Gap {
    ghost use Rattle.ml_gaps.specs.Gap.{gap_length, length_of};

    // The range, where it is longer than the gap; the gap where it is not.
    pub(crate) fn or_longer(self, from: Ratio, until: Ratio) -> Gap
        requires { IsAtMost (value_of self.from) (value_of self.until) }
        ensures longer { IsLess (gap_length self) (length_of (value_of from) (value_of until)) →
            (result.from ≡ from) × (result.until ≡ until) }
        ensures kept { IsAtMost (length_of (value_of from) (value_of until)) (gap_length self) →
            result ≡ self }
    {
        if until.is_less(&from) {
            return self;
        }
        let here = length_between(self.from, self.until);
        let there = length_between(from, until);
        if is_shorter(here, there) {
            Gap { from, until }
        } else {
            self
        }
    }
}

// How long the range is. Both products are at most 2^48, and the denominator is at most 2^32.
fn length_between(from: Ratio, until: Ratio) -> Length
    requires { IsAtMost (value_of from) (value_of until) }
    ensures num { result.num ≡ until.num * from.den - from.num * until.den }
    ensures den { result.den ≡ until.den * from.den }
{
    Length {
        num: until.num() * from.den() - from.num() * until.den(),
        den: until.den() * from.den(),
    }
}

// Whether the first length is less than the second, by cross products, which are at most 2^80.
fn is_shorter(a: Length, b: Length) -> bool
    ensures { MatchBool result (a.num * b.den + 1 ≤ b.num * a.den) (b.num * a.den ≤ a.num * b.den) }
{
    a.num as u128 * (b.den as u128) < b.num as u128 * (a.den as u128)
}
