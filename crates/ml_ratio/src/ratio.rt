//! Fractions, bounded and in lowest terms.
ghost use Rattle.std.specs.Prelude.{ℕ, ◌≡◌, ◌*◌, ◌^◌, ◌<◌, ◌≤◌, ◌↔◌, IsTrue, IfOk, MatchBool};
ghost use Rattle.std.specs.Int.{IsGcd};
ghost use Rattle.ml_ratio.specs.RatioText.{both_numbers, ratio_parts};
ghost use Rattle.ml_ratio.specs.Lowest.{IsLowest};

use crate::number::read_digits;
use crate::text::Text;
use std::alloc::{AllocError, Global};
use std::cmp::Ordering;

/// A fraction `n/d` with `n` up to 2^32 and `d` in 1..=2^16, kept in lowest terms.
///
/// Equal values are the same fraction, so equality and hashing go by the parts; the order is by value.
#[derive(Clone, Copy, Debug, PartialEq, Eq, Hash)]
pub struct Ratio {
    num: u64,
    den: u64,
    ghost positive: { 0 < den },
    ghost low_num: { num ≤ 2 ^ 32 },
    ghost low_den: { den ≤ 2 ^ 16 },
    ghost lowest: { IsLowest num den },
}

impl Ord for Ratio {
    ghost use Rattle.ml_ratio.specs.RatioOrder.{ratio_cmp, ratio_total, ratio_matches_eq, ratio_matches_partial};

    ghost cmp = { ratio_cmp };

    ghost total = { ratio_total };

    ghost matches_partial_cmp = { ratio_matches_partial };

    ghost matches_eq = { ratio_matches_eq };

    fn cmp(&self, other: &Ratio) -> Ordering {
        (self.num * other.den).cmp(&(other.num * self.den))
    }
}

impl PartialOrd for Ratio {
    ghost use Rattle.ml_ratio.specs.RatioOrder.{ratio_cmp, ratio_partial_laws};
    ghost use Rattle.std.specs.Ordering.{as_partial_cmp};

    ghost partial_cmp = { as_partial_cmp ratio_cmp };

    ghost laws = { ratio_partial_laws };

    fn partial_cmp(&self, other: &Ratio) -> Option<Ordering> {
        Some(self.cmp(other))
    }
}

impl Ratio {
    ghost use Rattle.ml_ratio.specs.Ratio.{IsRatioOf, ReadsRatio, ratio_text};
    ghost use Rattle.ml_ratio.specs.Fraction.{IsLess, IsAtMost, value_of};
    ghost use Rattle.ml_ratio.specs.Band.{IsInBand};

    /// The fraction `n/d` in lowest terms.
    ///
    /// None exactly where `d` is 0, `d` is above 65536 or `n` is above 4294967296, as `n` and `d` stand.
    pub fn of(n: u64, d: u64) -> Option<Ratio>
        ensures { IsRatioOf n d result }
    {
        if d == 0 || d > 65536 || n > 4294967296 {
            return None;
        }
        let divisor = gcd(n, d);
        Some(Ratio {
            num: n / divisor,
            den: d / divisor,
        })
    }

    /// The numerator in lowest terms.
    pub fn num(&self) -> u64
        ensures { result ≡ self.now.num }
    {
        self.num
    }

    /// The denominator in lowest terms.
    pub fn den(&self) -> u64
        ensures { result ≡ self.now.den }
    {
        self.den
    }

    /// Whether the value is above 0 and below 2^28, as a scale of the map is.
    pub fn is_scale(&self) -> bool
        ensures { IsTrue result ↔ ((0 < self.now.num) × (self.now.num < 2 ^ 28 * self.now.den)) }
    {
        self.num > 0 && self.num < 268435456 * self.den
    }

    /// The band of the value: 0 below 2, and `k` from 2^k up to but not including 2^(k+1). A scale's
    /// band is at most 27.
    pub fn band(&self) -> u8
        ensures band { IsInBand (value_of self.now) result }
        ensures low { self.now.num < 2 ^ 28 * self.now.den → result < 28 }
    {
        let whole = self.num / self.den;
        if whole < 2 { 0 } else { whole.ilog2() as u8 }
    }

    /// Whether the value is less than the other's.
    pub fn is_less(&self, other: &Ratio) -> bool
        ensures { MatchBool result (IsLess (value_of self.now) (value_of other.now))
            (IsAtMost (value_of other.now) (value_of self.now)) }
    {
        self.num * other.den < other.num * self.den
    }

    /// Reads `n` or `n/d`, each of one to ten ASCII digits.
    ///
    /// None exactly for every other text, and where [`Ratio::of`] is none.
    pub fn read(text: &str) -> Option<Ratio>
        ensures { ReadsRatio text.now result }
    {
        match parts_of(text) {
            Some((n, d)) => Ratio::of(n, d),
            None => None,
        }
    }

    /// The text `n/d` in lowest terms, also `0/1` and `20/1`.
    ///
    /// # Errors
    /// Out of memory.
    pub fn text(&self, alloc: Global) -> Result<Text, AllocError>
        ensures { IfOk result (λ t. t ≡ ratio_text self.now) }
    {
        let num = self.num;
        let den = self.den;
        Ok(Text::of_string(format!(in alloc; "{num}/{den}")?))
    }
}

// The numbers that `n/d` writes, or that `n` writes over 1.
fn parts_of(text: &str) -> Option<(u64, u64)>
    ensures { result ≡ ratio_parts text.now }
{
    match text.split_once('/') {
        Some((upper, lower)) => both_of(read_digits(upper), read_digits(lower)),
        None => both_of(read_digits(text), Some(1)),
    }
}

// Both numbers, where both are there.
fn both_of(upper: Option<u64>, lower: Option<u64>) -> Option<(u64, u64)>
    ensures { result ≡ both_numbers upper lower }
{
    match (upper, lower) {
        (Some(n), Some(d)) => Some((n, d)),
        _ => None,
    }
}

// The greatest common divisor, by Euclid's steps.
fn gcd(a: u64, b: u64) -> u64
    requires { 0 < b }
    ensures gcd { IsGcd a b result }
    ensures positive { 0 < result }
{
    let mut x = a;
    let mut y = b;
    while y != 0 {
        let rest = x % y;
        x = y;
        y = rest;
    }
    x
}
