//! What of labels and their ranges is enough to tell that they lie too far apart for one to block another.
ghost use Rattle.std.specs.Prelude.{◌+◌, ◌*◌, ◌<◌, ◌≤◌, ◌^◌, ◌⊎◌, ◌≡◌};

use ml_cone::{Label, Site};
use ml_ratio::{Quotient, Ratio};

/// The site of a label, and a whole number that a range of scales of the label does not go beyond.
#[derive(Clone, Copy)]
pub struct Near {
    pub site: Site,
    pub last: u64,
    ghost low: { last ≤ 2 ^ 32 },
}

impl Near {
    ghost use Rattle.std.specs.Prelude.{IsTrue};
    ghost use Rattle.ml_ratio.specs.Fraction.{Fraction, IsLess, value_of};
    ghost use Rattle.ml_cone.specs.Overlap.{Overlap};
    ghost use Rattle.ml_cone.specs.declared.label.Label.{Label};
    ghost use Rattle.ml_gaps.specs.Near.{IsNearOf};

    /// Of the label, with a range that ends at `until`.
    pub fn of(label: &Label, until: &Ratio) -> Near
        ensures { IsNearOf label.now (value_of until.now) result }
    {
        Near {
            site: Site::of(label),
            last: whole_above(until),
        }
    }

    /// Whether the two labels are too far apart to overlap within both ranges.
    pub fn is_apart(&self, other: &Near) -> bool
        ensures { IsTrue result → (a b : Label) (u v : Fraction) →
            IsNearOf a u self.now → IsNearOf b v other.now →
            (s : Fraction) → IsLess s u → IsLess s v → ¬ (Overlap a b s) }
    {
        self.site.is_apart(&other.site, Quotient::new(lesser(self.last, other.last), 1))
    }
}

// The lesser of the two.
fn lesser(a: u64, b: u64) -> u64
    ensures first { result ≤ a }
    ensures either { (result ≡ a) ⊎ (result ≡ b) }
{
    if a < b { a } else { b }
}

// The least whole number that is at least the fraction.
fn whole_above(r: &Ratio) -> u64
    ensures above { r.now.num ≤ result * r.now.den }
    ensures low { result ≤ 2 ^ 32 }
{
    (r.num() + (r.den() - 1)) / r.den()
}
