//! An interval of scales.
ghost use Rattle.std.specs.Prelude.{◌≡◌, ◌<◌, ◌↔◌, ◌⊎◌, IsTrue, MatchBool};
ghost use Rattle.ml_ratio.specs.Fraction.{Fraction, IsLess, IsAtMost, IsScale, value_of};

use crate::place::Place;
use ml_cone::Span;
use ml_ratio::Ratio;

/// The scales above `from` and below `to`, and `from` itself where `from_in` says so.
///
/// `from` is below `to`, and 0, which is no scale, is left out.
#[derive(Clone, Copy, Debug, PartialEq, Eq)]
pub struct Stay {
    pub from: Ratio,
    pub from_in: bool,
    pub to: Ratio,
    ghost some: { IsLess (value_of from) (value_of to) },
    ghost above: { IsTrue from_in → 0 < from.num },
}

impl Stay {
    ghost use Rattle.ml_flight.specs.Stay.{begin_of, HasBegun, HoldsScale, HoldsIfSome, IsApart, BeginsBy};
    ghost use Rattle.ml_flight.specs.Shown.{IsActive};

    // All scales of a span, if there are any.
    pub(crate) fn of_span(span: &Span) -> Option<Stay>
        ensures { (s : Fraction) → HoldsIfSome result s ↔ (IsScale s × IsActive span.now s) }
    {
        let from_in = span.min.num() > 0;
        if span.min.is_less(&span.until) {
            Some(Stay {
                from: span.min,
                from_in,
                to: span.until,
            })
        } else {
            None
        }
    }

    // The scales of the stay that lie above the bound, if there are any.
    pub(crate) fn above(self, bound: Ratio) -> Option<Stay>
        ensures { (s : Fraction) →
            HoldsIfSome result s ↔ (HoldsScale self s × IsLess (value_of bound) s) }
    {
        if bound.is_less(&self.from) {
            Some(self)
        } else if bound.is_less(&self.to) {
            Some(Stay {
                from: bound,
                from_in: false,
                to: self.to,
            })
        } else {
            None
        }
    }

    // The scales of the stay that lie below the bound, if there are any.
    pub(crate) fn below(self, bound: Ratio) -> Option<Stay>
        ensures { (s : Fraction) →
            HoldsIfSome result s ↔ (HoldsScale self s × IsLess s (value_of bound)) }
    {
        if self.to.is_less(&bound) {
            Some(self)
        } else if self.from.is_less(&bound) {
            Some(Stay {
                from: self.from,
                from_in: self.from_in,
                to: bound,
            })
        } else {
            None
        }
    }

    // Whether the stay and one that begins no earlier make one interval: the other has begun where
    // this one ends.
    pub(crate) fn joins(&self, next: &Stay) -> bool
        ensures { MatchBool result (HasBegun next.now (value_of self.now.to))
            (IsApart self.now next.now) }
    {
        if next.from_in {
            !self.to.is_less(&next.from)
        } else {
            next.from.is_less(&self.to)
        }
    }

    // The interval that the two make.
    pub(crate) fn joined_with(&self, next: &Stay) -> Stay
        requires order { BeginsBy self.now next.now }
        requires joins { HasBegun next.now (value_of self.now.to) }
        ensures scales { (s : Fraction) →
            HoldsScale result s ↔ (HoldsScale self.now s ⊎ HoldsScale next.now s) }
        ensures from { result.from ≡ self.now.from }
        ensures from_in { result.from_in ≡ self.now.from_in }
    {
        Stay {
            from: self.from,
            from_in: self.from_in,
            to: later(self.to, next.to),
        }
    }

    // Where the stay begins.
    pub(crate) fn begin(&self) -> Place
        ensures { result ≡ begin_of self.now }
    {
        Place {
            mark: self.from,
            after: !self.from_in,
        }
    }
}

// The later of two ends.
fn later(a: Ratio, b: Ratio) -> Ratio
    ensures below { (s : Fraction) →
        IsLess s (value_of result) ↔ (IsLess s (value_of a) ⊎ IsLess s (value_of b)) }
    ensures from { IsAtMost (value_of a) (value_of result) }
{
    if a.is_less(&b) { b } else { a }
}
