//! Intervals of scales.
ghost use Rattle.std.specs.Prelude.{◌<◌, ◌↔◌, IsTrue};
ghost use Rattle.ml_ratio.specs.Fraction.{Fraction, IsLess, IsAtMost, value_of};
ghost use Rattle.ml_cone.specs.Range.{ActiveBetween};
ghost use Rattle.ml_conflict.specs.Between.{IsUnder, LiesBetween};

use ml_ratio::Ratio;

/// The scales above `from` and below `to`, and `from` itself where `from_in` says so.
///
/// `from` is below `to`, and 0, which is no scale, is left out.
#[derive(Clone, Copy, Debug, PartialEq, Eq)]
pub struct Piece {
    pub from: Ratio,
    pub from_in: bool,
    pub to: Ratio,
    ghost some: { IsLess (value_of from) (value_of to) },
    ghost above: { IsTrue from_in → 0 < from.num },
}

impl Piece {
    ghost use Rattle.ml_gaps.specs.Piece.{HoldsIfSome};

    // The scales from `from` on and below `until` that lie in the open interval, if there are any.
    pub(crate) fn cut(from: Ratio, until: Ratio, between: (Ratio, Option<Ratio>)) -> Option<Piece>
        ensures { (s : Fraction) → HoldsIfSome result s
            ↔ (ActiveBetween (value_of from) (value_of until) s × LiesBetween value_of between s) }
    {
        let low = between.0;
        let to = nearer(until, between.1);
        if low.is_less(&from) {
            if from.is_less(&to) {
                Some(Piece {
                    from,
                    from_in: true,
                    to,
                })
            } else {
                None
            }
        } else if low.is_less(&to) {
            Some(Piece {
                from: low,
                from_in: false,
                to,
            })
        } else {
            None
        }
    }
}

// The nearer of two upper ends, of which the second may be missing.
fn nearer(until: Ratio, end: Option<Ratio>) -> Ratio
    ensures { (s : Fraction) →
        IsLess s (value_of result) ↔ (IsLess s (value_of until) × IsUnder value_of end s) }
{
    match end {
        Some(end) => smaller(until, end),
        None => until,
    }
}

// The greater of the two.
pub(crate) fn larger(a: Ratio, b: Ratio) -> Ratio
    ensures { (s : Fraction) →
        IsAtMost (value_of result) s ↔ (IsAtMost (value_of a) s × IsAtMost (value_of b) s) }
{
    if a.is_less(&b) { b } else { a }
}

// The smaller of the two.
pub(crate) fn smaller(a: Ratio, b: Ratio) -> Ratio
    ensures { (s : Fraction) →
        IsLess s (value_of result) ↔ (IsLess s (value_of a) × IsLess s (value_of b)) }
{
    if a.is_less(&b) { a } else { b }
}
