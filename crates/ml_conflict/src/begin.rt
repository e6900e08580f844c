//! Where labels begin to overlap.
ghost use Rattle.std.specs.Prelude.{◌↔◌};
ghost use Rattle.ml_ratio.specs.Fraction.{Fraction, IsLess, IsAtMost};
ghost use Rattle.ml_cone.specs.Plane.{IsBox};
ghost use Rattle.ml_cone.specs.Overlap.{BoxOverlaps, Overlap};
ghost use Rattle.ml_conflict.specs.Between.{IsUnder, LiesIn};
ghost use Rattle.ml_ratio.specs.Quotient.{worth};
ghost use Rattle.ml_conflict.specs.Begin.{Begins};

use crate::scales::{Between, boxes_interval};
use ml_cone::{BoxPx, Label};
use ml_ratio::Quotient;

// The smaller of `until` and the end, if there is one.
fn stop(until: Quotient, end: Option<Quotient>) -> Quotient
    ensures { (s : Fraction) →
        IsLess s (worth result) ↔ (IsLess s (worth until) × IsUnder worth end s) }
{
    match end {
        Some(h) => until.smaller(h),
        None => until,
    }
}

// Where the interval begins, from `start` on, below `until` and `best`; `best` if it does not.
fn begin_one(start: Quotient, until: Quotient, best: Quotient, between: Option<Between>) -> Quotient
    requires { IsAtMost (worth start) (worth best) }
    ensures { Begins (LiesIn worth between) (worth start)
        (worth until) (worth best) (worth result) }
{
    match between {
        None => best,
        Some((low, end)) => {
            let first = start.larger(low);
            let last = stop(until, end);
            if first.is_less(last) {
                if first.is_less(best) { first } else { best }
            } else {
                best
            }
        }
    }
}

// Where the box `p` of `low` begins to overlap `high`, from `start` on, below `until` and `best`;
// `best` if it does not.
fn begin_row(
    start: Quotient,
    until: Quotient,
    best: Quotient,
    low: &Label,
    p: &BoxPx,
    high: &Label,
) -> Quotient
    requires in_order { IsAtMost (worth start) (worth best) }
    requires p_is_box { IsBox p.now.l p.now.b p.now.r p.now.t }
    ensures { Begins (λ s. BoxOverlaps low.now p.now high.now s)
        (worth start) (worth until) (worth best) (worth result) }
{
    let mut first = best;
    for q in high.boxes().as_slice() {
        first = begin_one(start, until, first, boxes_interval(low, p, high, q));
    }
    first
}

/// Where `low` begins to overlap `high`, from `start` on, below `until` and `best`; `best` if it
/// does not.
pub fn begin_all(
    start: Quotient,
    until: Quotient,
    best: Quotient,
    low: &Label,
    high: &Label,
) -> Quotient
    requires { IsAtMost (worth start) (worth best) }
    ensures { Begins (λ s. Overlap low.now high.now s)
        (worth start) (worth until) (worth best) (worth result) }
{
    let mut first = best;
    for p in low.boxes().as_slice() {
        first = begin_row(start, until, first, low, p, high);
    }
    first
}
