//! The greatest number of labels that are shown at one scale.
ghost use Rattle.std.specs.Prelude.{ℕ, ◌≡◌, ◌+◌, ◌<◌, ◌≤◌, ◌++◌, length, slice_index_or, map, All, AllPairs, OnOk, IfOk};
ghost use Rattle.ml_ratio.specs.Limits.{most_labels};
ghost use Rattle.ml_ratio.specs.Fraction.{IsAtMost, value_of};
ghost use Rattle.ml_flight.specs.Stay.{AreApart, begin_of};
ghost use Rattle.ml_flight.specs.Peak.{IsMost, IsPeak};
ghost use Rattle.ml_flight.specs.Sweep.{begins_of, ends_of, is_ended, ended, open_at, IsHighest};
ghost use Rattle.ml_flight.specs.declared.place.Place.{Place};

use crate::place::{Peak, Place};
use crate::solve::quotient;
use crate::stay::Stay;
use ml_ratio::{Ratio, Seq};
use std::alloc::{AllocError, Global};

/// The greatest number of labels that are shown at one scale, from the stays of each, and the first
/// place that has it. The places are just after 0, and for each greater end of a stay that end and
/// what lies between it and the next one. It takes time n log n in the number of stays.
///
/// # Errors
/// Out of memory.
pub fn peak(alloc: Global, all: &Seq<Seq<Stay>>) -> Result<Peak, AllocError>
    requires few { length all.now ≤ most_labels }
    requires apart { All AreApart all.now }
    ensures peak { IfOk result (IsPeak all.now) }
    ensures most { IfOk result (λ peak. IsMost all.now peak.count) }
{
    let mut marks = marks_of(alloc, all)?;
    marks.begins.sort_unstable();
    marks.ends.sort_unstable();
    Ok(highest(marks.begins.as_slice(), marks.ends.as_slice()))
}

// Where stays begin, and where they end.
#[derive(Drop)]
struct Marks {
    begins: Vec<Place>,
    ends: Vec<Ratio>,
}

// Where the stays of all labels begin and end.
fn marks_of(alloc: Global, all: &Seq<Seq<Stay>>) -> Result<Marks, AllocError>
    ensures begins { IfOk result (λ marks. marks.begins.items ≡ begins_of all.now) }
    ensures ends { IfOk result (λ marks. marks.ends.items ≡ ends_of all.now) }
{
    let mut marks = Marks {
        begins: Vec::new(alloc),
        ends: Vec::new(alloc),
    };
    for stays in all.as_slice() {
        add(&mut marks, stays.as_slice())?;
    }
    Ok(marks)
}

// Adds where the stays begin and end.
fn add(marks: &mut Marks, stays: &[Stay]) -> Result<(), AllocError>
    ensures begins { OnOk result
        (marks.new.begins.items ≡ marks.old.begins.items ++ map begin_of stays.now) }
    ensures ends { OnOk result
        (marks.new.ends.items ≡ marks.old.ends.items ++ map (λ stay. stay.to) stays.now) }
{
    for stay in stays {
        marks.begins.push(stay.begin())?;
        marks.ends.push(stay.to)?;
    }
    Ok(())
}

// The first place where the most stays are open, or just after 0 where none ever is.
fn highest(begins: &[Place], ends: &[Ratio]) -> Peak
    requires order { AllPairs (λ a b. IsAtMost (value_of a) (value_of b)) ends.now }
    requires ended { (k : ℕ) (d : Place) → k < length begins.now →
        ended ends.now (value_of (slice_index_or begins.now k d).mark) ≤ k + 1 }
    requires few { (k : ℕ) (d : Place) → k < length begins.now →
        open_at begins.now ends.now k d ≤ most_labels }
    ensures { IsHighest begins.now ends.now (length begins.now) result }
{
    let mut best = Peak {
        count: 0,
        mark: quotient(0, 1),
        after: true,
    };
    for (k, begin) in begins.iter().enumerate() {
        let open = k + 1 - ended_by(ends, &begin.mark);
        let here = Peak {
            count: open as u32,
            mark: begin.mark,
            after: begin.after,
        };
        best = better(best, here);
    }
    best
}

// The earlier of the two, unless the later has more.
fn better(earlier: Peak, later: Peak) -> Peak
    ensures more { earlier.count < later.count → result ≡ later }
    ensures kept { later.count ≤ earlier.count → result ≡ earlier }
{
    if earlier.count < later.count {
        later
    } else {
        earlier
    }
}

// How many of the ascending ends are at most the mark.
fn ended_by(ends: &[Ratio], mark: &Ratio) -> usize
    requires { AllPairs (λ a b. IsAtMost (value_of a) (value_of b)) ends.now }
    ensures { result ≡ ended ends.now (value_of mark.now) }
{
    ends.partition_point(|end| is_ended(end, mark))
}

// Whether the end is at most the mark.
fn is_ended(end: &Ratio, mark: &Ratio) -> bool
    ensures { result ≡ is_ended (value_of mark.now) end.now }
{
    !mark.is_less(end)
}
