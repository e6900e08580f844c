//! Strips of the world about labels, beyond which these are too far away from another label to block it.
ghost use Rattle.std.specs.Prelude.{ℕ, ◌≡◌, ◌*◌, ◌≤◌, ◌^◌};
ghost use Rattle.ml_ratio.specs.World.{IsInWorld};
ghost use Rattle.ml_conflict.specs.Reach.{Reaches};

use crate::near::Near;
use ml_cone::Label;
use ml_conflict::laws::distant_labels;
use ml_conflict::{Area, Axis, anchor_on, greatest_reach};

/// A strip of the world about a label: the coordinate of its anchor on an axis, how many pixels it reaches from there,
/// and a whole number that its range of scales does not go beyond; with the label's place.
#[derive(Clone, Copy)]
pub struct Strip {
    pub place: usize,
    pub at: i64,
    pub reach: u32,
    pub last: u64,
    ghost world: { IsInWorld at },
    ghost low_reach: { reach ≤ 576 },
    ghost low_last: { last ≤ 2 ^ 32 },
}

impl Strip {
    ghost use Rattle.std.specs.Prelude.{IsTrue};
    ghost use Rattle.ml_ratio.specs.Fraction.{Fraction};
    ghost use Rattle.ml_gaps.specs.Near.{IsNearOf};
    ghost use Rattle.ml_gaps.specs.Strip.{IsStripAbout, IsPast};

    /// About the label at the place, on the axis.
    pub fn about(label: &Label, place: usize, near: &Near, axis: Axis) -> Strip
        ensures place { result.place ≡ place }
        ensures about { (until : Fraction) → IsNearOf label.now until near.now →
            IsStripAbout axis label.now until result }
    {
        distant_labels();
        Strip {
            place,
            at: anchor_on(axis, label),
            reach: reach_on(axis, label),
            last: near.last,
        }
    }

    /// Whether a label with its anchor at the coordinate, which reaches so many pixels from there, is too far away.
    pub fn is_past(&self, at: i64, reach: u32) -> bool
        requires world { IsInWorld at }
        requires low { reach ≤ 576 }
        ensures { IsTrue result → IsPast at reach self.now }
    {
        way(reach, self.reach, self.last) <= (at - self.at).unsigned_abs()
    }
}

/// How far apart on an axis anchors of labels lie that are too far apart to overlap below a whole number, where these
/// reach at most so many pixels from them.
pub fn way(one: u32, other: u32, last: u64) -> u64
    requires low_one { one ≤ 576 }
    requires low_other { other ≤ 576 }
    requires low_last { last ≤ 2 ^ 32 }
    ensures way { (r : ℕ) × (one ≤ r) × (other ≤ r) × (result ≡ 2 * r * last) }
    ensures low { result ≤ 2 ^ 43 }
{
    2 * (one.max(other) as u64) * last
}

/// How many pixels the label reaches from its anchor on the axis.
pub fn reach_on(axis: Axis, label: &Label) -> u32
    ensures reaches { Reaches axis label.now result }
    ensures low { result ≤ 576 }
{
    let area = Area::of(label);
    match axis {
        Axis::Across => area.across.reach,
        Axis::Along => area.along.reach,
    }
}

/// The axis on which the labels lie further apart, as a multiple of how far they reach on it: there fewer of them
/// lie near one another. It is chosen for the sake of time alone.
pub fn parting_axis(labels: &[Label]) -> Axis {
    let across = breadth(Axis::Across, labels) * greatest_reach(Axis::Along, labels) as u64;
    let along = breadth(Axis::Along, labels) * greatest_reach(Axis::Across, labels) as u64;
    if along < across {
        Axis::Across
    } else {
        Axis::Along
    }
}

// How far apart the outermost anchors lie on the axis, in world units.
fn breadth(axis: Axis, labels: &[Label]) -> u64
    ensures { result ≤ 2 ^ 32 }
{
    let Some((first, others)) = labels.split_first() else {
        return 0;
    };
    let mut least = anchor_on(axis, first);
    let mut most = least;
    for label in others {
        let at = anchor_on(axis, label);
        if at < least {
            least = at;
        } else if most < at {
            most = at;
        }
    }
    (most - least).unsigned_abs()
}
