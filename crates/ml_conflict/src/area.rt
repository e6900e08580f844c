//! Areas of the world that hold labels, to pass over many labels at once.
ghost use Rattle.std.specs.Prelude.{◌≡◌, ◌≤◌, ◌≤ℤ◌, IsTrue};
ghost use Rattle.ml_ratio.specs.World.{IsInWorld};

use crate::axis::Axis;
use crate::far::{anchor_on, is_beyond, larger, reach_of};
use ml_cone::Label;
use ml_ratio::Ratio;

/// What labels take on an axis: their anchors lie from one coordinate until another, and they reach at most so
/// many pixels from them.
#[derive(Clone, Copy)]
pub struct Side {
    pub from: i64,
    pub to: i64,
    pub reach: u32,
    ghost from_world: { IsInWorld from },
    ghost to_world: { IsInWorld to },
    ghost low: { reach ≤ 576 },
}

impl Side {
    ghost use Rattle.ml_ratio.specs.Fraction.{Fraction, value_of};
    ghost use Rattle.ml_cone.specs.declared.label.Label.{Label as ALabel};
    ghost use Rattle.ml_conflict.specs.Area.{IsOnSide};
    ghost use Rattle.ml_conflict.specs.Begin.{SetsNoneUpTo};
    ghost use Rattle.ml_conflict.specs.declared.axis.Axis.{Axis as AnAxis};

    // What the label takes on the axis.
    fn of(axis: Axis, label: &Label) -> Side
        ensures { IsOnSide axis label.now result }
    {
        let at = anchor_on(axis, label);
        Side {
            from: at,
            to: at,
            reach: reach_of(axis, label),
        }
    }

    // The coordinate alone.
    pub(crate) fn at(at: i64) -> Side
        requires { IsInWorld at }
        ensures { result.reach ≡ 0 }
    {
        Side {
            from: at,
            to: at,
            reach: 0,
        }
    }

    // What both take.
    fn with(&self, other: &Side) -> Side
        ensures first { (axis : AnAxis) (a : ALabel) →
            IsOnSide axis a self.now → IsOnSide axis a result }
        ensures second { (axis : AnAxis) (a : ALabel) →
            IsOnSide axis a other.now → IsOnSide axis a result }
    {
        Side {
            from: least(self.from, other.from),
            to: most(self.to, other.to),
            reach: larger(self.reach, other.reach),
        }
    }

    // Whether the two are so far apart that no label on the one sets a label on the other a limit up to the bound.
    fn is_away(&self, other: &Side, bound: &Ratio) -> bool
        ensures { IsTrue result → (axis : AnAxis) (low high : ALabel) (u : Fraction) →
            IsOnSide axis low self.now → IsOnSide axis high other.now →
            SetsNoneUpTo low high u (value_of bound.now) }
    {
        let pixels = (self.reach + other.reach) as u64;
        is_beyond(self.from, other.to, pixels, bound)
            || is_beyond(other.from, self.to, pixels, bound)
    }
}

// The lesser of two coordinates.
fn least(a: i64, b: i64) -> i64
    requires a_in_world { IsInWorld a }
    requires b_in_world { IsInWorld b }
    ensures world { IsInWorld result }
    ensures first { result ≤ℤ a }
    ensures second { result ≤ℤ b }
{
    if a < b { a } else { b }
}

// The greater of two coordinates.
fn most(a: i64, b: i64) -> i64
    requires a_in_world { IsInWorld a }
    requires b_in_world { IsInWorld b }
    ensures world { IsInWorld result }
    ensures first { a ≤ℤ result }
    ensures second { b ≤ℤ result }
{
    if a < b { b } else { a }
}

/// An area of the world that holds the anchors of labels, and how far they reach from them.
#[derive(Clone, Copy)]
pub struct Area {
    pub across: Side,
    pub along: Side,
}

impl Area {
    ghost use Rattle.ml_ratio.specs.Fraction.{Fraction, value_of};
    ghost use Rattle.ml_cone.specs.declared.label.Label.{Label as ALabel};
    ghost use Rattle.ml_conflict.specs.Area.{IsInArea};
    ghost use Rattle.ml_conflict.specs.Begin.{SetsNoneUpTo};

    /// The area of one label.
    pub fn of(label: &Label) -> Area
        ensures { IsInArea label.now result }
    {
        Area {
            across: Side::of(Axis::Across, label),
            along: Side::of(Axis::Along, label),
        }
    }

    /// The area of the labels of both.
    pub fn with(&self, other: &Area) -> Area
        ensures first { (a : ALabel) → IsInArea a self.now → IsInArea a result }
        ensures second { (a : ALabel) → IsInArea a other.now → IsInArea a result }
    {
        Area {
            across: self.across.with(&other.across),
            along: self.along.with(&other.along),
        }
    }

    /// Whether the two are so far apart that no label in the one sets a label in the other a limit up to the bound.
    pub fn is_away(&self, other: &Area, bound: &Ratio) -> bool
        ensures { IsTrue result → (low high : ALabel) (u : Fraction) →
            IsInArea low self.now → IsInArea high other.now →
            SetsNoneUpTo low high u (value_of bound.now) }
    {
        self.across.is_away(&other.across, bound) || self.along.is_away(&other.along, bound)
    }
}
