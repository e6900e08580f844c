//! Bundles of strips, to pass over many of them at once.
ghost use Rattle.std.specs.Prelude.{◌≤◌, ◌^◌, ◌≤ℤ◌, ◌-ℤ◌, IsTrue, unsigned_abs};
ghost use Rattle.ml_ratio.specs.World.{IsInWorld};

use crate::strip::{Strip, way};
use std::alloc::{AllocError, Global};

// The greatest coordinate of the world.
const END: i64 = 2_000_000_000;

/// Strips that lie between two coordinates, about labels that reach at most so many pixels from their anchors, with
/// ranges of scales that do not go beyond a whole number.
#[derive(Drop)]
pub struct Bundle {
    pub strips: Vec<Strip>,
    pub least: i64,
    pub most: i64,
    pub reach: u32,
    pub last: u64,
    ghost world_least: { IsInWorld least },
    ghost world_most: { IsInWorld most },
    ghost low_reach: { reach ≤ 576 },
    ghost low_last: { last ≤ 2 ^ 32 },
}

impl Bundle {
    ghost use Rattle.std.specs.Prelude.{◌≡◌, ◌++◌, ◌∷◌, [], OnOk};
    ghost use Rattle.ml_gaps.specs.Strip.{IsPast};
    ghost use Rattle.ml_gaps.specs.Bundle.{LiesIn, IsBundle, IsOneOf};
    ghost use Rattle.ml_gaps.specs.Places.{Gathers};
    ghost use Rattle.ml_gaps.specs.declared.strip.Strip.{Strip as AStrip};

    /// No strip yet: each label is past it.
    pub fn empty(alloc: Global) -> Bundle
        ensures { result.strips.items ≡ [] }
    {
        Bundle {
            strips: Vec::new(alloc),
            least: END,
            most: -END,
            reach: 0,
            last: 0,
        }
    }

    /// Puts the strip in.
    ///
    /// # Errors
    /// Out of memory.
    pub fn put(&mut self, strip: Strip) -> Result<(), AllocError>
        requires { IsBundle self.old }
        ensures bundle { OnOk result (IsBundle self.new) }
        ensures strips { OnOk result (self.new.strips.items ≡ self.old.strips.items ++ strip ∷ []) }
    {
        self.least = lesser(self.least, strip.at);
        self.most = greater(self.most, strip.at);
        self.reach = self.reach.max(strip.reach);
        self.last = self.last.max(strip.last);
        self.strips.push(strip)?;
        Ok(())
    }

    /// Appends the places of the strips that a label with its anchor at the coordinate, which reaches so many pixels
    /// from there, is not past.
    ///
    /// # Errors
    /// Out of memory.
    pub fn gather(&self, at: i64, reach: u32, places: &mut Vec<usize>) -> Result<(), AllocError>
        requires bundle { IsBundle self.now }
        requires world { IsInWorld at }
        requires low { reach ≤ 576 }
        ensures { OnOk result (Gathers at reach (IsOneOf self.now.strips.items)
            places.old.items places.new.items) }
    {
        if self.is_past(at, reach) {
            return Ok(());
        }
        for strip in &self.strips {
            if !strip.is_past(at, reach) {
                places.push(strip.place)?;
            }
        }
        Ok(())
    }

    // Whether the label is past all strips.
    fn is_past(&self, at: i64, reach: u32) -> bool
        requires world { IsInWorld at }
        requires low { reach ≤ 576 }
        ensures { IsTrue result →
            (strip : AStrip) → LiesIn self.now strip → IsPast at reach strip }
    {
        let far = way(reach, self.reach, self.last);
        is_beyond(self.least, at, far) || is_beyond(at, self.most, far)
    }
}

// Whether the first coordinate lies ahead of the other, and as far as that away from it.
fn is_beyond(ahead: i64, behind: i64, far: u64) -> bool
    requires ahead { IsInWorld ahead }
    requires behind { IsInWorld behind }
    ensures { IsTrue result → (behind ≤ℤ ahead) × (far ≤ unsigned_abs (ahead -ℤ behind)) }
{
    behind <= ahead && far <= (ahead - behind).unsigned_abs()
}

// The lesser of two coordinates.
fn lesser(a: i64, b: i64) -> i64
    requires a_in_world { IsInWorld a }
    requires b_in_world { IsInWorld b }
    ensures world { IsInWorld result }
    ensures first { result ≤ℤ a }
    ensures second { result ≤ℤ b }
{
    if a < b { a } else { b }
}

// The greater of two coordinates.
fn greater(a: i64, b: i64) -> i64
    requires a_in_world { IsInWorld a }
    requires b_in_world { IsInWorld b }
    ensures world { IsInWorld result }
    ensures first { a ≤ℤ result }
    ensures second { b ≤ℤ result }
{
    if a < b { b } else { a }
}
