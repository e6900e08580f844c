//! The strips of labels that have a gap, by where they lie and how wide they are, to find those about a label.
ghost use Rattle.std.specs.Prelude.{◌≡◌, ◌≤◌, [], ℕ, All, OnOk, IfOk};
ghost use Rattle.ml_conflict.specs.Reach.{Reaches, anchor_on};
ghost use Rattle.ml_gaps.specs.Bundle.{IsBundle, HasStrip, PutsStrip};
ghost use Rattle.ml_gaps.specs.Places.{Gathers};

use crate::bundle::Bundle;
use crate::strip::{Strip, reach_on, way};
use ml_cone::Label;
use ml_conflict::{Axis, anchor_on};
use std::alloc::{AllocError, Global};

// How many bundles may have others below them, at most.
const MOST: usize = 65_536;

/// Bundles of strips as the nodes of a binary tree over labels in order on an axis, level by level: the two nodes below
/// one have the halves of its labels. A strip comes to the lowest node on its label's way down that has some times as
/// many labels as the strip holds. So the strips of a bundle are about as wide as its node, and a label is past most
/// bundles.
#[derive(Drop)]
pub struct StripIndex {
    pub bundles: Vec<Bundle>,
    coordinates: Vec<i64>,
    inner: usize,
    ghost few: { inner ≤ 65536 },
}

impl StripIndex {
    /// For strips about the labels on the axis. It has none yet.
    ///
    /// # Errors
    /// Out of memory.
    pub fn of(alloc: Global, axis: Axis, labels: &[Label]) -> Result<StripIndex, AllocError>
        ensures { IfOk result (λ index. index.bundles.items ≡ []) }
    {
        let mut coordinates = Vec::with_capacity(alloc, labels.len())?;
        for label in labels {
            coordinates.push(anchor_on(axis, label))?;
        }
        coordinates.sort_unstable();
        Ok(StripIndex {
            bundles: Vec::new(alloc),
            coordinates,
            inner: labels.len().isqrt().min(MOST),
        })
    }

    /// Puts the strip in.
    ///
    /// # Errors
    /// Out of memory.
    pub fn put(&mut self, alloc: Global, strip: Strip) -> Result<(), AllocError>
        requires { All IsBundle self.old.bundles.items }
        ensures bundles { OnOk result (All IsBundle self.new.bundles.items) }
        ensures strips { OnOk result
            (PutsStrip strip self.old.bundles.items self.new.bundles.items) }
    {
        let home = self.home(&strip);
        while self.bundles.len() <= home {
            self.bundles.push(Bundle::empty(alloc))?;
        }
        self.bundles[home].put(strip)?;
        Ok(())
    }

    // The node for the strip. No clause says which: that matters for time alone.
    fn home(&self, strip: &Strip) -> usize {
        let far = way(strip.reach, strip.reach, strip.last) as i64;
        let mut left = self.rank(strip.at);
        let wide = self.rank(strip.at + far).saturating_sub(left);
        let mut width = self.coordinates.len();
        let mut node = 0;
        while node < self.inner && wide <= width / 4 {
            width /= 2;
            node = 2 * node + 1;
            if left >= width {
                left -= width;
                node += 1;
            }
        }
        node
    }

    // How many of the labels lie before the coordinate.
    fn rank(&self, at: i64) -> usize {
        self.coordinates.partition_point(|other| *other < at)
    }

    /// Appends the places of strips, enough that the label is past all others.
    ///
    /// # Errors
    /// Out of memory.
    pub fn gather(
        &self,
        axis: Axis,
        label: &Label,
        places: &mut Vec<usize>,
    ) -> Result<(), AllocError>
        requires { All IsBundle self.now.bundles.items }
        ensures { OnOk result ((reach : ℕ) × Reaches axis label.now reach ×
            Gathers (anchor_on axis label.now) reach (HasStrip self.now.bundles.items)
            places.old.items places.new.items) }
    {
        let at = anchor_on(axis, label);
        let reach = reach_on(axis, label);
        for bundle in &self.bundles {
            bundle.gather(at, reach, places)?;
        }
        Ok(())
    }
}
