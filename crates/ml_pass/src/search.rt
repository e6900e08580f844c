//! The search for the labels before a place that may bound the one there.
//!
//! Labels that have an active range stand in strips from west to east, each from south to north. The search takes
//! the strips from the label's own outward, by turns to the east and to the west, and in each it goes from the
//! label's y to the south and to the north, by turns. Each limit that it finds is the bound up to which it goes
//! on: it passes over a strip that is too far away to set one up to there, and within a strip it ends where the
//! next label is. By turns, since the nearest labels set the least limits, whichever side they are on: so the
//! bound falls soon, and few labels lie within it.
ghost use Rattle.std.specs.Prelude.{ℕ, ◌≡◌, ◌+◌, ◌-◌, ◌≤◌, ◌<◌, [], length, min, IfOk, OnOk};
ghost use Rattle.ml_ratio.specs.Fraction.{Fraction, value_of};
ghost use Rattle.ml_cone.specs.SiteOf.{IsSiteOf};
ghost use Rattle.ml_conflict.specs.Area.{IsInArea};

use ml_cone::{Label, Site, Slot};
use ml_conflict::laws::{clear_labels, ended_labels, idle_labels};
use ml_conflict::{Area, Field, Spot, Strip, is_beyond, limit_up_to, south_of};
use ml_ratio::{Quotient, Ratio};
use std::alloc::AllocError;

/// A label whose slot is sought, with its site and its area, and all labels, of which those before it have a slot.
#[derive(Clone, Copy)]
pub struct Search<'a> {
    pub low: &'a Label,
    pub site: Site,
    pub area: Area,
    pub labels: &'a [Label],
    pub slots: &'a [Slot],
    ghost its_site: { IsSiteOf site low.now },
    ghost its_area: { IsInArea low.now area },
    ghost fits: { length slots.now ≤ length labels.now },
}

// How many spots a turn to one side looks at.
const TURN: usize = 8;

// What was seen, or is too far away, from one place until another, and the bound that it leaves.
#[derive(Clone, Copy)]
struct Seen {
    left: usize,
    right: usize,
    bound: Ratio,
}

impl Search<'_> {
    ghost use Rattle.ml_conflict.specs.Field.{HasSpot, IsSpotOf, SeesSpot};
    ghost use Rattle.ml_conflict.specs.Strip.{IsStripOf, AreStrips, AreBlocks, SeesStrip};
    ghost use Rattle.ml_pass.specs.Search.{rivals_in, IsSearched, AreHeld};

    /// Finds places of labels before that are enough for the label's slot: each other one sets it no limit up
    /// to a bound that these leave.
    ///
    /// # Errors
    /// Out of memory.
    pub fn gather(&self, field: &Field, places: &mut Vec<u32>) -> Result<(), AllocError>
        requires some { 0 < length field.now.strips.items }
        requires strips { AreStrips self.now.labels.now field.now.strips.items }
        requires blocks { AreBlocks field.now.strips.items field.now.blocks.items }
        requires held { AreHeld self.now.labels.now self.now.slots.now field.now.strips.items }
        ensures { OnOk result ((bound : Fraction) × IsSearched self.now.low.now
            (rivals_in self.now.labels.now self.now.slots.now self.now.low.now)
            (length self.now.slots.now) (λ j. j < length self.now.slots.now)
            (value_of self.now.low.now.max) bound places.old.items places.new.items) }
    {
        idle_labels();
        let start = field.home(self.low);
        let mut seen = Seen {
            left: start,
            right: start,
            bound: self.low.max(),
        };
        while seen.left > 0 || seen.right < field.strips.len() {
            let east = self.east(field, seen, places)?;
            seen = self.west(field, east, places)?;
        }
        Ok(())
    }

    // Looks at the next strip to the west that is in no block too far away, if there is one.
    fn west(&self, field: &Field, seen: Seen, places: &mut Vec<u32>) -> Result<Seen, AllocError>
        requires strips { AreStrips self.now.labels.now field.now.strips.items }
        requires blocks { AreBlocks field.now.strips.items field.now.blocks.items }
        requires within { seen.left ≤ length field.now.strips.items }
        ensures further { IfOk result (λ next. next.left ≤ seen.left - 1) }
        ensures same { IfOk result (λ next. next.right ≡ seen.right) }
        ensures searched { IfOk result (λ next. IsSearched self.now.low.now
            (rivals_in self.now.labels.now self.now.slots.now self.now.low.now)
            (length self.now.slots.now) (SeesStrip field.now.strips.items next.left seen.left)
            (value_of seen.bound) (value_of next.bound) places.old.items places.new.items) }
    {
        let right = seen.right;
        let bound = seen.bound;
        let left = field.pass_west(seen.left, &self.area, &bound);
        if left == 0 {
            return Ok(Seen { left, right, bound });
        }
        let left = left - 1;
        let bound = self.visit(&field.strips[left], bound, places)?;
        Ok(Seen { left, right, bound })
    }

    // Looks at the next strip to the east that is in no block too far away, if there is one.
    fn east(&self, field: &Field, seen: Seen, places: &mut Vec<u32>) -> Result<Seen, AllocError>
        requires strips { AreStrips self.now.labels.now field.now.strips.items }
        requires blocks { AreBlocks field.now.strips.items field.now.blocks.items }
        requires within { seen.right ≤ length field.now.strips.items }
        ensures further { IfOk result
            (λ next. min (length field.now.strips.items) (seen.right + 1) ≤ next.right) }
        ensures within { IfOk result (λ next. next.right ≤ length field.now.strips.items) }
        ensures same { IfOk result (λ next. next.left ≡ seen.left) }
        ensures searched { IfOk result (λ next. IsSearched self.now.low.now
            (rivals_in self.now.labels.now self.now.slots.now self.now.low.now)
            (length self.now.slots.now) (SeesStrip field.now.strips.items seen.right next.right)
            (value_of seen.bound) (value_of next.bound) places.old.items places.new.items) }
    {
        let left = seen.left;
        let bound = seen.bound;
        let right = field.pass_east(seen.right, &self.area, &bound);
        if right == field.strips.len() {
            return Ok(Seen { left, right, bound });
        }
        let bound = self.visit(&field.strips[right], bound, places)?;
        let right = right + 1;
        Ok(Seen { left, right, bound })
    }

    // Looks at the strip, unless all in it is too far away.
    fn visit(&self, strip: &Strip, bound: Ratio, places: &mut Vec<u32>) -> Result<Ratio, AllocError>
        requires strip { IsStripOf self.now.labels.now strip.now.spots.items strip.now.area }
        ensures { IfOk result (λ next. IsSearched self.now.low.now
            (rivals_in self.now.labels.now self.now.slots.now self.now.low.now)
            (length self.now.slots.now) (HasSpot strip.now.spots.items)
            (value_of bound) (value_of next) places.old.items places.new.items) }
    {
        // (most strips are empty where many labels have one anchor, since few of these are shown)
        if strip.spots.is_empty() {
            return Ok(bound);
        }
        if self.area.is_away(&strip.area, &bound) {
            return Ok(bound);
        }
        self.cross(strip, bound, places)
    }

    // Looks at the spots of the strip, from the label's y on to the south and to the north.
    fn cross(&self, strip: &Strip, bound: Ratio, places: &mut Vec<u32>) -> Result<Ratio, AllocError>
        requires strip { IsStripOf self.now.labels.now strip.now.spots.items strip.now.area }
        ensures { IfOk result (λ next. IsSearched self.now.low.now
            (rivals_in self.now.labels.now self.now.slots.now self.now.low.now)
            (length self.now.slots.now) (HasSpot strip.now.spots.items)
            (value_of bound) (value_of next) places.old.items places.new.items) }
    {
        let start = south_of(strip.spots.as_slice(), self.low.y());
        let mut seen = Seen {
            left: start,
            right: start,
            bound,
        };
        while seen.left > 0 || seen.right < strip.spots.len() {
            let south = self.south(strip, seen, places)?;
            seen = self.north(strip, south, places)?;
        }
        Ok(seen.bound)
    }

    // Looks at some more spots to the south, the nearest first. What is too far away is seen with all behind it.
    fn south(&self, strip: &Strip, seen: Seen, places: &mut Vec<u32>) -> Result<Seen, AllocError>
        requires strip { IsStripOf self.now.labels.now strip.now.spots.items strip.now.area }
        requires within { seen.left ≤ length strip.now.spots.items }
        ensures further { IfOk result (λ next. next.left ≤ seen.left - 8) }
        ensures same { IfOk result (λ next. next.right ≡ seen.right) }
        ensures searched { IfOk result (λ next. IsSearched self.now.low.now
            (rivals_in self.now.labels.now self.now.slots.now self.now.low.now)
            (length self.now.slots.now) (SeesSpot strip.now.spots.items next.left seen.left)
            (value_of seen.bound) (value_of next.bound) places.old.items places.new.items) }
    {
        let spots = strip.spots.as_slice();
        let pixels = (self.area.along.reach + strip.area.along.reach) as u64;
        let Seen {
            left: from,
            right,
            mut bound,
        } = seen;
        let until = from.saturating_sub(TURN);
        let mut left = from;
        while left > until {
            let at = left - 1;
            let spot = &spots[at];
            if is_beyond(self.low.y(), spot.y, pixels, &bound) {
                return Ok(Seen {
                    left: 0,
                    right,
                    bound,
                });
            }
            bound = self.look(spot, bound, places)?;
            left = at;
        }
        Ok(Seen { left, right, bound })
    }

    // Looks at some more spots to the north, the nearest first. What is too far away is seen with all behind it.
    fn north(&self, strip: &Strip, seen: Seen, places: &mut Vec<u32>) -> Result<Seen, AllocError>
        requires strip { IsStripOf self.now.labels.now strip.now.spots.items strip.now.area }
        requires within { seen.right ≤ length strip.now.spots.items }
        ensures further { IfOk result
            (λ next. min (length strip.now.spots.items) (seen.right + 8) ≤ next.right) }
        ensures within { IfOk result (λ next. next.right ≤ length strip.now.spots.items) }
        ensures same { IfOk result (λ next. next.left ≡ seen.left) }
        ensures searched { IfOk result (λ next. IsSearched self.now.low.now
            (rivals_in self.now.labels.now self.now.slots.now self.now.low.now)
            (length self.now.slots.now) (SeesSpot strip.now.spots.items seen.right next.right)
            (value_of seen.bound) (value_of next.bound) places.old.items places.new.items) }
    {
        let spots = strip.spots.as_slice();
        let pixels = (self.area.along.reach + strip.area.along.reach) as u64;
        let Seen {
            left,
            right: from,
            mut bound,
        } = seen;
        let until = spots.len().min(from + TURN);
        for right in from..until {
            let spot = &spots[right];
            if is_beyond(spot.y, self.low.y(), pixels, &bound) {
                return Ok(Seen {
                    left,
                    right: spots.len(),
                    bound,
                });
            }
            bound = self.look(spot, bound, places)?;
        }
        Ok(Seen {
            left,
            right: until,
            bound,
        })
    }

    // The limit that the label of the spot sets, where it is before and that is at most the bound, and then its
    // place too; else the bound. A label that ends before the two may overlap sets none, and so it need not be
    // looked at itself.
    fn look(&self, spot: &Spot, bound: Ratio, places: &mut Vec<u32>) -> Result<Ratio, AllocError>
        requires { IsSpotOf self.now.labels.now spot.now }
        ensures { IfOk result (λ next. IsSearched self.now.low.now
            (rivals_in self.now.labels.now self.now.slots.now self.now.low.now)
            (length self.now.slots.now) (λ j. j ≡ spot.now.place) (value_of bound)
            (value_of next) places.old.items places.new.items) }
    {
        clear_labels();
        ended_labels();
        let place = spot.place as usize;
        if place >= self.slots.len() {
            return Ok(bound);
        }
        if self.site.is_clear(&spot.site, Quotient::of_ratio(&bound)) {
            return Ok(bound);
        }
        let until = &self.slots[place].until;
        if self.site.is_clear(&spot.site, Quotient::of_ratio(until)) {
            return Ok(bound);
        }
        match limit_up_to(self.low, &self.labels[place], until, &bound) {
            Some(limit) => {
                places.push(spot.place)?;
                Ok(limit)
            }
            None => Ok(bound),
        }
    }
}
