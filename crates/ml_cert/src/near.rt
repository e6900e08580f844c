//! The blocker that is due to a label, sought among the labels near it.
//!
//! The search passes over each strip that is too far away to set a limit up to the label's end. In the others it
//! goes from the label's y to the south and to the north, and ends where the next label is too far away.
ghost use Rattle.std.specs.Prelude.{◌≡◌, ◌<◌, ◌≤◌, length, slice_index_or, IfSome};
ghost use Rattle.ml_ratio.specs.Fraction.{value_of};
ghost use Rattle.ml_cone.specs.Choice.{IsEnd};
ghost use Rattle.ml_cone.specs.Slots.{no_slot};
ghost use Rattle.ml_cone.specs.SiteOf.{IsSiteOf};
ghost use Rattle.ml_cone.specs.declared.label.Label.{Label as ALabel};
ghost use Rattle.ml_conflict.specs.Area.{IsInArea};

use crate::known::known_limits;
use crate::stance::{Stance, sooner, soonest};
use crate::strip::Field;
use ml_cone::{Label, Site, Slot};
use ml_conflict::laws::{clear_labels, ended_labels, idle_labels};
use ml_conflict::{Area, Spot, is_beyond, limit_up_to, south_of};
use ml_ratio::{Quotient, Ratio};

/// A label at a place of a list, with its site and its end, and all labels with their slots.
#[derive(Clone, Copy)]
pub struct Asked<'a> {
    pub labels: &'a [Label],
    pub slots: &'a [Slot],
    pub place: usize,
    pub low: &'a Label,
    pub site: Site,
    pub area: Area,
    pub until: Ratio,
    ghost lengths: { length slots.now ≡ length labels.now },
    ghost there: { place < length labels.now },
    ghost its_label: { (d : ALabel) → slice_index_or labels.now place d ≡ low.now },
    ghost its_end: { (slice_index_or slots.now place no_slot).until ≡ until },
    ghost its_site: { IsSiteOf site low.now },
    ghost its_area: { IsInArea low.now area },
    ghost good: { IsEnd low.now (value_of until) },
}

impl Asked<'_> {
    ghost use Rattle.ml_cone.specs.Slots.{ends};
    ghost use Rattle.ml_conflict.specs.Field.{HasSpot, IsSpotOf, SeesSpot};
    ghost use Rattle.ml_conflict.specs.Strip.{IsStripOf};
    ghost use Rattle.ml_cert.specs.Near.{IsStance, IsDueAmong, IsDueWith};
    ghost use Rattle.ml_cert.specs.Strips.{IsFieldOf};

    /// The first label before that blocks the label, if any does; none at all where a label before may refuse
    /// its end.
    pub fn due(&self, field: &Field<'_>) -> Option<Option<usize>>
        requires { IsFieldOf self.now.labels.now self.now.slots.now
            field.now.spots.now field.now.strips.now }
        ensures { IfSome result (λ due. IsDueAmong self.now.labels.now
            (ends self.now.slots.now) self.now.place (λ j. j < self.now.place) due) }
    {
        known_limits();
        idle_labels();
        let mut due = None;
        for k in 0..field.strips.len() {
            let strip = &field.strips[k];
            let here = self.due_in(&field.spots[strip.from..strip.to], &strip.area)?;
            due = soonest(due, here);
        }
        Some(due)
    }

    // What the spots of a strip say.
    fn due_in(&self, spots: &[Spot], area: &Area) -> Option<Option<usize>>
        requires { IsStripOf self.now.labels.now spots.now area.now }
        ensures { IfSome result (λ due. IsDueAmong self.now.labels.now
            (ends self.now.slots.now) self.now.place (HasSpot spots.now) due) }
    {
        known_limits();
        if self.area.is_away(area, &self.until) {
            return Some(None);
        }
        let start = south_of(spots, self.low.y());
        let south = self.south(spots, area, start)?;
        self.north(spots, area, start, south)
    }

    // What the spots before `start` say, the nearest first.
    fn south(&self, spots: &[Spot], area: &Area, start: usize) -> Option<Option<usize>>
        requires strip { IsStripOf self.now.labels.now spots.now area.now }
        requires start { start ≤ length spots.now }
        ensures { IfSome result (λ due. IsDueAmong self.now.labels.now
            (ends self.now.slots.now) self.now.place (SeesSpot spots.now 0 start) due) }
    {
        known_limits();
        let pixels = (self.area.along.reach + area.along.reach) as u64;
        let mut due = None;
        let mut left = start;
        while left > 0 {
            let at = left - 1;
            let spot = &spots[at];
            if is_beyond(self.low.y(), spot.y, pixels, &self.until) {
                return Some(due);
            }
            due = self.next_due(spot, due)?;
            left = at;
        }
        Some(due)
    }

    // What the spots from `start` on say too, the nearest first.
    fn north(
        &self,
        spots: &[Spot],
        area: &Area,
        start: usize,
        before: Option<usize>,
    ) -> Option<Option<usize>>
        requires strip { IsStripOf self.now.labels.now spots.now area.now }
        requires start { start ≤ length spots.now }
        requires before { IsDueAmong self.now.labels.now
            (ends self.now.slots.now) self.now.place (SeesSpot spots.now 0 start) before }
        ensures { IfSome result (λ due. IsDueAmong self.now.labels.now
            (ends self.now.slots.now) self.now.place (HasSpot spots.now) due) }
    {
        known_limits();
        let pixels = (self.area.along.reach + area.along.reach) as u64;
        let mut due = before;
        for right in start..spots.len() {
            let spot = &spots[right];
            if is_beyond(spot.y, self.low.y(), pixels, &self.until) {
                return Some(due);
            }
            due = self.next_due(spot, due)?;
        }
        Some(due)
    }

    // What is due with the label of the spot; none where it may refuse the end.
    fn next_due(&self, spot: &Spot, due: Option<usize>) -> Option<Option<usize>>
        requires { IsSpotOf self.now.labels.now spot.now }
        ensures { IfSome result (λ next. IsDueWith self.now.labels.now
            (ends self.now.slots.now) self.now.place spot.now.place due next) }
    {
        match self.stance(spot) {
            Stance::Aside => Some(due),
            Stance::Blocker => Some(Some(sooner(due, spot.place as usize))),
            Stance::Refuser => None,
        }
    }

    // What the label of the spot says. One that ends before the two may overlap sets no limit, and so it need
    // not be looked at itself.
    fn stance(&self, spot: &Spot) -> Stance
        requires { IsSpotOf self.now.labels.now spot.now }
        ensures { IsStance self.now.labels.now
            (ends self.now.slots.now) self.now.place spot.now.place result }
    {
        known_limits();
        clear_labels();
        ended_labels();
        let place = spot.place as usize;
        if place >= self.place {
            return Stance::Aside;
        }
        let until = &self.until;
        if self.site.is_clear(&spot.site, Quotient::of_ratio(until)) {
            return Stance::Aside;
        }
        let other = &self.slots[place].until;
        if self.site.is_clear(&spot.site, Quotient::of_ratio(other)) {
            return Stance::Aside;
        }
        match limit_up_to(self.low, &self.labels[place], other, until) {
            None => Stance::Aside,
            Some(limit) => {
                if limit.is_less(until) {
                    Stance::Refuser
                } else {
                    Stance::Blocker
                }
            }
        }
    }
}
