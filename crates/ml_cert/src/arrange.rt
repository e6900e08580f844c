//! Spots of labels are put into strips, in room that the caller lends.
ghost use Rattle.std.specs.Prelude.{◌≡◌, ◌+◌, ◌^◌, ◌<◌, ◌≤◌, All, length, slice_index_or, IfSome};
ghost use Rattle.std.specs.List.Sorted.{IsPermutation};
ghost use Rattle.ml_ratio.specs.Limits.{most_labels};
ghost use Rattle.ml_cone.specs.declared.label.Label.{Label as ALabel};
ghost use Rattle.ml_conflict.specs.Area.{IsInArea};
ghost use Rattle.ml_conflict.specs.Field.{IsSpotOf};
ghost use Rattle.ml_cert.specs.Strips.{AreListed, AreRising, AreCut};

use crate::strip::Strip;
use ml_cone::{Label, Slot};
use ml_conflict::{Area, Spot, spot_of};

// How many spots a strip has at least, but for the last, unless they fall.
const LEAST_WIDTH: usize = 16;

/// Writes the spots of all labels whose slots are not empty. The answer is how many.
pub fn list_active(labels: &[Label], slots: &[Slot], spots: &mut [Spot]) -> usize
    requires few { length labels.now ≤ most_labels }
    requires lengths { length slots.now ≡ length labels.now }
    requires room { length labels.now ≤ length spots.old }
    ensures within { result ≤ length labels.now }
    ensures listed { AreListed labels.now slots.now (length labels.now) spots.new result }
{
    let mut count = 0;
    for i in 0..labels.len() {
        count = list_one(labels, slots, i, spots, count);
    }
    count
}

// Writes the spot of the label at `i`, unless its slot is empty.
fn list_one(labels: &[Label], slots: &[Slot], i: usize, spots: &mut [Spot], count: usize) -> usize
    requires few { length labels.now ≤ most_labels }
    requires lengths { length slots.now ≡ length labels.now }
    requires at { i < length labels.now }
    requires room { count < length spots.old }
    requires listed { AreListed labels.now slots.now i spots.old count }
    ensures within { result ≤ count + 1 }
    ensures listed { AreListed labels.now slots.now (i + 1) spots.new result }
{
    if labels[i].min().is_less(&slots[i].until) {
        spots[count] = spot_of(labels, i);
        count + 1
    } else {
        count
    }
}

/// Puts the spots in order from west to east, and in strips of about the square root of their number each from
/// south to north.
pub fn arrange(spots: &mut [Spot])
    ensures { IsPermutation spots.old spots.new }
{
    spots.sort_unstable_by_key(|spot| (spot.x, spot.y));
    let width = width_for(spots.len());
    let mut from = 0;
    while from < spots.len() {
        let to = spots.len().min(from + width);
        sort_part(spots, from, to);
        from = to;
    }
}

// Puts the spots from one place until another in order from south to north.
fn sort_part(spots: &mut [Spot], from: usize, to: usize)
    requires order { from ≤ to }
    requires within { to ≤ length spots.old }
    ensures { IsPermutation spots.old spots.new }
{
    spots[from..to].sort_unstable_by_key(|spot| spot.y);
}

// How many of so many spots a strip has.
fn width_for(count: usize) -> usize
    ensures some { 0 < result }
    ensures few { result < 2 ^ 32 }
{
    count.isqrt().max(LEAST_WIDTH)
}

/// Cuts the spots into strips, as many as there is room for at most. The answer is how many, if all fit.
pub fn cut(labels: &[Label], spots: &[Spot], strips: &mut [Strip]) -> Option<usize>
    requires { All (IsSpotOf labels.now) spots.now }
    ensures { IfSome result
        (λ many. AreCut labels.now spots.now strips.new many (length spots.now)) }
{
    let mut many = 0;
    let mut from = 0;
    while from < spots.len() {
        if many == strips.len() {
            return None;
        }
        let to = end_of(spots, from);
        strips[many] = Strip {
            from,
            to,
            area: area_of(labels, &spots[from..to]),
        };
        many += 1;
        from = to;
    }
    Some(many)
}

// Where the strip ends that begins there: where it is wide enough, or where the next spot lies further south.
fn end_of(spots: &[Spot], from: usize) -> usize
    requires { from < length spots.now }
    ensures after { from < result }
    ensures within { result ≤ length spots.now }
    ensures rising { AreRising spots.now from result }
{
    let end = spots.len().min(from + width_for(spots.len()));
    for to in from + 1..end {
        if spots[to].y < spots[to - 1].y {
            return to;
        }
    }
    end
}

// The area that holds the labels of the spots.
fn area_of(labels: &[Label], spots: &[Spot]) -> Area
    requires good { All (IsSpotOf labels.now) spots.now }
    requires some { 0 < length spots.now }
    ensures { All (λ spot. (d : ALabel) →
        IsInArea (slice_index_or labels.now spot.place d) result) spots.now }
{
    let mut area = Area::of(&labels[spots[0].place as usize]);
    for k in 0..spots.len() {
        area = area.with(&Area::of(&labels[spots[k].place as usize]));
    }
    area
}
