//! The rivals that may bound a label.
ghost use Rattle.std.specs.Prelude.{ℕ, ◌≡◌, ◌+◌, ◌*◌, ◌^◌, ◌<◌, ◌≤◌, ◌↔◌, true, IsTrue, List, length, All, Contains, IfOk};
ghost use Rattle.std.specs.List.Sorted.{IsStrictlyIncreasing};
ghost use Rattle.ml_store.specs.Rows.{number_at};
ghost use Rattle.ml_repair.specs.Moves.{numbers_of};
ghost use Rattle.ml_repair.specs.Plan.{slot_for};
ghost use Rattle.ml_repair.specs.Repair.{Stands, ReachesBand, AreReaching, IsClear, AreEnoughFor, AreSifted};
ghost use Rattle.ml_store.specs.Table.{IsRowAt};
ghost use Rattle.ml_ratio.specs.Fraction.{Fraction, value_of, IsLess, IsAtMost};
ghost use Rattle.ml_conflict.specs.Begin.{SetsNoneUpTo};
ghost use Rattle.ml_ratio.specs.declared.ratio.Ratio.{Ratio};
ghost use Rattle.ml_cone.specs.declared.slot.Slot.{Slot};

use crate::chosen::present_slot;
use crate::moves::Moves;
use crate::roster::no_places;
use crate::sought::{Edited, Sought};
use ml_cone::{Label, Site};
use ml_conflict::laws::clear_labels;
use ml_conflict::limit_up_to;
use ml_ratio::{Quotient, Ratio, Seq, ascending};
use ml_store::Moved;
use std::alloc::{AllocError, Global};

// Whether the place is before `i`, and that of the edited label only where that comes.
fn stands(edited: Edited, i: usize, place: usize) -> bool
    ensures { IsTrue result ↔ Stands edited.comes true edited.at i place }
{
    place < i && (place != edited.at || edited.comes)
}

// The scale 2^band, and 0 for the first band.
fn start_of(band: u8) -> Ratio
    requires { band ≤ 27 }
    ensures first { band ≡ 0 → result.num ≡ 0 }
    ensures num { 0 < band → result.num ≡ 2 ^ band }
    ensures den { result.den ≡ 1 }
{
    let start = if band == 0 { 0 } else { 1u64 << band };
    match Ratio::of(start, 1) {
        Some(scale) => scale,
        None => unreachable!(),
    }
}

// A whole number and the 65536th part of one, which is the least part that a fraction can have.
fn just_above(whole: u64) -> Ratio
    requires { whole < 65536 }
    ensures { result.num * 65536 ≡ (whole * 65536 + 1) * result.den }
{
    match Ratio::of(whole * 65536 + 1, 65536) {
        Some(scale) => scale,
        None => unreachable!(),
    }
}

// The least scale above a whole number.
fn next_scale(whole: u64) -> Ratio
    requires { whole < 65536 }
    ensures { (u : Ratio) → whole * u.den < u.num → IsAtMost (value_of result) (value_of u) }
{
    just_above(whole)
}

// A scale until which each label lasts that reaches into the band and ends above the label's minimum. Labels that
// are never shown end where they begin, so they are passed over in the band of their minimum, if that is whole.
fn least_end(low: &Label, band: u8) -> Ratio
    requires { band ≤ 27 }
    ensures { (u : Ratio) → IsLess (value_of low.now.min) (value_of u) →
        ReachesBand band (value_of u) → IsAtMost (value_of result) (value_of u) }
{
    let min = low.min();
    if min.den() == 1 && min.num() < 65536 && min.band() == band {
        next_scale(min.num())
    } else {
        start_of(band)
    }
}

// Places, among them those of the labels without a new slot that the label overlaps in the band, that reach into it
// and that end above the label's minimum: their own slots last until a scale that is known.
fn search(alloc: Global, sought: &Sought<'_>, band: u8) -> Result<Seq<u32>, AllocError>
    requires { band ≤ 27 }
    ensures { IfOk result
        (AreReaching sought.now.roster.now sought.now.moves.now sought.now.low.now band) }
{
    let scale = least_end(sought.low, band);
    sought.roster.overlapping(alloc, sought.low, band, &scale)
}

// Whether no label without a new slot before that which is sought that it overlaps in any of the four bands
// from `band` on reaches into that band.
fn is_clear(sought: &Sought<'_>, band: u8) -> bool
    requires { band ≤ 27 }
    ensures { IsTrue result → IsClear sought.now.roster.now sought.now.moves.now
        sought.now.low.now sought.now.place band (band + 3) }
{
    let scale = start_of(band);
    sought
        .roster
        .is_clear(sought.low, sought.place, band, (band + 3).min(27), &scale)
}

// Whether the label is so far from that which is sought that it sets it no limit up to the bound. Its site tells
// that sooner than its boxes.
fn is_far(sought: &Sought<'_>, label: &Label, bound: &Ratio) -> bool
    ensures { IsTrue result → (until : Fraction) →
        SetsNoneUpTo sought.now.low.now label.now until (value_of bound.now) }
{
    clear_labels();
    let own = &sought.site;
    own.is_clear(&Site::of(label), Quotient::of_ratio(bound))
}

// A place comes in where it stands before the label and its label sets a limit up to the bound; that limit
// is the bound from then on.
fn sift_one(
    sought: &Sought<'_>,
    place: u32,
    bound: Ratio,
    out: &mut Seq<u32>,
) -> Result<Ratio, AllocError>
    requires { place < length sought.now.roster.now }
    ensures { IfOk result
        (λ next. AreSifted sought.now (λ p. p ≡ place) bound next out.old out.new) }
{
    if stands(sought.edited, sought.place, place as usize) {
        let row = sought.roster.row(place as usize);
        if is_far(sought, &row.label, &bound) {
            return Ok(bound);
        }
        let until = present_slot(sought.roster, sought.moves, place as usize).until;
        match limit_up_to(sought.low, &row.label, &until, &bound) {
            Some(limit) => {
                out.push(place)?;
                Ok(limit)
            }
            None => Ok(bound),
        }
    } else {
        Ok(bound)
    }
}

// Those of the places come in that stand before the label and may set its end.
fn sift(
    sought: &Sought<'_>,
    found: &[u32],
    bound: Ratio,
    out: &mut Seq<u32>,
) -> Result<Ratio, AllocError>
    requires { All (λ p. p < length sought.now.roster.now) found.now }
    ensures { IfOk result
        (λ next. AreSifted sought.now (Contains found.now) bound next out.old out.new) }
{
    let mut next = bound;
    for place in found {
        next = sift_one(sought, *place, next, out)?;
    }
    Ok(next)
}

// A label with a new slot comes in where it stands before the label and sets a limit up to the bound. One that ends
// where the label begins, or before, sets it none.
fn sift_moved_one(
    sought: &Sought<'_>,
    moved: &Moved,
    bound: Ratio,
    out: &mut Seq<u32>,
) -> Result<Ratio, AllocError>
    requires { (own : Slot) → slot_for moved.now.number own sought.now.moves.now ≡ moved.now.slot }
    ensures { IfOk result (λ next. AreSifted sought.now
        (IsRowAt sought.now.roster.now moved.now.number) bound next out.old out.new) }
{
    if !sought.low.min().is_less(&moved.slot.until) {
        return Ok(bound);
    }
    match sought.roster.place_of(moved.number) {
        Some(place) => sift_one(sought, place as u32, bound, out),
        None => Ok(bound),
    }
}

// Those of the labels with new slots come in that stand before the label and may set its end.
fn sift_moved(sought: &Sought<'_>, bound: Ratio, out: &mut Seq<u32>) -> Result<Ratio, AllocError>
    ensures { IfOk result (λ next. AreSifted sought.now
        (λ p. (p < length sought.now.roster.now) × Contains (numbers_of sought.now.moves.now)
        (number_at sought.now.roster.now p)) bound next out.old out.new) }
{
    let mut next = bound;
    let all = sought.moves.as_slice();
    for moved in all {
        next = sift_moved_one(sought, moved, next, out)?;
    }
    Ok(next)
}

// Places before that of the label which are enough for its slot, where many labels have new slots: a search for
// labels that may have ended long ago finds these with the others.
fn gather_all(alloc: Global, sought: &Sought<'_>) -> Result<Vec<u32>, AllocError>
    requires { sought.now.place < length sought.now.roster.now }
    ensures ascending { IfOk result (λ places. IsStrictlyIncreasing places.items) }
    ensures enough { IfOk result (λ places. AreEnoughFor sought.now places.items) }
{
    let mut places = Seq::new(alloc);
    let low = sought.low;
    let mut bound = low.max();
    let mut band = low.min().band();
    while band <= bound.band() && band < 28 {
        let mut found = no_places(alloc)?;
        let upto = bound.band().min(band + 3).min(27);
        band = sought.roster.across(alloc, low, band, upto, &mut found)?;
        bound = sift(sought, found.as_slice(), bound, &mut places)?;
    }
    Ok(ascending(places))
}

/// Places before that of the label which are enough for its slot. Where few labels have other ends by new slots, these are
/// looked at first, since a search knows nothing of them. Then bands are searched upwards from the label's minimum, up to
/// that of the least limit found so far; a label that sets none up to there is passed over. Below the first
/// band with a neighbour four bands are passed over at a time.
///
/// # Errors
/// Out of memory.
pub fn gather(alloc: Global, sought: &Sought<'_>) -> Result<Vec<u32>, AllocError>
    requires { sought.now.place < length sought.now.roster.now }
    ensures ascending { IfOk result (λ places. IsStrictlyIncreasing places.items) }
    ensures enough { IfOk result (λ places. AreEnoughFor sought.now places.items) }
{
    if sought.many {
        return gather_all(alloc, sought);
    }
    let mut places = Seq::new(alloc);
    let low = sought.low;
    let mut bound = sift_moved(sought, low.max(), &mut places)?;
    let mut band = low.min().band();
    let mut apart = true;
    while band <= bound.band() && band < 28 {
        apart = apart && is_clear(sought, band);
        if apart {
            band += 4;
        } else {
            let found = search(alloc, sought, band)?;
            let found = found.as_slice();
            bound = sift(sought, found, bound, &mut places)?;
            band += 1;
        }
    }
    Ok(ascending(places))
}
