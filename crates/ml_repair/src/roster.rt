//! The labels that an edit is planned over.
ghost use Rattle.std.specs.Prelude.{ℕ, ◌≡◌, ◌+◌, ◌<◌, ◌≤◌, ◌⊎◌, [], length, insert, IsTrue, IsSome, IfSome, IfOk, HoldsAt, slice_index_or};
ghost use Rattle.ml_ratio.specs.Limits.{most_labels};
ghost use Rattle.ml_cone.specs.Cell.{IsLastBand};
ghost use Rattle.ml_cone.specs.declared.label.Label.{Label};
ghost use Rattle.ml_store.specs.Numbered.{AreNumbered};
ghost use Rattle.ml_store.specs.Rows.{number_at, labels_in, IsFresh};
ghost use Rattle.ml_store.specs.Search.{Gathers};
ghost use Rattle.ml_store.specs.Table.{IsRowAt, IsPlaceIn, slot_at};
ghost use Rattle.ml_repair.specs.Roster.{left_rows, joined_rows, AreFound, AreOverlapped, AreMet, NoneBefore, PlacesCame};

use crate::rows::{joined_place, joined_row};
use ml_cone::{Label, last_band};
use ml_ratio::{Ratio, Seq};
use ml_store::{Row, Store};
use std::alloc::{AllocError, Global};
use std::marker::Model;

// How many places a search has room for from the start: it mostly finds some tens.
const ROOM: usize = 64;

/// No places yet, with room for some.
///
/// # Errors
/// Out of memory.
pub fn no_places(alloc: Global) -> Result<Seq<u32>, AllocError>
    ensures { IfOk result (λ places. places ≡ []) }
{
    Ok(Seq::of_vec(Vec::with_capacity(alloc, ROOM)?))
}

/// The live labels but one that is passed over, and one that is to come, in priority order.
#[derive(Drop)]
pub struct Roster<'a> {
    store: &'a Store,
    gone: Option<usize>,
    come: Option<&'a Row>,
    at: usize,
}

impl<'a> Model for Roster<'a> {
    ghost use Rattle.std.specs.Prelude.{List, ◌<◌, ◌≤◌, length, IfSome};
    ghost use Rattle.ml_store.specs.Numbered.{AreNumbered};
    ghost use Rattle.ml_store.specs.declared.row.Row.{Row};
    ghost use Rattle.ml_repair.specs.Roster.{left_rows, joined_rows};

    ghost Value = { List Row };

    ghost view = { λ r. joined_rows r.come r.at (left_rows r.gone r.store.now.rows) };

    ghost invariant = { λ r. AreNumbered (joined_rows r.come r.at (left_rows r.gone r.store.now.rows)) ×
        IfSome r.gone (λ at. at < length r.store.now.rows) × IfSome r.come (λ row. r.at ≤ length (left_rows r.gone r.store.now.rows)) };
}

// Appends the place of a number, if it has one.
fn push_place(roster: &Roster<'_>, number: u32, out: &mut Seq<u32>) -> Result<(), AllocError>
    ensures { IfOk result (λ _. Gathers (IsRowAt roster.now number) out.old out.new) }
{
    match roster.place_of(number) {
        Some(at) => {
            out.push(at as u32)?;
            Ok(())
        }
        None => Ok(()),
    }
}

/// Appends the places of those of the numbers that have one.
///
/// # Errors
/// Out of memory.
pub fn push_places(
    roster: &Roster<'_>,
    numbers: &[u32],
    out: &mut Seq<u32>,
) -> Result<(), AllocError>
    ensures { IfOk result (λ _. PlacesCame roster.now numbers.now out.old out.new) }
{
    for number in numbers {
        push_place(roster, *number, out)?;
    }
    Ok(())
}

// Appends the place of the row that is to come, if one is.
fn push_come(come: Option<&Row>, at: usize, out: &mut Seq<u32>) -> Result<(), AllocError>
    requires { IfSome come (λ row. at ≤ most_labels) }
    ensures { IfOk result (λ _. Gathers (λ p. IsSome come.entry × (p ≡ at)) out.old out.new) }
{
    match come {
        Some(_) => {
            out.push(at as u32)?;
            Ok(())
        }
        None => Ok(()),
    }
}

impl<'a> Roster<'a> {
    /// The live labels.
    pub fn of_all(store: &'a Store) -> Roster<'a>
        ensures rows { result ≡ store.now.rows }
        ensures numbered { AreNumbered result }
    {
        Roster::left(store, None)
    }

    /// The live labels but that at `gone`, if one is given.
    pub fn left(store: &'a Store, gone: Option<usize>) -> Roster<'a>
        requires { IfSome gone (λ g. g < length store.now.rows) }
        ensures rows { result ≡ left_rows gone store.now.rows }
        ensures numbered { AreNumbered result }
    {
        let _many = store.len();
        Roster {
            store,
            gone,
            come: None,
            at: 0,
        }
    }

    /// The live labels but that at `gone`, if one is given, and another one that comes in at `at`.
    pub fn with(store: &'a Store, gone: Option<usize>, come: &'a Row, at: usize) -> Roster<'a>
        requires gone { IfSome gone (λ g. g < length store.now.rows) }
        requires at { at ≤ length (left_rows gone store.now.rows) }
        requires few { length (left_rows gone store.now.rows) < most_labels }
        requires fresh { IsFresh come.now.number (left_rows gone store.now.rows) }
        requires low { come.now.number < most_labels }
        ensures rows { result ≡ insert (left_rows gone store.now.rows) at come.now }
        ensures numbered { AreNumbered result }
    {
        let _many = store.len();
        Roster {
            store,
            gone,
            come: Some(come),
            at,
        }
    }

    /// How many labels there are.
    pub fn len(&self) -> usize
        ensures count { result ≡ length self.now }
        ensures numbered { AreNumbered self.now }
    {
        let mut count = self.store.len();
        if self.gone.is_some() {
            count -= 1;
        }
        if self.come.is_some() {
            count += 1;
        }
        count
    }

    /// The row at a place, which has its number, its label and its slot.
    pub fn row(&self, place: usize) -> &Row
        requires { place < length self.now }
        ensures row { HoldsAt (λ r. r ≡ result.now) self.now place }
        ensures number { number_at self.now place ≡ result.now.number }
        ensures label { (d : Label) →
            slice_index_or (labels_in self.now) place d ≡ result.now.label }
        ensures slot { slot_at self.now place ≡ result.now.slot }
        ensures numbered { AreNumbered self.now }
    {
        joined_row(self.store, self.gone, self.come, self.at, place)
    }

    /// The place of the label with this number; none where no label has it.
    pub fn place_of(&self, number: u32) -> Option<usize>
        ensures place { IsPlaceIn self.now number result }
        ensures numbered { AreNumbered self.now }
    {
        joined_place(self.store, self.gone, self.come, self.at, number)
    }

    /// A band, at most 27, up to that in which the selectable range of some label ends first: in no band
    /// before it the range of any ends.
    pub fn first_end(&self) -> u8
        ensures low { result ≤ 27 }
        ensures ends { (p k : ℕ) → p < length self.now →
            ((d : Label) → IsLastBand (slice_index_or (labels_in self.now) p d) k) → result ≤ k }
    {
        let first = self.store.first_end();
        match self.come {
            Some(row) => first.min(last_band(&row.label)),
            None => first,
        }
    }

    /// Appends places, among them those of all labels that are kept in a cell of the label's hull in the
    /// band, which is at most 27.
    ///
    /// # Errors
    /// Out of memory.
    pub fn near(
        &self,
        alloc: Global,
        label: &Label,
        band: u8,
        out: &mut Seq<u32>,
    ) -> Result<(), AllocError>
        requires { band ≤ 27 }
        ensures { IfOk result (λ _. AreFound self.now label.now band out.old out.new) }
    {
        let mut numbers = Seq::new(alloc);
        self.store.near(label, band, &mut numbers)?;
        push_places(self, numbers.as_slice(), out)?;
        push_come(self.come, self.at, out)
    }

    /// Places, among them those of all labels that the label overlaps in the band, which is at most 27, and
    /// whose own slots end at the scale at the earliest.
    ///
    /// # Errors
    /// Out of memory.
    pub fn overlapping(
        &self,
        alloc: Global,
        label: &Label,
        band: u8,
        scale: &Ratio,
    ) -> Result<Seq<u32>, AllocError>
        requires { band ≤ 27 }
        ensures { IfOk result (AreOverlapped self.now label.now band scale.now) }
    {
        let numbers = self.store.overlapping(alloc, label, band, scale)?;
        let mut places = no_places(alloc)?;
        push_places(self, numbers.as_slice(), &mut places)?;
        push_come(self.come, self.at, &mut places)?;
        Ok(places)
    }

    /// Appends places, among them those of all labels that the label overlaps in a band from `band` on, and tells
    /// the first band of those that are still to be searched: that behind `upto`, which is at most 27, where one
    /// search does until there, else the next one.
    ///
    /// # Errors
    /// Out of memory.
    pub fn across(
        &self,
        alloc: Global,
        label: &Label,
        band: u8,
        upto: u8,
        out: &mut Seq<u32>,
    ) -> Result<u8, AllocError>
        requires from { band ≤ upto }
        requires upto { upto ≤ 27 }
        ensures next { IfOk result (λ next. (band < next) × (next ≤ 28)) }
        ensures step { IfOk result (λ next. (next ≡ upto + 1) ⊎ (next ≡ band + 1)) }
        ensures met { IfOk result (λ next. AreMet self.now label.now band next out.old out.new) }
    {
        let (numbers, next) = self.store.across(alloc, label, band, upto)?;
        push_places(self, numbers.as_slice(), out)?;
        push_come(self.come, self.at, out)?;
        Ok(next)
    }

    /// True only where of the labels before the place `before` that the label overlaps in any of the bands
    /// from `band` to `upto`, which is at most 27, none has an own slot that ends at the scale or later. It
    /// takes no memory. Of a label that is to come before that place it cannot tell, and is false.
    pub fn is_clear(&self, label: &Label, before: usize, band: u8, upto: u8, scale: &Ratio) -> bool
        requires { upto ≤ 27 }
        ensures { IsTrue result → NoneBefore self.now label.now before band upto scale.now }
    {
        if self.come.is_some() && self.at < before {
            return false;
        }
        self.store.is_clear(label, band, upto, scale)
    }
}
