//! Searches for live labels.
ghost use Rattle.std.specs.Prelude.{ℕ, ◌≡◌, ◌+◌, ◌<◌, ◌≤◌, ◌⊎◌, length, All, Contains, IsTrue, OnOk, IfOk};
ghost use Rattle.ml_ratio.specs.Fraction.{value_of};
ghost use Rattle.ml_cone.specs.Cell.{IsLastBand};
ghost use Rattle.ml_cone.specs.Choice.{IsEnd, ActiveUntil};
ghost use Rattle.ml_cone.specs.Shown.{IsInView};
ghost use Rattle.ml_store.specs.Rows.{IsLive};
ghost use Rattle.ml_store.specs.Search.{IsFoundIn, IsNumberWith, Gathers, AreOverlapping, AreAcross, NoneOverlaps, AreNearNumbers};
ghost use Rattle.ml_store.specs.declared.row.Row.{Row};

use crate::searching::{find_across, find_near, find_overlapping, find_seen, is_clear};
use crate::store::Store;
use ml_cone::{Label, View};
use ml_ratio::{Ratio, Seq, Steps};
use std::alloc::{AllocError, Global};
use std::sync::ledger::Ledger;

impl Store {
    /// Appends the numbers of the labels that are kept in a cell of the label's hull in the band, which is
    /// at most 27. The label itself need not be there.
    ///
    /// # Errors
    /// Out of memory.
    pub fn near(&self, label: &Label, band: u8, out: &mut Seq<u32>) -> Result<(), AllocError>
        requires { band ≤ 27 }
        ensures ok { OnOk result (Gathers
            (IsNumberWith (λ r. IsFoundIn label.now r.label band) self.now.rows) out.old out.new) }
    {
        find_near(&self.table, &self.grid, label, band, out)
    }

    /// Numbers of live labels, among them those of all that the label overlaps in the band, which is at most
    /// 27, and that are active up to the scale at least; in whatever order and however often.
    ///
    /// # Errors
    /// Out of memory.
    pub fn overlapping(
        &self,
        alloc: Global,
        label: &Label,
        band: u8,
        scale: &Ratio,
    ) -> Result<Seq<u32>, AllocError>
        requires { band ≤ 27 }
        ensures whole { IfOk result (AreOverlapping self.now.rows label.now band scale.now) }
        ensures live { IfOk result
            (λ numbers. (n : ℕ) → Contains numbers n → IsLive self.now.rows n) }
    {
        find_overlapping(
            alloc,
            &self.table,
            &self.grid,
            &self.outline,
            label,
            band,
            scale,
        )
    }

    /// Numbers, among them those of all live labels that the label overlaps in a band from `band` on, in whatever
    /// order and however often, and the first band of those that are still to be searched: that behind `upto`,
    /// which is at most 27, where one search does until there, else the next one.
    ///
    /// # Errors
    /// Out of memory.
    pub fn across(
        &self,
        alloc: Global,
        label: &Label,
        band: u8,
        upto: u8,
    ) -> Result<(Seq<u32>, u8), AllocError>
        requires from { band ≤ upto }
        requires upto { upto ≤ 27 }
        ensures next { IfOk result (λ found. (band < found.1) × (found.1 ≤ 28)) }
        ensures step { IfOk result (λ found. (found.1 ≡ upto + 1) ⊎ (found.1 ≡ band + 1)) }
        ensures whole { IfOk result
            (λ found. AreAcross self.now.rows label.now band found.1 found.0) }
    {
        find_across(
            alloc,
            &self.table,
            &self.grid,
            &self.outline,
            label,
            band,
            upto,
        )
    }

    /// True only where no label that the label overlaps in any of the bands from `band` to `upto`, which is at
    /// most 27, is active up to the scale at least. It takes no memory, and one search for up to four bands of
    /// labels that do not reach far; of other labels it cannot tell, and is false.
    pub fn is_clear(&self, label: &Label, band: u8, upto: u8, scale: &Ratio) -> bool
        requires { upto ≤ 27 }
        ensures { IsTrue result → NoneOverlaps self.now.rows label.now band upto scale.now }
    {
        is_clear(
            &self.table,
            &self.grid,
            &self.outline,
            label,
            band,
            upto,
            scale,
        )
    }

    /// A band, at most 27, up to that in which the selectable range of some label ends first: in no band
    /// before it the range of any ends.
    pub fn first_end(&self) -> u8
        ensures low { result ≤ 27 }
        ensures ends { All (λ r. (k : ℕ) → IsLastBand r.label k → result ≤ k) self.now.rows }
    {
        self.outline.first_end().min(27)
    }

    /// The numbers of the labels near the view, each once: among them all that it shows. It spends a step
    /// for each.
    ///
    /// # Errors
    /// Out of memory.
    pub fn seen<L: Ledger>(
        &self,
        alloc: Global,
        view: &View,
        looks: &mut Steps<L>,
    ) -> Result<Seq<u32>, AllocError>
        requires { All (λ r. IsEnd r.label (value_of r.slot.until)) self.now.rows }
        ensures near { IfOk result (AreNearNumbers self.now.rows view.now) }
        ensures shown { IfOk result (λ numbers. (r : Row) → Contains self.now.rows r →
            ActiveUntil r.label (value_of r.slot.until) (value_of view.now.scale) →
            IsInView r.label view.now → Contains numbers r.number) }
        ensures spent { IfOk result (λ numbers. looks.new ≡ looks.old + length numbers) }
    {
        find_seen(alloc, &self.table, &self.grid, view, looks)
    }
}
