//! Searches for labels in cells of the grid.
ghost use Rattle.std.specs.Prelude.{ℕ, ◌≡◌, ◌+◌, ◌<◌, ◌≤◌, ◌⊎◌, length, All, Contains, IsTrue, OnOk, IfOk};
ghost use Rattle.ml_ratio.specs.Fraction.{value_of};
ghost use Rattle.ml_cone.specs.Choice.{IsEnd, ActiveUntil};
ghost use Rattle.ml_cone.specs.Hull.{AreFew};
ghost use Rattle.ml_cone.specs.Outline.{OverlapIn, IsWithin, IsKeptAmong};
ghost use Rattle.ml_cone.specs.Shown.{IsInView};
ghost use Rattle.ml_cone.specs.declared.label.Label.{Label};
ghost use Rattle.ml_store.specs.Rows.{IsLive, HaveOwnNumbers};
ghost use Rattle.ml_store.specs.Search.{IsFoundIn, IsNumberWith, Gathers, AreOverlapping, AreAcross, NoneOverlaps, AreNearNumbers};
ghost use Rattle.ml_store.specs.Store.{AreWithin, IsIndex, IsEntryIn};
ghost use Rattle.ml_store.specs.declared.row.Row.{Row};

use crate::row::Row;
use crate::table::Table;
use ml_cone::{Cells, Label, Outline, View};
use ml_grid::Grid;
use ml_grid::laws::{seen_are_near, shown_seen};
use ml_ratio::{Ratio, Seq, Steps};
use std::alloc::{AllocError, Global};
use std::sync::ledger::Ledger;

/// Appends the numbers of the labels that are kept in a cell of the label's hull in the band.
pub fn find_near(
    rows: &Table,
    grid: &Grid,
    label: &Label,
    band: u8,
    out: &mut Seq<u32>,
) -> Result<(), AllocError>
    requires band { band ≤ 27 }
    requires kept { IsIndex IsEntryIn rows.now.rows grid.now.entries }
    ensures ok { OnOk result (Gathers
        (IsNumberWith (λ r. IsFoundIn label.now r.label band) rows.now.rows) out.old out.new) }
{
    grid.in_hull(label, band, out)
}

/// Numbers, among them those of all labels that the label overlaps in the band and that are active up to
/// the scale at least.
pub fn find_overlapping(
    alloc: Global,
    rows: &Table,
    grid: &Grid,
    outline: &Outline,
    label: &Label,
    band: u8,
    scale: &Ratio,
) -> Result<Seq<u32>, AllocError>
    requires band { band ≤ 27 }
    requires kept { IsIndex IsEntryIn rows.now.rows grid.now.entries }
    requires within { AreWithin outline.now rows.now.rows }
    ensures whole { IfOk result (AreOverlapping rows.now.rows label.now band scale.now) }
    ensures live { IfOk result (λ numbers. (n : ℕ) → Contains numbers n → IsLive rows.now.rows n) }
{
    grid.in_cells(alloc, &outline.around(label, band), scale)
}

// Cells in which each label is kept that the label overlaps in a band from `band` on, and the first band of those
// that are still to be searched: that behind `upto` where one search does until there, else the next one.
fn cells_across(outline: &Outline, label: &Label, band: u8, upto: u8) -> (Cells, u8)
    requires from { band ≤ upto }
    requires upto { upto ≤ 27 }
    ensures few { AreFew result.0.x0 result.0.x1 }
    ensures next { (band < result.1) × (result.1 ≤ 28) }
    ensures step { (result.1 ≡ upto + 1) ⊎ (result.1 ≡ band + 1) }
    ensures whole { (a : Label) (n : ℕ) → IsWithin outline.now a → band ≤ n →
        n < result.1 → OverlapIn label.now a n → IsKeptAmong result.0 a }
{
    match outline.across(label, band, upto) {
        Some(cells) => (cells, upto + 1),
        None => (outline.around(label, band), band + 1),
    }
}

/// Numbers, among them those of all labels that the label overlaps in a band from `band` on, and the first band of
/// those that are still to be searched.
pub fn find_across(
    alloc: Global,
    rows: &Table,
    grid: &Grid,
    outline: &Outline,
    label: &Label,
    band: u8,
    upto: u8,
) -> Result<(Seq<u32>, u8), AllocError>
    requires from { band ≤ upto }
    requires upto { upto ≤ 27 }
    requires kept { IsIndex IsEntryIn rows.now.rows grid.now.entries }
    requires within { AreWithin outline.now rows.now.rows }
    ensures next { IfOk result (λ found. (band < found.1) × (found.1 ≤ 28)) }
    ensures step { IfOk result (λ found. (found.1 ≡ upto + 1) ⊎ (found.1 ≡ band + 1)) }
    ensures whole { IfOk result (λ found. AreAcross rows.now.rows label.now band found.1 found.0) }
{
    let (cells, next) = cells_across(outline, label, band, upto);
    let numbers = grid.all_in_cells(alloc, &cells)?;
    Ok((numbers, next))
}

/// Whether no label that the label overlaps in any of the bands is active up to the scale. False also where
/// the labels cannot be searched for all these bands at once.
pub fn is_clear(
    rows: &Table,
    grid: &Grid,
    outline: &Outline,
    label: &Label,
    band: u8,
    upto: u8,
    scale: &Ratio,
) -> bool
    requires bands { upto ≤ 27 }
    requires kept { IsIndex IsEntryIn rows.now.rows grid.now.entries }
    requires within { AreWithin outline.now rows.now.rows }
    ensures { IsTrue result → NoneOverlaps rows.now.rows label.now band upto scale.now }
{
    match outline.across(label, band, upto) {
        Some(cells) => !grid.has_in_cells(&cells, scale),
        None => false,
    }
}

/// The numbers of the labels near the view, each once.
pub fn find_seen<L: Ledger>(
    alloc: Global,
    table: &Table,
    grid: &Grid,
    view: &View,
    looks: &mut Steps<L>,
) -> Result<Seq<u32>, AllocError>
    requires differ { HaveOwnNumbers table.now.rows }
    requires kept { IsIndex IsEntryIn table.now.rows grid.now.entries }
    requires ends { All (λ r. IsEnd r.label (value_of r.slot.until)) table.now.rows }
    ensures near { IfOk result (AreNearNumbers table.now.rows view.now) }
    ensures shown { IfOk result (λ numbers. (r : Row) → Contains table.now.rows r →
        ActiveUntil r.label (value_of r.slot.until) (value_of view.now.scale) →
        IsInView r.label view.now → Contains numbers r.number) }
    ensures spent { IfOk result (λ numbers. looks.new ≡ looks.old + length numbers) }
{
    seen_are_near();
    shown_seen();
    let mut numbers = Seq::new(alloc);
    grid.in_window(view, &mut numbers, looks)?;
    Ok(numbers)
}
