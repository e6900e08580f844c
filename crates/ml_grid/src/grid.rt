//! The grid.
ghost use Rattle.std.specs.Prelude.{ℕ, ◌≡◌, ◌+◌, ◌<◌, ◌≤◌, ◌^◌, ◌↔◌, [], max, length, map, Contains, IsTrue, OnOk, OnErr, IfOk};
ghost use Rattle.std.specs.List.Sorted.{IsPermutation};
ghost use Rattle.std.specs.Ordering.{nat_cmp};
ghost use Rattle.ml_ratio.specs.RatioOrder.{ratio_cmp};
ghost use Rattle.ml_spans.specs.Order.{entry_order, IsRising};
ghost use Rattle.ml_spans.specs.Spans.{renewed, HaveOwnPlaces};
ghost use Rattle.ml_grid.specs.Cell.{cell_cmp};
ghost use Rattle.ml_grid.specs.Count.{AreUpToNine, entry_count};
ghost use Rattle.ml_grid.specs.Entry.{IsEntryOf, Adds, LosesEntries, Replaces, IsFree, AreEntriesOf, AreApart};
ghost use Rattle.ml_grid.specs.Found.{Finds, AppendsNumbers, AppendsFirst, IsAmong, IsInHull, IsNumberOf, HasEntry, IsSeen};
ghost use Rattle.ml_grid.specs.Column.{IsAmongFrom};
ghost use Rattle.ml_grid.specs.Marks.{marked, end_by};

use crate::bands::entries_of;
use crate::end::End;
use crate::find::{append, append_counted, find_cells, find_cells_from, has_in_cells};
use crate::keep::{Tree, add_all, drop_all, move_all};
use crate::marks::{Ends, Marks, mark_all};
use crate::radix::in_order;
use crate::window::window_cells;
use ml_cone::{Cells, Label, Span, View, hull};
use ml_ratio::{Ratio, Seq, Steps, ascending};
use ml_spans::{NextEnd, SpanTree};
use std::alloc::{AllocError, Global};
use std::marker::Model;
use std::sync::ledger::Ledger;

// How many numbers a search has room for from the start: it mostly finds some tens.
const ROOM: usize = 32;

/// Entries of labels in cells.
///
/// A label with a number and a span is kept in each band from 0 to 27 that meets the closed range from
/// its minimum to its maximum, and there in each cell of its hull. Each entry has the span's end and the
/// label's number. The label's maximum counts and not the span's end, so that a label that ends early is
/// still found as a rival.
///
/// Contracts see the entries, each once, and how many may come in before memory is taken again.
#[derive(Drop)]
pub struct Grid {
    tree: Tree,
}

impl Model for Grid {
    ghost use Rattle.ml_grid.specs.Entry.{Kept};

    ghost Value = { Kept };

    ghost view = { λ g. record { entries = g.tree.entries; spare = g.tree.spare } };
}

impl Grid {
    /// No entries, and no room. It takes no memory; the allocator serves `reserve`.
    pub fn new(alloc: Global) -> Grid
        ensures { result ≡ record { entries = []; spare = 0 } }
    {
        Grid {
            tree: SpanTree::new(alloc),
        }
    }

    /// Appends the marks of the entries of a label, whose number is below 32,768, to marks of which no two are
    /// those of one entry and none has the number. Its end is the one that `ends` has for its number.
    ///
    /// # Errors
    /// Out of memory; some of them were appended.
    pub fn mark(
        marks: &mut Marks,
        number: u32,
        label: &Label,
        ends: &Ends,
    ) -> Result<(), AllocError>
        requires number { number < 2 ^ 15 }
        requires apart { AreApart (marked ends.now marks.old.items) }
        requires free { IsFree number (marked ends.now marks.old.items) }
        ensures apart { OnOk result (AreApart (marked ends.now marks.new.items)) }
        ensures entries { OnOk result (Adds (IsEntryOf number label.now (end_by ends.now number))
            (marked ends.now marks.old.items) (marked ends.now marks.new.items)) }
    {
        mark_all(marks, number, label, ends)
    }

    /// The grid of the entries that are marked, no two of which may be the same, with no room.
    ///
    /// # Errors
    /// Out of memory.
    pub fn of_marks(alloc: Global, marks: Marks, ends: &Ends) -> Result<Grid, AllocError>
        requires apart { AreApart (marked ends.now marks.items) }
        ensures entries { IfOk result
            (λ grid. IsPermutation (marked ends.now marks.items) grid.entries) }
        ensures spare { IfOk result (λ grid. grid.spare ≡ 0) }
    {
        let sorted = in_order(alloc, marks)?;
        let tree = SpanTree::of_read(alloc, ends, sorted.as_slice())?;
        Ok(Grid { tree })
    }

    /// How many entries there are. They are in order of cell, then number, then end, each once.
    pub fn len(&self) -> usize
        ensures count { result ≡ length self.now.entries }
        ensures rising { IsRising (entry_order cell_cmp ratio_cmp nat_cmp) self.now.entries }
    {
        self.tree.len()
    }

    /// How many entries may come in without memory.
    pub fn spare(&self) -> usize
        ensures { result ≡ self.now.spare }
    {
        self.tree.spare()
    }

    /// How many entries the label with this span has, which begins at the label's minimum: at most 448, since
    /// there are 28 bands, and in each at most 16 cells.
    pub fn entries(label: &Label, _span: &Span) -> usize
        requires { _span.now.min ≡ label.now.min }
        ensures count { result ≡ entry_count label.now }
        ensures few { result ≤ 448 }
    {
        entries_of(label)
    }

    /// Makes sure that at least `n` entries may come in. It makes no more room than is missing.
    ///
    /// # Errors
    /// Out of memory, which leaves the entries; the room may have grown.
    pub fn reserve(&mut self, n: usize) -> Result<(), AllocError>
        ensures ok { OnOk result (n ≤ self.new.spare) }
        ensures same { self.new.entries ≡ self.old.entries }
        ensures grows { self.old.spare ≤ self.new.spare }
        ensures room { self.new.spare ≤ max self.old.spare n }
    {
        self.tree.reserve(n)
    }

    /// Puts in the entries of a label with this span, which begins at the label's minimum. The number has
    /// none. It takes no memory and cannot fail.
    pub fn add(&mut self, number: u32, label: &Label, span: &Span)
        requires begins { span.now.min ≡ label.now.min }
        requires free { IsFree number self.old.entries }
        requires room { entry_count label.now ≤ self.old.spare }
        ensures entries { Adds
            (IsEntryOf number label.now span.now.until) self.old.entries self.new.entries }
        ensures spare { self.new.spare + entry_count label.now ≡ self.old.spare }
    {
        add_all(&mut self.tree, number, span.until, label);
    }

    /// Takes out the entries of a label with this span, which begins at the label's minimum; they are those
    /// with its number, and may come in again. It takes no memory and cannot fail.
    pub fn drop_label(&mut self, number: u32, label: &Label, span: &Span)
        requires begins { span.now.min ≡ label.now.min }
        requires its { AreEntriesOf number label.now span.now.until self.old.entries }
        ensures entries { LosesEntries
            (IsEntryOf number label.now span.now.until) self.old.entries self.new.entries }
        ensures spare { self.new.spare ≡ self.old.spare + entry_count label.now }
    {
        drop_all(&mut self.tree, number, span.until, label);
    }

    /// Gives the entries of a label, which are those with its number, another end, each in its place. It
    /// takes no memory and cannot fail.
    pub fn move_label(&mut self, number: u32, label: &Label, from: &Ratio, to: &Ratio)
        requires its { AreEntriesOf number label.now from.now self.old.entries }
        ensures entries { Replaces (IsEntryOf number label.now from.now)
            (IsEntryOf number label.now to.now) self.old.entries self.new.entries }
        ensures spare { self.new.spare ≡ self.old.spare }
    {
        move_all(&mut self.tree, number, label, from, to);
    }

    /// Gives each entry the end that `ends` tells for its label's number, each in its place: for many labels that
    /// costs less than to move one after another. No two entries may be of one cell and one number. It takes no
    /// memory and cannot fail.
    pub fn renew_ends<F: NextEnd<End, u32>>(&mut self, ends: &F)
        requires { HaveOwnPlaces self.old.entries }
        ensures entries { self.new.entries ≡ map (renewed (F.next ends.now)) self.old.entries }
        ensures spare { self.new.spare ≡ self.old.spare }
    {
        self.tree.renew_ends(ends);
    }

    /// Appends the numbers that have an entry in the band in a cell of the label's hull there, ascending
    /// and each once. The band is at most 27. The label itself need not be in the grid.
    ///
    /// # Errors
    /// Out of memory; the first of them were appended.
    pub fn near(&self, label: &Label, band: u8, out: &mut Seq<u32>) -> Result<(), AllocError>
        requires { band ≤ 27 }
        ensures ok { OnOk result
            (AppendsNumbers (IsInHull label.now band) self.now.entries out.old out.new) }
        ensures err { OnErr result
            (AppendsFirst (IsInHull label.now band) self.now.entries out.old out.new) }
    {
        let mut found = out.emptied();
        find_cells(&self.tree, &hull(label, band), &mut found)?;
        append(&ascending(found), out)
    }

    /// Appends the numbers that have an entry in the band in a cell of the label's hull there, in whatever order
    /// and however often. The band is at most 27. The label itself need not be in the grid.
    ///
    /// # Errors
    /// Out of memory.
    pub fn in_hull(&self, label: &Label, band: u8, out: &mut Seq<u32>) -> Result<(), AllocError>
        requires { band ≤ 27 }
        ensures { OnOk result (Finds (IsInHull label.now band) self.now.entries out.old out.new) }
    {
        find_cells(&self.tree, &hull(label, band), out)
    }

    /// The numbers that have an entry in one of the cells, of which there are nine columns at most, with an
    /// end of at least the scale, in whatever order and however often.
    ///
    /// # Errors
    /// Out of memory.
    pub fn in_cells(
        &self,
        alloc: Global,
        cells: &Cells,
        scale: &Ratio,
    ) -> Result<Seq<u32>, AllocError>
        requires few { AreUpToNine cells.now.x0 cells.now.x1 }
        ensures { IfOk result (λ numbers. (n : ℕ) →
            Contains numbers n ↔ IsNumberOf (IsAmongFrom cells.now scale.now) self.now.entries n) }
    {
        let mut found = Seq::of_vec(Vec::with_capacity(alloc, ROOM)?);
        find_cells_from(&self.tree, cells, scale, &mut found)?;
        Ok(found)
    }

    /// The numbers that have an entry in one of the cells, of which there are nine columns at most, in whatever
    /// order and however often.
    ///
    /// # Errors
    /// Out of memory.
    pub fn all_in_cells(&self, alloc: Global, cells: &Cells) -> Result<Seq<u32>, AllocError>
        requires few { AreUpToNine cells.now.x0 cells.now.x1 }
        ensures { IfOk result (λ numbers.
            (n : ℕ) → Contains numbers n ↔ IsNumberOf (IsAmong cells.now) self.now.entries n) }
    {
        let mut found = Seq::of_vec(Vec::with_capacity(alloc, ROOM)?);
        find_cells(&self.tree, cells, &mut found)?;
        Ok(found)
    }

    /// Whether there is an entry in one of the cells, of which there are nine columns at most, with an end of
    /// at least the scale. It ends at the first one.
    pub fn has_in_cells(&self, cells: &Cells, scale: &Ratio) -> bool
        requires few { AreUpToNine cells.now.x0 cells.now.x1 }
        ensures { IsTrue result ↔ HasEntry (IsAmongFrom cells.now scale.now) self.now.entries }
    {
        has_in_cells(&self.tree, cells, scale)
    }

    /// Appends the numbers that have an entry in the band of the view's scale, in a cell whose square meets
    /// the window (lower sides counted in, upper sides left out), with an end of at least that scale;
    /// ascending and each once. It spends a step for each number appended.
    ///
    /// # Errors
    /// Out of memory; the first of them were appended.
    pub fn in_window<L: Ledger>(
        &self,
        view: &View,
        out: &mut Seq<u32>,
        looks: &mut Steps<L>,
    ) -> Result<(), AllocError>
        ensures ok { OnOk result
            (AppendsNumbers (IsSeen view.now) self.now.entries out.old out.new) }
        ensures err { OnErr result
            (AppendsFirst (IsSeen view.now) self.now.entries out.old out.new) }
        ensures spent { looks.new + length out.old ≡ looks.old + length out.new }
    {
        let mut found = out.emptied();
        find_cells_from(&self.tree, &window_cells(view), &view.scale, &mut found)?;
        append_counted(&ascending(found), out, looks)
    }
}
