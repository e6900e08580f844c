//! What belongs to many rows in the grid and in the index of blockers, for a store that is made at once.
ghost use Rattle.std.specs.Prelude.{◌≡◌, ◌≢◌, ◌≤◌, ◌⊎◌, ◌↔◌, AllPairs, Contains, IfOk, OnOk, length};
ghost use Rattle.ml_ratio.specs.Limits.{most_labels};
ghost use Rattle.ml_grid.specs.Entry.{AreApart};
ghost use Rattle.ml_grid.specs.Marks.{marked};
ghost use Rattle.ml_store.specs.Boxes.{unboxed};
ghost use Rattle.ml_store.specs.Rows.{AreInTurn, HaveOwnNumbers, untils_in};
ghost use Rattle.ml_store.specs.Store.{AreWithin, IsEntryIn, IsIndex, IsPairBy, IsPairIn, Pair};

use crate::pairs::Pairs;
use crate::row::Row;
use ml_cone::Outline;
use ml_grid::{Ends, Grid, Marks};
use ml_ratio::Ratio;
use ml_spans::sorting::in_order;
use ml_spans::{Entry, SpanTree};
use std::alloc::{AllocError, Global};

// The ends of all rows, by number. No row has the other one's.
fn ends_of(alloc: Global, rows: &[Box<Row>], other: Ratio) -> Result<Ends, AllocError>
    ensures { IfOk result (λ ends. ends.by_number.items ≡ untils_in (unboxed rows.now)) }
{
    let mut by_number = Vec::new(alloc);
    for row in rows {
        by_number.push(row.slot.until)?;
    }
    Ok(Ends { by_number, other })
}

// The marks of all rows' entries in the grid.
fn marks_of(alloc: Global, rows: &[Box<Row>], ends: &Ends) -> Result<Marks, AllocError>
    requires few { length rows.now ≤ most_labels }
    requires in_turn { AreInTurn (unboxed rows.now) }
    requires ends { ends.now.by_number.items ≡ untils_in (unboxed rows.now) }
    ensures apart { IfOk result (λ marks. AreApart (marked ends.now marks.items)) }
    ensures kept { IfOk result
        (λ marks. IsIndex IsEntryIn (unboxed rows.now) (marked ends.now marks.items)) }
{
    let mut marks = Vec::new(alloc);
    for row in rows {
        Grid::mark(&mut marks, row.number, &row.label, ends)?;
    }
    Ok(marks)
}

// Appends the pair of a label and its blocker, if it has one.
fn list_pair(
    pairs: &mut Vec<Entry<u32, u32, u32>>,
    number: u32,
    blocker: Option<u32>,
) -> Result<(), AllocError>
    requires apart { AllPairs (λ one other. one ≢ other) pairs.old.items }
    requires new { (p : Pair) → IsPairBy number blocker p → ¬ (Contains pairs.old.items p) }
    ensures apart { OnOk result (AllPairs (λ one other. one ≢ other) pairs.new.items) }
    ensures pairs { OnOk result ((p : Pair) →
        Contains pairs.new.items p ↔ (Contains pairs.old.items p ⊎ IsPairBy number blocker p)) }
{
    match blocker {
        Some(b) => {
            pairs.push(Entry {
                key: b,
                value: number,
                end: 0,
            })?;
            Ok(())
        }
        None => Ok(()),
    }
}

// The pairs of all rows that have a blocker.
fn list_pairs(alloc: Global, rows: &[Box<Row>]) -> Result<Vec<Entry<u32, u32, u32>>, AllocError>
    requires { HaveOwnNumbers (unboxed rows.now) }
    ensures apart { IfOk result (λ pairs. AllPairs (λ one other. one ≢ other) pairs.items) }
    ensures paired { IfOk result (λ pairs. IsIndex IsPairIn (unboxed rows.now) pairs.items) }
{
    let mut pairs = Vec::new(alloc);
    for row in rows {
        list_pair(&mut pairs, row.number, row.slot.blocker)?;
    }
    Ok(pairs)
}

/// The index of blockers of all rows, with no room.
///
/// # Errors
/// Out of memory.
pub fn blocker_index_of(alloc: Global, rows: &[Box<Row>]) -> Result<Pairs, AllocError>
    requires { HaveOwnNumbers (unboxed rows.now) }
    ensures paired { IfOk result (λ pairs. IsIndex IsPairIn (unboxed rows.now) pairs.entries) }
    ensures spare { IfOk result (λ pairs. pairs.spare ≡ 0) }
{
    let sorted = in_order(list_pairs(alloc, rows)?);
    SpanTree::of_sorted(alloc, sorted.as_slice())
}

/// The grid of all rows, whose numbers are their places, with no room.
///
/// # Errors
/// Out of memory.
pub fn grid_of(alloc: Global, rows: &[Box<Row>]) -> Result<Grid, AllocError>
    requires few { length rows.now ≤ most_labels }
    requires in_turn { AreInTurn (unboxed rows.now) }
    ensures kept { IfOk result (λ grid. IsIndex IsEntryIn (unboxed rows.now) grid.entries) }
    ensures spare { IfOk result (λ grid. grid.spare ≡ 0) }
{
    let Some(first) = rows.first() else {
        return Ok(Grid::new(alloc));
    };
    let ends = ends_of(alloc, rows, first.slot.until)?;
    let marks = marks_of(alloc, rows, &ends)?;
    Grid::of_marks(alloc, marks, &ends)
}

/// The outline of all rows.
pub fn outline_of(rows: &[Box<Row>]) -> Outline
    ensures { AreWithin result (unboxed rows.now) }
{
    let mut outline = Outline::none();
    for row in rows {
        outline = outline.with(&row.label);
    }
    outline
}
