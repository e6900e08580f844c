//! The numbers that are found in cells.
ghost use Rattle.std.specs.Prelude.{ℕ, ◌≡◌, ◌+◌, ◌<◌, ◌++◌, ◌≤ℤ◌, ◌↔◌, IsTrue, OnOk, OnErr, Contains, take, length};
ghost use Rattle.ml_ratio.specs.Fraction.{value_of, IsAtMost};
ghost use Rattle.ml_grid.specs.Cell.{cell_of};
ghost use Rattle.ml_grid.specs.Count.{AreUpToNine};
ghost use Rattle.ml_grid.specs.Found.{Finds, HasEntry, IsAmong};
ghost use Rattle.ml_grid.specs.Column.{IsInColumn, IsInColumnFrom, IsAmongFrom};

use crate::bands::span_len;
use crate::cell::Cell;
use crate::end::End;
use crate::keep::Tree;
use ml_cone::Cells;
use ml_ratio::{Ratio, Seq, Steps};
use std::alloc::AllocError;
use std::sync::ledger::Ledger;

// The first and the last cell of the column.
fn column_ends(x: i32, cells: &Cells) -> (Cell, Cell)
    ensures first { result.0 ≡ cell_of cells.now.band x cells.now.y0 }
    ensures last { result.1 ≡ cell_of cells.now.band x cells.now.y1 }
{
    let from = Cell {
        band: cells.band,
        x,
        y: cells.y0,
    };
    let to = Cell {
        band: cells.band,
        x,
        y: cells.y1,
    };
    (from, to)
}

// Finds the numbers in the cells of the column.
fn find_column(tree: &Tree, x: i32, cells: &Cells, found: &mut Seq<u32>) -> Result<(), AllocError>
    ensures ok { OnOk result (Finds (IsInColumn cells.now x) tree.now.entries found.old found.new) }
{
    let (from, to) = column_ends(x, cells);
    tree.range(&from, &to, found)
}

// Finds the numbers of the entries in the cells of the column that end at the scale at the earliest.
fn find_column_from(
    tree: &Tree,
    x: i32,
    cells: &Cells,
    scale: &Ratio,
    found: &mut Seq<u32>,
) -> Result<(), AllocError>
    ensures ok { OnOk result
        (Finds (IsInColumnFrom cells.now x scale.now) tree.now.entries found.old found.new) }
{
    let (from, to) = column_ends(x, cells);
    tree.stab(&from, &to, &End::of(scale), found)
}

// Whether an entry in the cells of the column ends at the scale at the earliest.
fn has_in_column(tree: &Tree, x: i32, cells: &Cells, scale: &Ratio) -> bool
    ensures { IsTrue result ↔ HasEntry (IsInColumnFrom cells.now x scale.now) tree.now.entries }
{
    let (from, to) = column_ends(x, cells);
    tree.is_stabbed(&from, &to, &End::of(scale))
}

/// Finds the numbers in the cells.
pub fn find_cells(tree: &Tree, cells: &Cells, found: &mut Seq<u32>) -> Result<(), AllocError>
    requires few { AreUpToNine cells.now.x0 cells.now.x1 }
    ensures ok { OnOk result (Finds (IsAmong cells.now) tree.now.entries found.old found.new) }
{
    for i in 0..span_len(cells.x0, cells.x1) {
        find_column(tree, cells.x0 + i as i32, cells, found)?;
    }
    Ok(())
}

/// Finds the numbers of the entries in the cells that end at the scale at the earliest.
pub fn find_cells_from(
    tree: &Tree,
    cells: &Cells,
    scale: &Ratio,
    found: &mut Seq<u32>,
) -> Result<(), AllocError>
    requires few { AreUpToNine cells.now.x0 cells.now.x1 }
    ensures ok { OnOk result
        (Finds (IsAmongFrom cells.now scale.now) tree.now.entries found.old found.new) }
{
    for i in 0..span_len(cells.x0, cells.x1) {
        find_column_from(tree, cells.x0 + i as i32, cells, scale, found)?;
    }
    Ok(())
}

/// Whether an entry in the cells ends at the scale at the earliest.
pub fn has_in_cells(tree: &Tree, cells: &Cells, scale: &Ratio) -> bool
    requires few { AreUpToNine cells.now.x0 cells.now.x1 }
    ensures { IsTrue result ↔ HasEntry (IsAmongFrom cells.now scale.now) tree.now.entries }
{
    for i in 0..span_len(cells.x0, cells.x1) {
        if has_in_column(tree, cells.x0 + i as i32, cells, scale) {
            return true;
        }
    }
    false
}

/// Appends the numbers.
///
/// # Errors
/// Out of memory; a prefix of them was appended.
pub fn append(numbers: &[u32], out: &mut Seq<u32>) -> Result<(), AllocError>
    ensures ok { OnOk result (out.new ≡ out.old ++ numbers.now) }
    ensures err { OnErr result ((k : ℕ) × (out.new ≡ out.old ++ take k numbers.now)) }
{
    for n in numbers {
        match out.push(*n) {
            Ok(()) => {}
            Err(_) => {
                return Err(AllocError);
            }
        }
    }
    Ok(())
}

/// Appends the numbers, a step for each.
///
/// # Errors
/// Out of memory; a prefix of them was appended.
pub fn append_counted<L: Ledger>(
    numbers: &[u32],
    out: &mut Seq<u32>,
    steps: &mut Steps<L>,
) -> Result<(), AllocError>
    ensures ok { OnOk result (out.new ≡ out.old ++ numbers.now) }
    ensures err { OnErr result ((k : ℕ) × (out.new ≡ out.old ++ take k numbers.now)) }
    ensures spent { steps.new + length out.old ≡ steps.old + length out.new }
{
    for n in numbers {
        match out.push(*n) {
            Ok(()) => steps.tick(),
            Err(_) => {
                return Err(AllocError);
            }
        }
    }
    Ok(())
}
