//! A generated map, read, edited and counted.
ghost use Rattle.std.specs.Prelude.{◌≡◌, ◌<◌, ◌≤◌, IfOk};
ghost use Rattle.ml_gen.specs.Totals.{AreTotals};

use crate::group::{MOST_GROUPS, groups_of, order_of};
use crate::loading::load_generated;
use crate::totals::{Totals, totals_of};
use crate::turns::edit_all;
use ml_ratio::Steps;
use ml_style::Style;
use std::alloc::{AllocError, Global};
use std::marker::Brand;
use std::mem::forget;
use std::sync::ledger::{Blank, Ledger};

/// Makes a map of so many groups, 1 to 6,000, reads it from its own text, loads it under a style, takes
/// the first town of each group out, adds each again, and asks a view behind each edit. What the map
/// has in the end, and what its edits came to.
///
/// # Errors
/// Out of memory.
pub fn make_totals(
    alloc: Global,
    style: Style,
    groups: u32,
    seed: u32,
) -> Result<Totals, AllocError>
    requires some { 0 < groups }
    requires few { groups ≤ MOST_GROUPS }
    ensures { IfOk result (AreTotals groups seed style) }
{
    make_counted::<Brand>(alloc, style, groups, seed, Blank::new(1))
}

// The same, with a counter of its own.
fn make_counted<L: Ledger>(
    alloc: Global,
    style: Style,
    groups: u32,
    seed: u32,
    blank: Blank,
) -> Result<Totals, AllocError>
    requires name { blank.name ≡ L.name }
    requires parts { blank.parts ≡ L.parts }
    requires one { 0 < blank.parts }
    requires some { 0 < groups }
    requires few { groups ≤ MOST_GROUPS }
    ensures { IfOk result (AreTotals groups seed style) }
{
    let mut steps: Steps<L> = Steps::new(blank);
    let all = groups_of(alloc, groups, seed)?;
    let mut editor = load_generated(alloc, style, &all)?;
    let order = order_of(alloc, &all, seed)?;
    let each = edit_all(alloc, &mut editor, &order, &mut steps)?;
    let totals = totals_of(&editor, groups, &each);
    // The run ends here, and the system takes back all memory at once.
    forget(editor);
    Ok(totals)
}
