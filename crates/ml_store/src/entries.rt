//! A label's entries of the grid.
ghost use Rattle.std.specs.Prelude.{◌≡◌, ◌⊎◌, ◌↔◌, Contains};
ghost use Rattle.ml_grid.specs.Entry.{Entry, IsEntryOf, AreEntriesOf};

use crate::same::same_ends;
use ml_cone::Label;
use ml_grid::Grid;
use ml_ratio::Ratio;

/// The label's entries get another end, each in its place. It takes no memory and no room.
pub fn move_entries(grid: &mut Grid, number: u32, label: &Label, from: Ratio, to: Ratio)
    requires its { AreEntriesOf number label.now from grid.old.entries }
    ensures entries { (e : Entry) → Contains grid.new.entries e ↔ ((Contains grid.old.entries e
        × (¬ (e.value ≡ number))) ⊎ IsEntryOf number label.now to e) }
    ensures spare { grid.new.spare ≡ grid.old.spare }
{
    if !same_ends(&from, &to) {
        grid.move_label(number, label, &from, &to);
    }
}
