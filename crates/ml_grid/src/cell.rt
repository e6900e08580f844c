//! A cell of a band, as a key.
ghost use Rattle.std.specs.Prelude.{◌≡◌};

use ml_spans::Key;
use std::cmp::Ordering;

/// The cell `(x, y)` of a band; cells are ordered by band, then x, then y.
///
/// So the cells of one column of a band between two heights stand together.
#[derive(Clone, Copy, Debug, PartialEq, Eq)]
pub struct Cell {
    pub band: u8,
    pub x: i32,
    pub y: i32,
}

impl Key for Cell {
    ghost use Rattle.ml_grid.specs.Cell.{cell_cmp, cell_total, cell_exact};

    ghost order = { cell_cmp };

    ghost total = { cell_total };

    ghost exact = { cell_exact };

    // A search compares cells at each step down, mostly of other bands: what decides is looked at alone.
    fn compare(&self, other: &Cell) -> Ordering {
        match self.band.cmp(&other.band) {
            Ordering::Equal => match self.x.cmp(&other.x) {
                Ordering::Equal => self.y.cmp(&other.y),
                unequal => unequal,
            },
            unequal => unequal,
        }
    }
}
