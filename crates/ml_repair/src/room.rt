//! How much may come in without memory.

/// A number of labels, of entries of the grid, and of pairs of a blocker and a label that it blocks.
#[derive(Clone, Copy, Debug, PartialEq, Eq)]
pub struct Room {
    pub labels: usize,
    pub cells: usize,
    pub blocks: usize,
}
