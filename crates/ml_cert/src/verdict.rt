//! What is found wrong with slots.
use ml_ratio::Ratio;

/// What the first label with a wrong slot has wrong, if any has. Labels are given by their places.
#[derive(Clone, Copy, Debug, PartialEq, Eq)]
pub enum Verdict {
    /// Nothing: the slots are the longest choice with its blockers.
    Best,
    /// The label's end lies outside its selectable range.
    BadEnd(usize),
    /// The label's end is above the limit that the second label, before it, sets; the limit.
    Clash(usize, usize, Ratio),
    /// The label ends below its maximum, and no label before it blocks it there.
    Uncovered(usize),
    /// The blocker given for the label is not the one that is due.
    BadBlocker(usize),
}
