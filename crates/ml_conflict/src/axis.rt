//! The two axes of the world.

/// An axis of the world.
#[derive(Clone, Copy)]
pub enum Axis {
    /// From west to east.
    Across,
    /// From south to north.
    Along,
}
