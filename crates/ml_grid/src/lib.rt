//! The banded grid: which labels have a place near a label, or in a window.
//!
//! A label is kept in each band of scales that its selectable range meets, and there in each cell of its
//! hull. So two labels that overlap at a scale share a cell in that scale's band, and a window meets a
//! cell of each label that it shows.
//!
//! - [`grid`]: the grid itself ([`Grid`]); [`cell`]: a cell as a key of the index below it, and [`end`]: an end in
//!   it ([`End`]);
//! - [`laws`]: that no rival and no shown label is missed.
//!
//! Within: [`bands`] has the bands in which a label is kept, and in how many cells; [`keep`] puts a
//! label's entries in and takes them out, and [`marks`] has numbers for them, of which a grid is made at
//! once; [`radix`] puts these in order; [`find`] finds the numbers in cells; [`window`] has the cells that
//! meet a window.
#![tactic(auto)]

mod bands;
pub mod cell;
pub mod end;
mod find;
pub mod grid;
mod keep;
pub mod laws;
mod marks;
mod radix;
mod window;

pub use cell::Cell;
pub use end::End;
pub use grid::Grid;
pub use marks::{Ends, Marks};
