//! Labels of a zoomable map, and the definitions that the whole engine is about.
//!
//! A label is an anchor in the world with boxes of whole pixels, so the further a map is zoomed out,
//! the more of the world it covers. `specs/` says when labels overlap, what a choice of active ranges
//! is, which choice is the longest, what blocks a label, and which labels a view shows.
//!
//! - [`label`]: boxes and labels; [`order`]: the priority order; [`same`]: whether labels are the same;
//! - [`slot`]: active ranges and what ends them; [`view`]: a window of the world at a scale;
//! - [`site`]: which labels lie too far apart to overlap;
//! - [`overlap`], [`window`]: the tests of single labels at a scale, over `edge` and `margin`: where
//!   edges lie, and boxes widened by a margin ([`widened`]);
//! - [`cells`], [`reach`]: squares of the world in bands of scales, and those that a label covers
//!   ([`hull`]); [`outline`]: which cells are enough to find all labels that a label may overlap
//!   ([`Outline`]);
//! - [`laws`]: laws over the definitions alone.
#![tactic(auto)]

pub mod cells;
mod edge;
pub mod label;
pub mod laws;
mod margin;
pub mod order;
pub mod outline;
pub mod overlap;
pub mod reach;
pub mod same;
pub mod site;
pub mod slot;
pub mod view;
pub mod window;

pub use cells::Cells;
pub use label::{BoxPx, Label};
pub use margin::widened;
pub use order::Order;
pub use outline::{Outline, last_band};
pub use overlap::overlaps;
pub use reach::{extent, hull, hull_within};
pub use same::{are_alike, same_labels, same_spans};
pub use site::{Site, are_apart};
pub use slot::{Slot, Span, active};
pub use view::View;
pub use window::meets;
