//! Fixed anchors for points and areas.
//!
//! - [`bounds`]: the bounding box of a ring;
//! - [`scan`]: where the rings of a polygon cross a level line;
//! - [`pairs`]: the widest stretch between crossings;
//! - [`anchor`]: the anchors ([`point_anchor`], [`area_anchor`]);
//! - [`laws`]: laws over the definitions alone.
#![tactic(auto)]

mod anchor;
mod bounds;
pub mod laws;
mod pairs;
mod scan;

pub use anchor::{area_anchor, point_anchor};
