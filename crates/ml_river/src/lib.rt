//! Anchors of rivers, and the chains of boxes that follow them.
//!
//! A river's text is fitted at one reference scale: along the widest stretch on which the river
//! runs in one direction, a box for each cluster of the text, raised to the river's height there.
//!
//! - [`class`]: how a text is set;
//! - [`runs`]: the widest run of a river;
//! - [`height`]: heights along a run;
//! - [`chain`]: the boxes of the clusters;
//! - [`laws`]: laws over the definitions alone, among them that a text has one place only;
//! - [`river`]: where a text is placed ([`chain_of`]).
#![tactic(auto)]

mod chain;
mod class;
mod height;
pub mod laws;
mod river;
mod runs;

pub use class::RiverClass;
pub use river::{Placed, Shape, chain_of};
