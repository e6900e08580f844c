//! Longest gaps: active ranges that need not begin at a label's minimum.
//!
//! - [`piece`]: intervals of scales; [`block`]: those at which one label blocks another ([`blocked`]);
//! - [`gap`]: ranges and how long they are; `sweep`: the longest that pieces leave;
//! - [`choice`]: the longest free gap of each label ([`gaps`]), over `near` and `strip`: which labels lie too far
//!   apart for one to block another; `bundle` and `index`: many strips passed over at once;
//! - [`filter`]: the labels that a view shows under their gaps ([`shown_gaps`]);
//! - [`laws`]: laws over the definitions alone.
#![tactic(auto)]

pub mod block;
mod bundle;
pub mod choice;
pub mod filter;
pub mod gap;
mod index;
pub mod laws;
mod near;
pub mod piece;
mod strip;
mod sweep;

pub use block::blocked;
pub use choice::gaps;
pub use filter::shown_gaps;
pub use gap::Gap;
pub use piece::Piece;
