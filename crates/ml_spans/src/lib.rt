//! An ordered index of spans: entries with a key, an end and a value, found by a range of keys and a
//! least end.
//!
//! - [`key`]: values that can be keys, ends and values of an index;
//! - [`entry`]: one entry, and the order of entries;
//! - [`reading`]: entries read from shorter items that stand for them;
//! - [`span_tree`]: the index itself ([`SpanTree`]).
//!
//! Within: [`shape`] has the nodes of the tree, [`ends`] their greatest ends, [`node`] one node over
//! two sides, [`balance`] the turns that keep sides almost as high as one another; [`bulk`] makes a
//! tree of many entries, which [`sorting`] puts in order; [`insertion`] and [`removal`] change it by
//! one entry, [`moving`] gives an entry another end, and [`renewal`] all of them, [`query`] and [`search`] look through it.
#![tactic(auto)]

mod balance;
mod bulk;
mod change;
mod ends;
pub mod entry;
mod insertion;
pub mod key;
mod moving;
mod node;
mod query;
pub mod reading;
mod removal;
pub mod renewal;
mod search;
mod shape;
pub mod sorting;
pub mod span_tree;

pub use entry::Entry;
pub use key::Key;
pub use reading::Reads;
pub use renewal::NextEnd;
pub use span_tree::SpanTree;
