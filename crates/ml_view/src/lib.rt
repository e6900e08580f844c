//! Plain views: the labels that a window of the world shows at a scale.
//!
//! - [`words`]: a view from five words ([`read_view`]);
//! - [`filter`]: the places of the shown labels, by a look at every label ([`shown`]);
//! - [`laws`]: that no two shown labels overlap, that a map that is moved and not zoomed changes labels at
//!   the window's edge alone, and when names stay apart where a map is drawn stretched.
#![tactic(auto)]

pub mod filter;
pub mod laws;
pub mod words;

pub use filter::shown;
pub use words::read_view;
