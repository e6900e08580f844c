//! Generated maps, edited, and what that comes to.
//!
//! - [`generate`]: a generated map of so many groups, read, edited and counted ([`make_totals`]);
//! - [`group`]: the groups of a map, where they lie, and their order ([`Group`]); [`things`]: their
//!   features;
//! - `loading`: the map of groups, by way of its own text;
//! - `turn`: one edit of it with the view that is asked behind it; [`counts`]: what comes of one
//!   ([`Counts`]); `turns`: all edits, one after another;
//! - [`totals`]: what a map has and its edits came to, and the line that tells it ([`Totals`]).
#![tactic(auto)]

pub mod counts;
pub mod generate;
pub mod group;
mod loading;
pub mod things;
pub mod totals;
mod turn;
mod turns;

pub use counts::Counts;
pub use generate::make_totals;
pub use group::Group;
pub use totals::{Totals, totals_line};
