//! The connections of a door, served one after another over one map.
//!
//! - [`command`]: listens, serves, and says so ([`serve`]); [`hours`]: at which port, and how long
//!   ([`Hours`]); [`serve_end`]: how that ends ([`ServeEnd`]);
//! - [`links`]: connections one after another ([`serve_links`]); `line`: the last line that is printed;
//! - [`laws`]: laws over the definitions alone.
#![tactic(auto)]

pub mod command;
pub mod hours;
pub mod laws;
mod line;
pub mod links;
pub mod serve_end;

pub use command::serve;
pub use hours::Hours;
pub use links::serve_links;
pub use serve_end::ServeEnd;
