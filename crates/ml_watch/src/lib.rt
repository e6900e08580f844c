//! Watchers, who are told what each edit of a map changes in the active ranges of its labels.
//!
//! - [`change`]: what an edit changes of one label; `sorted`: the order in which changes are told
//!   ([`by_id`]); `line`: the line that says it, and `held`:
//!   its bytes until they are given away; [`id`]: an id as it stands in a line, and read back;
//! - [`watcher`]: one who is told changes ([`Watcher`]); [`crowd`]: watchers, each in its place
//!   ([`Crowd`]);
//! - [`mem_watcher`], [`line_watcher`]: a watcher in memory, and one that writes lines into a sink;
//! - [`laws`]: to be told some changes and then others is to be told them all; a text spells one id.
#![tactic(auto)]

pub mod change;
pub mod crowd;
mod held;
pub mod id;
pub mod laws;
mod line;
pub mod line_watcher;
pub mod mem_watcher;
mod sorted;
pub mod watcher;

pub use change::Change;
pub use crowd::Crowd;
pub use id::{id_text, read_id};
pub use line_watcher::LineWatcher;
pub use mem_watcher::MemWatcher;
pub use sorted::by_id;
pub use watcher::Watcher;
