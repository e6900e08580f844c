//! The program's commands: what the words ask for, the files that it needs, and its answer.
//!
//! - [`command`]: what the words ask for ([`read_command`]); `words`: words that write a view, a
//!   window or a number;
//! - [`table`], [`map`], [`checking`]: what is asked of a table and of a map, and the verdict on slots;
//! - [`loading`]: the map that connections are served over;
//! - [`laws`]: that each command has one answer;
//! - [`following`]: states of a map that are followed; `follow_lines`: the lines that say what became
//!   of them;
//! - `choice`: the longest choice of any labels; `gap_lines`: their longest free gaps; `zoom`: their
//!   zoom timeline; `map_line`: the view of a map;
//! - [`inputs`], [`map_inputs`]: the files that a command needs; [`stop`]: what ends a command early;
//! - `view_line`: the line of a view; `verdict_text`: the line of a verdict; `zoom_text`: the lines of
//!   a zoom timeline.
#![tactic(auto)]

pub mod checking;
mod choice;
pub mod command;
mod follow_lines;
pub mod following;
mod gap_lines;
pub mod inputs;
pub mod laws;
pub mod loading;
pub mod map;
pub mod map_inputs;
mod map_line;
pub mod stop;
pub mod table;
mod verdict_text;
mod view_line;
mod words;
mod zoom;
mod zoom_text;

pub use checking::check;
pub use command::{Command, LiveTask, MapTask, TableTask, read_command};
pub use following::{FollowEnd, follow, load_states};
pub use loading::{Site, load_editor};
pub use map::on_map;
pub use stop::Stop;
pub use table::on_table;
