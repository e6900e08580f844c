//! The outside of the engine: where bytes come from and go, where files come from, and where
//! connections come in.
//!
//! Each trait has a count of faults, which contracts see and which never falls. An answer that
//! blames the outside raises that count, and any other leaves it. Each trait has optional
//! meanings besides, as the bytes that were written: an object that knows them tells them, and one
//! over a real device tells nothing.
//!
//! - [`failed`]: the answers that blame the outside;
//! - [`source`]: the trait [`Source`];
//! - [`sink`]: the trait [`Sink`], and [`put_all`] over it; [`number`]: numbers in digits;
//! - [`files`]: the trait [`Files`];
//! - [`link`]: one connection ([`Link`]); [`door`]: the trait [`Door`], which gives them;
//! - [`mem_source`], [`mem_sink`], [`mem_files`], [`mem_door`]: objects in memory that tell all, and
//!   fail at listed calls, over [`failing`]; `link_list` and `named` are their connections and files;
//! - [`calm_source`], [`calm_sink`], [`calm_files`], [`calm_door`]: objects that never fail;
//! - [`real`], [`real_input`], [`tcp_door`]: adapters over the system, which are trusted; `accepting` and
//!   `lingering` are how a connection over TCP begins and ends;
//! - [`laws`]: what is taken, or put, piece by piece.
#![tactic(auto)]

mod accepting;
pub mod calm_door;
pub mod calm_files;
pub mod calm_sink;
pub mod calm_source;
pub mod door;
pub mod failed;
pub mod failing;
pub mod files;
pub mod laws;
mod lingering;
pub mod link;
mod link_list;
pub mod mem_door;
pub mod mem_files;
pub mod mem_sink;
pub mod mem_source;
mod named;
pub mod number;
pub mod real;
pub mod real_input;
pub mod sink;
pub mod source;
pub mod tcp_door;

pub use accepting::TcpLink;
pub use calm_door::{CalmDoor, CalmLink};
pub use calm_files::CalmFiles;
pub use calm_sink::CalmSink;
pub use calm_source::CalmSource;
pub use door::Door;
pub use failed::{Failed, FileFault};
pub use failing::FailingCalls;
pub use files::Files;
pub use link::Link;
pub use mem_door::{MemDoor, MemLink};
pub use mem_files::MemFiles;
pub use mem_sink::MemSink;
pub use mem_source::MemSource;
pub use number::put_number;
pub use real::{RealErrors, RealFiles, RealOutput};
pub use real_input::RealInput;
pub use sink::{Sink, put_all};
pub use source::Source;
pub use tcp_door::TcpDoor;
