//! Requests: which ones a stream of bytes holds (a part of HTTP/1.1, RFC 9112).
//!
//! - [`request`]: what the bytes of a connection ask for ([`Event`]);
//! - [`reader`]: reads it in whatever pieces the source gives ([`read_event`]), over [`held`], the bytes held
//!   ([`Held`]), and `mark`, where a head ends;
//! - `head` and `fields`: how a head is judged.
#![tactic(auto)]

mod fields;
mod head;
pub mod held;
mod mark;
pub mod reader;
pub mod request;

pub use held::Held;
pub use reader::read_event;
pub use request::{Event, ReadFault, Refusal, Request};
