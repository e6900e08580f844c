//! Connections: the replies to the requests that a stream of bytes holds (a part of HTTP/1.1, RFC 9112).
//! Which requests these are is told by `ml_request`.
//!
//! - [`serve`]: one connection is served ([`serve_link`]); [`connection_end`]: how it ends;
//! - [`route`]: what a request may ask for; `target`: which path and method ask for it; `query`: the
//!   names and values of a query;
//! - [`context`]: what answering works on ([`Context`]); `answer`: what an event is answered; `read` with
//!   `view`, `why` and `state`: requests that change nothing; `tile`: tiles, whose bodies may be held;
//!   `edit`: requests that edit; `forget`: which tiles an edit drops;
//! - [`reply`]: the bytes of a reply, with [`kind`]; `replies`: those of refusals;
//! - [`laws`]: what follows of the definitions alone.
#![tactic(auto)]

mod answer;
pub mod connection_end;
pub mod context;
mod edit;
mod forget;
pub mod kind;
pub mod laws;
mod query;
mod read;
mod replies;
pub mod reply;
pub mod route;
pub mod serve;
mod state;
mod target;
mod tile;
mod view;
mod why;

pub use connection_end::ConnEnd;
pub use context::Context;
pub use ml_request::{Event, Refusal, Request};
pub use serve::{MEMORY_REPLY, serve_link};
