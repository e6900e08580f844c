//! Tests of what comes in from outside and goes out, and of connections, through the public calls, on
//! values worked out by hand.
//!
//! They stand in a crate of their own, so that no library is proved a second time with its tests. A case
//! is a line of a text, `input => answer`, as the formats write it.
//!
//! - `cases`: tables of cases;
//! - `io`: sources and doors; `request`: requests, read from a stream; `http`: connections, request by
//!   request.
#![tactic(auto)]

#[cfg(test)]
mod cases;
#[cfg(test)]
mod http;
#[cfg(test)]
mod io;
#[cfg(test)]
mod request;
