//! Tests of the libraries through their public calls, on values worked out by hand.
//!
//! They stand in a crate of their own, so that no library is proved a second time with its tests. A
//! case is a line of a table, `input => answer`, as the formats write it: one more case proves
//! nothing anew.
//!
//! - `cases`: what a table is, and what the parts of a case write;
//! - `ratio`, `io`, `spans`, `grid`, `watch`, `cone`, `flight`, `conflict`, `gaps`, `choice`, `view`:
//!   the tests of these crates, `choice` those of the pass and the judge; `walk`: a slow program that
//!   knows the definitions alone.
#![tactic(auto)]

#[cfg(test)]
mod cases;
#[cfg(test)]
mod choice;
#[cfg(test)]
mod cone;
#[cfg(test)]
mod conflict;
#[cfg(test)]
mod flight;
#[cfg(test)]
mod gaps;
#[cfg(test)]
mod grid;
#[cfg(test)]
mod io;
#[cfg(test)]
mod ratio;
#[cfg(test)]
mod spans;
#[cfg(test)]
mod view;
#[cfg(test)]
mod walk;
#[cfg(test)]
mod watch;
