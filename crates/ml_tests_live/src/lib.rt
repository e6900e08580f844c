//! Tests of the live engine and of what is answered, through their public calls, on values worked out by
//! hand.
//!
//! They stand in a crate of their own, so that no library is proved a second time with its tests. A
//! case is a line of a table, `input => answer`, as the formats write it.
//!
//! - `cases`: what a table is, what the parts of a case write, and answers as texts;
//! - `store`: labels that are searched for about another one;
//! - `engine`: labels that come and go, edit by edit; `editor`: the same of features, and what is asked
//!   of a map between edits; `made_map`: generated maps;
//! - `follow`: states that are offered to a follower; `tiles`: tiles that are held;
//! - `answer`, `svg`: views as JSON and as drawings; `replies`, `faults`: the other replies.
#![tactic(auto)]

#[cfg(test)]
mod answer;
#[cfg(test)]
mod cases;
#[cfg(test)]
mod editor;
#[cfg(test)]
mod engine;
#[cfg(test)]
mod faults;
#[cfg(test)]
mod follow;
#[cfg(test)]
mod made_map;
#[cfg(test)]
mod replies;
#[cfg(test)]
mod store;
#[cfg(test)]
mod svg;
#[cfg(test)]
mod tiles;
