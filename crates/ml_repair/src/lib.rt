//! The labels of a map with their active ranges, kept the longest choice edit by edit.
//!
//! - [`engine`]: the live labels ([`Engine`]);
//! - [`plan`]: what an edit will make of them ([`Plan`]); [`edit`]: the edit that a plan is for
//!   ([`LabelEdit`]);
//! - [`room`]: how much may come in without memory ([`Room`]);
//! - [`laws`]: what the changes of an edit tell of its labels.
//!
//! Within: `gather`, `sought`, `chosen` and `settle` find the rivals of one label and evaluate it, `kept`
//! where its blocker stays; `wake`, `waiting`, `repair` and `pass` go through the labels that an edit touches;
//! `roster`, `rows`, `moves`, `lasting`, `place` and `planning` are what a plan is made of; `carry`, `build`,
//! `shown` and `read` carry it out, build an engine and tell of its labels.
#![tactic(auto)]

mod build;
mod carry;
mod changes;
mod chosen;
pub mod edit;
pub mod engine;
mod gather;
mod kept;
mod lasting;
pub mod laws;
mod moves;
mod pass;
mod place;
pub mod plan;
mod planning;
mod read;
mod repair;
pub mod room;
mod roster;
mod rows;
mod settle;
mod shown;
mod sought;
mod waiting;
mod wake;

pub use edit::LabelEdit;
pub use engine::Engine;
pub use ml_store::Moved;
pub use plan::Plan;
pub use room::Room;
