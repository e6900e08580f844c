//! A judge of slots: whether given ends and blockers are the longest choice with its blockers.
//!
//! - `verdict`: what the judge answers ([`Verdict`]); `judge`: the judge itself ([`check`]), over `due`: which
//!   blocker is due to a label, and `near`: the same, sought among the labels near it by each one's `stance`, and `known`: the laws of limits that both stand on;
//! - [`laws`]: that only the longest choice with its blockers is found best, that slots have one verdict,
//!   and a text of slots one reading or one fault;
//! - `slots_text`: the text of slots ([`read_slots`]) and what refuses it ([`SlotsFault`]), over
//!   `slot_line`: one line of it, and [`places`]: where each id stands.
#![tactic(auto)]

mod arrange;
mod due;
mod fault;
mod judge;
mod known;
pub mod laws;
mod near;
pub mod places;
mod slot_line;
mod slots_text;
mod stance;
mod strip;
mod verdict;

pub use fault::SlotsFault;
pub use judge::check;
pub use slots_text::read_slots;
pub use verdict::Verdict;
