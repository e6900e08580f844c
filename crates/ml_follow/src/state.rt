//! A state of a map.
use ml_cone::{Label, Slot};
use ml_ratio::Seq;

/// A revision of a map: its labels in priority order, and a slot for each, in which a blocker is given
/// by its place among them, counted from 0.
#[derive(Debug, Drop)]
pub struct State {
    pub rev: u64,
    pub labels: Seq<Label>,
    pub slots: Seq<Slot>,
}
