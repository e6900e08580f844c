//! The label of a feature: its class, its text, its place and its boxes, or the first reason why it
//! has none; and the labels of a map.
//!
//! - [`label`]: the label of a feature, and [`reason`]: why there is none;
//! - [`unlabelled`]: why a feature without a label has none, told without memory;
//! - [`labels`]: the labels of a map, in their [`order`];
//! - [`name`]: a feature's name and rank;
//! - [`straight`]: one box of straight text;
//! - [`placing`]: where a text is placed on a shape, and in which boxes;
//! - [`laws`]: a law over the definitions alone: a feature has one label only.
#![tactic(auto)]

pub mod label;
pub mod labels;
pub mod laws;
mod name;
pub mod order;
mod placed;
mod placing;
pub mod reason;
mod straight;
pub mod unlabelled;

pub use label::label_of;
pub use labels::labels_of;
pub use order::in_priority_order;
pub use reason::Reason;
pub use unlabelled::reason_of;
