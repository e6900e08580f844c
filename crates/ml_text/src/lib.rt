//! Names of features as text on a map.
//!
//! - [`label`]: the text of a label, without control characters;
//! - [`measure`]: how wide a text is, in whole pixels;
//! - [`cluster`]: the pieces that a reader sees as one character each (Unicode Standard Annex 29);
//! - [`laws`]: laws over the definitions alone.
#![tactic(auto)]

mod cluster;
mod label;
pub mod laws;
mod measure;

pub use cluster::{Cluster, clusters};
pub use label::label_text;
pub use measure::width;
