//! Map files in GeoJSON (RFC 7946): features read from JSON text and written as canonical text.
//!
//! - [`reader`]: a map file or one feature to features, with [`positions`], [`shapes`],
//!   [`properties`] and [`parts`] of a feature, [`members`] of JSON maps, the types of geometry
//!   (`kind`), and the [`ids`] that features get, which they lack as a `draft`;
//! - [`writer`]: features to [`text`];
//! - [`fault`]: why bytes are refused;
//! - [`laws`]: laws over the definitions alone.
#![tactic(auto)]

mod draft;
pub mod fault;
mod features;
mod ids;
mod kind;
pub mod laws;
mod members;
mod parts;
mod positions;
mod properties;
pub mod reader;
mod shapes;
mod text;
pub mod writer;

pub use fault::GeoFault;
pub use reader::{read_collection, read_feature};
pub use writer::{write_collection, write_feature};
