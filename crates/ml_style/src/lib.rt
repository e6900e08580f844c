//! Styles of a map: which features have a label, in which font and size and at which scales, read from
//! a TOML file.
//!
//! - [`advance`] and [`font`]: how far each character of a font moves the pen;
//! - [`class`]: a kind of feature, and how its labels look;
//! - [`style`]: classes and fonts together;
//! - [`matching`]: the class of a feature;
//! - [`reader`]: bytes to a style, or the first fault ([`fault`]);
//! - [`sample`]: a style to begin with;
//! - [`laws`]: laws over the definitions alone.
//!
//! The reader goes from the outside in: [`reader`], [`style_table`], [`font_table`], [`class_table`] with
//! `parts`, `class_part`, `class_field` and `field`, and what a TOML table holds at a key, [`table`].
#![tactic(auto)]

pub mod advance;
pub mod class;
mod class_field;
mod class_part;
mod class_table;
pub mod fault;
mod field;
pub mod font;
mod font_table;
mod fonts;
pub mod laws;
pub mod matching;
mod parts;
pub mod reader;
pub mod sample;
pub mod style;
mod style_table;
mod table;

pub use advance::Advance;
pub use class::{Class, Kind};
pub use fault::StyleFault;
pub use font::Font;
pub use fonts::NamedFont;
pub use matching::class_of;
pub use reader::read_style;
pub use sample::SAMPLE;
pub use style::Style;
