//! JSON (RFC 8259) as exact texts: a reader that says where a text stops being one, a writer of the
//! canonical text, and numbers of any size in fixed decimals.
//!
//! - [`value`]: a JSON value, and why bytes are refused;
//! - [`lent`]: a JSON value that borrows its texts;
//! - [`reader`]: bytes to a value of either kind, the first by [`copies`] of the second;
//! - [`writer`]: a value to its canonical text;
//! - [`decimal`]: what a number's text is worth, as a coordinate and as a whole part;
//! - [`fixed`]: coordinates as numbers' texts;
//! - [`laws`]: laws over the definitions alone.
//!
//! The reader takes one byte at a time: its [`state`], one [`machine`] step, [`brackets`] of lists and
//! maps, [`members`] of maps, which are kept [`sorted`], [`tokens`], [`strings`] with their 16-bit
//! [`units`] and [`utf8`] characters, of which a [`tail`] may still be to come. Where a whole token of
//! [`plain`] bytes lies ahead, [`leaps`] takes it at once.
#![tactic(auto)]

mod brackets;
mod copies;
pub mod decimal;
pub mod fixed;
pub mod laws;
mod leaps;
pub mod lent;
mod machine;
mod members;
mod plain;
pub mod reader;
mod sorted;
mod state;
mod strings;
mod tail;
mod tokens;
mod units;
mod utf8;
pub mod value;
pub mod writer;

pub use decimal::{coordinate, e7, whole_part};
pub use fixed::{put_e7, write_e7};
pub use lent::{Lent, LentPair, LentText};
pub use reader::{lend, read};
pub use value::{Json, JsonFault, Pair};
pub use writer::{put_string, write};
