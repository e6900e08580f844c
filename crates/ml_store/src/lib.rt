//! The live labels of a map, in a table with a grid and an index of blockers that always agree with it.
//!
//! - [`row`]: a live label with its number and its slot ([`Row`]);
//! - [`moved`]: a new slot for one ([`Moved`]); [`same`]: whether two slots are the same;
//! - [`store`]: all of them, with room for more ([`Store`]).
//!
//! Within: `table` finds the rows by place, number and id. They stand in `shelf` by number, and `rows` has their
//! order, which is one of `numbers`; `names` has the order of their ids. Both are kept in `tiers`, in which a
//! number moves through rings of cells (`ring`) without most of the others. So a row that comes or goes moves
//! few. `entries` and `pairs` are what belongs to a row in the grid and in the index of blockers; `parts` puts
//! both in and takes them out, `moving` gives rows other slots, and `searching` looks for labels in the grid.
//! `bulk` and `sorted` have the same for many rows at once.
#![tactic(auto)]

mod bulk;
mod entries;
pub mod moved;
mod moving;
mod names;
mod numbers;
mod pairs;
mod parts;
mod ring;
pub mod row;
mod rows;
pub mod same;
mod searching;
mod shelf;
mod sorted;
pub mod store;
mod table;
mod tiers;

pub use moved::Moved;
pub use row::Row;
pub use same::same_slots;
pub use store::Store;
