//! The choice of a whole list of labels in one pass, and the text files of labels and slots.
//!
//! - `pass`: the longest choice with its blockers ([`assign`]), over `search`: the labels before one that may
//!   bound it, and `found`: these as rivals;
//! - `table`: label tables ([`read_table`]), over `row`: one line of a table
//!   ([`read_boxes`], [`pieces_of`]), and `fault`: why one is refused ([`TableFault`]);
//! - [`laws`]: that a table has one reading or one fault, and texts write one list of boxes at most;
//! - `slots_text`: the text of a choice ([`write_slots`]).
#![tactic(auto)]

mod fault;
mod found;
pub mod laws;
mod pass;
mod row;
mod search;
mod slots_text;
mod table;

pub use fault::TableFault;
pub use pass::assign;
pub use row::{pieces_of, read_boxes};
pub use slots_text::write_slots;
pub use table::read_table;
