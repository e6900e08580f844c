//! A follower of a map's states, which checks each before it adopts it.
//!
//! - `state`: a revision's labels with their slots ([`State`]);
//! - `states`: files of states ([`read_states`]), over `opened`: the state that is being read, `head`
//!   and `row`: the lines of a state, and `fault`: what refuses a file ([`StateFault`]) or a state
//!   ([`OfferFault`]);
//! - `state_text`: the text of a state ([`StateText`]), over `line`: its lines;
//! - `follower`: who holds a state ([`Follower`]), over `changes`: what changes from one state to the
//!   next, and `compare`: whether labels are alike;
//! - [`laws`]: what is written reads back, and is adopted; a file has one reading or one fault, and a state
//!   that is refused is so for one reason.
#![tactic(auto)]

mod changes;
mod compare;
mod fault;
mod follower;
mod head;
pub mod laws;
mod line;
mod opened;
mod row;
mod state;
mod state_text;
mod states;

pub use fault::{OfferFault, StateFault};
pub use follower::Follower;
pub use state::State;
pub use state_text::StateText;
pub use states::read_states;
