//! Conflicts between labels, and the end that a label's rivals leave it.
//!
//! - `scales`: the open interval of scales at which two boxes overlap ([`interval`]);
//! - `begin`: where labels begin to overlap; `block`: the limit that one label sets another
//!   ([`first_block`]), the same where a bound holds it ([`limit_up_to`]), and whether they are
//!   rivals ([`are_rivals`]);
//! - `far`: how far labels reach on an `axis` ([`greatest_reach`], [`Axis`]), where their anchors lie there
//!   ([`anchor_on`]), and what is too far away for a limit; `field`: labels in order from west to east
//!   ([`arrange_spots`], [`is_beyond`]), each a `spot` ([`Spot`]);
//! - [`rivals`]: the list of rivals of a label, and its slot among them ([`evaluate`]);
//! - [`laws`]: what makes a choice of active ranges the longest.
#![tactic(auto)]

mod area;
mod axis;
mod begin;
mod block;
mod corner;
mod far;
mod field;
pub mod laws;
pub mod rivals;
mod scales;
mod spot;
mod strip;

pub use area::Area;
pub use axis::Axis;
pub use block::{are_rivals, first_block, limit_up_to};
pub use far::{anchor_on, greatest_reach, is_beyond};
pub use field::{arrange_spots, spot_of};
pub use rivals::{RivalList, evaluate};
pub use scales::interval;
pub use spot::Spot;
pub use strip::{Field, Strip, south_of};
