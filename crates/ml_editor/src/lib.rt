//! A map that is edited.
//!
//! - [`editor`]: the map itself ([`Editor`]); [`standing`]: how a feature of it stands ([`Standing`]);
//! - [`edit`]: the edits of a map ([`Edit`]); [`asked`]: how they are asked for ([`Asked`]);
//! - [`features`]: the features of a map, found by id ([`Features`]);
//! - `prepare`: how what is asked is made ready, over `check`, what refuses it, and [`draft`], what is
//!   drawn up for it ([`Draft`]);
//! - `changes`: what a new style changes of the labels;
//! - `commit`: how it is carried out, over `carry`, its parts;
//! - [`ready`]: an edit that is ready to be carried out ([`Ready`]); [`work`]: what it makes of the labels
//!   ([`Work`]);
//! - [`fault`]: why a map is not loaded, and why an edit is refused ([`LoadRefused`], [`EditFault`]);
//! - [`laws`]: what refuses an edit, and what a body makes.
#![tactic(auto)]

pub mod asked;
mod carry;
mod changes;
mod check;
mod commit;
pub mod draft;
pub mod edit;
pub mod editor;
pub mod fault;
pub mod features;
pub mod laws;
mod prepare;
pub mod ready;
pub mod standing;
pub mod work;

pub use asked::Asked;
pub use draft::Draft;
pub use edit::Edit;
pub use editor::Editor;
pub use fault::{EditFault, LoadRefused};
pub use features::Features;
pub use ready::Ready;
pub use standing::Standing;
pub use work::Work;
