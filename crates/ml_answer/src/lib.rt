//! Replies of the engine as text: the JSON of views, slots, reasons and edits, and views as SVG.
//!
//! - [`view`]: the JSON text of a view, fed label by label ([`JsonView`]); `shown`: the text of a label
//!   in it;
//! - [`map_view`]: the views of a map, as JSON ([`view_json`]) and as SVG ([`view_svg`]);
//! - [`slot`]: the JSON text of a label's slot ([`slot_json`]);
//! - [`reason`]: the JSON text of why a feature has no label ([`reason_json`]);
//! - [`edit`]: the JSON texts of an edit ([`edit_json`]) and of a revision ([`rev_json`]);
//! - [`fault`]: the JSON text of why an edit is refused ([`fault_json`]);
//! - `values`: the small values that others are made of; `compact`: a value as compact text;
//! - `push`: commas, numbers, fractions and strings, put behind a text that is there already;
//! - [`svg`]: the SVG text of a view, fed label by label ([`SvgView`]); `drawn`: the lines of a label,
//!   `place`: where its boxes lie, `escape`: text as XML has it;
//! - [`px`]: hundredths of a pixel as text ([`write_px`]).
#![tactic(auto)]

mod compact;
mod drawn;
pub mod edit;
mod escape;
pub mod fault;
pub mod map_view;
mod place;
mod push;
pub mod px;
pub mod reason;
mod shown;
pub mod slot;
pub mod svg;
mod values;
pub mod view;

pub use edit::{edit_json, rev_json};
pub use fault::fault_json;
pub use map_view::{view_json, view_svg};
pub use px::write_px;
pub use reason::reason_json;
pub use slot::slot_json;
pub use svg::SvgView;
pub use view::JsonView;
