//! Tests of map files, styles, texts, anchors, rivers and the labels of features through the public
//! calls of their libraries, on values worked out by hand.
//!
//! They stand in a crate of their own, so that no library is proved a second time with its tests. A
//! case is a line of a text, `input => answer`: one more case proves nothing anew.
//!
//! - `cases`: tables of cases, and the parts of a case;
//! - `json`, `geojson`, `style`, `text`, `anchor`, `river`, `label`: the tests of these crates.
#![tactic(auto)]

#[cfg(test)]
mod anchor;
#[cfg(test)]
mod cases;
#[cfg(test)]
mod geojson;
#[cfg(test)]
mod json;
#[cfg(test)]
mod label;
#[cfg(test)]
mod river;
#[cfg(test)]
mod style;
#[cfg(test)]
mod text;
