//! Tiles: squares of the world at scales that are powers of two, and the texts of their views, held for
//! the next time that they are asked for.
//!
//! - [`key`]: which tiles there are, and the view that each one is ([`TileKey`]); [`words`]: a tile from
//!   words;
//! - [`tiles`]: the tiles whose bodies are held, most recent first ([`Tiles`]);
//! - [`laws`]: that tiles side by side show whatever is active in the area that they cover.
#![tactic(auto)]

pub mod key;
pub mod laws;
pub mod tiles;
pub mod words;

pub use key::TileKey;
pub use tiles::Tiles;
pub use words::read_tile;
