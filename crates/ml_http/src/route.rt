//! What a request may ask for.
use crate::kind::Allow;

/// What a request may ask of a map without changing it.
#[derive(Clone, Copy, Debug, PartialEq, Eq)]
pub enum ReadRoute {
    /// A view as JSON.
    View,
    /// A view as SVG.
    Svg,
    /// The slot of a label, or why there is none.
    Why,
    /// The whole map.
    Map,
    /// The revision.
    Rev,
    /// The whole state of the labels.
    State,
}

/// Which edit a request may ask for.
#[derive(Clone, Copy, Debug, PartialEq, Eq)]
pub enum EditRoute {
    /// A feature comes in.
    Add,
    /// A feature takes the place of another.
    Replace,
    /// A feature goes.
    Remove,
    /// A style takes the place of the style.
    Restyle,
}

/// What a request asks for.
#[derive(Clone, Copy, Debug, PartialEq, Eq)]
pub enum Route {
    /// To be told something.
    Read(ReadRoute),
    /// A tile: its view as JSON, which may be held.
    Tile,
    /// To change something.
    Edit(EditRoute),
}

/// Why a request asks for nothing that there is.
#[derive(Clone, Copy, Debug, PartialEq, Eq)]
pub enum NoRoute {
    /// There is no such path.
    Path,
    /// The path has these methods alone.
    Method(Allow),
}
