//! What the head of a reply says of its body and of its path.

/// What the body of a reply is.
#[derive(Clone, Copy, Debug, PartialEq, Eq)]
pub enum Kind {
    /// JSON.
    Json,
    /// A picture.
    Svg,
    /// A map.
    GeoJson,
    /// Plain text.
    Text,
}

/// Which methods a path has.
#[derive(Clone, Copy, Debug, PartialEq, Eq)]
pub enum Allow {
    /// GET alone.
    Get,
    /// PUT alone.
    Put,
    /// POST, PUT and DELETE.
    Edits,
}
