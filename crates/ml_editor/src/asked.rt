//! What is asked of a map.

/// An edit that is asked for.
#[derive(Clone, Copy, Debug)]
pub enum Asked<'a> {
    /// The feature that this body is comes in behind all others.
    Add(&'a [u8]),
    /// The feature that this body is takes the place of that with its id.
    Replace(&'a [u8]),
    /// The feature with this id goes.
    Remove(&'a str),
    /// The style that this body is takes the place of the style.
    Restyle(&'a [u8]),
}
