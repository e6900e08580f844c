//! How a connection ends.

/// How serving a connection ended.
#[derive(Clone, Copy, Debug, PartialEq, Eq)]
pub enum ConnEnd {
    /// The reply to the last request that a connection may have, the 1,000th, was written whole.
    Shut,
    /// The reply that memory is wanting was written whole.
    Starved,
    /// The input ended, or another reply that closes was written whole.
    Closed,
    /// The source failed: its count of faults rose.
    ReadFault,
    /// The sink failed: its count of faults rose.
    WriteFault,
}

/// What one turn of a connection came to.
#[derive(Clone, Copy, Debug, PartialEq, Eq)]
pub(crate) enum Turn {
    /// A reply was written, and the connection goes on.
    Open,
    /// The connection has ended.
    Over(ConnEnd),
}
