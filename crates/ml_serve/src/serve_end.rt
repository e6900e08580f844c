//! How serving ends.

/// How serving the connections of a door ended.
#[derive(Clone, Copy, Debug, PartialEq, Eq)]
pub enum ServeEnd {
    /// So many connections were served as were asked for, or the door gave no more.
    Done,
    /// Not all could be printed.
    WriteFault,
    /// The door failed; the connections before stay served.
    DoorFault,
}
