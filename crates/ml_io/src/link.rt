//! One connection.

/// One connection: where its bytes come from, and where the replies go. The two parts are lent apart,
/// so that a read leaves the sink as it is, and a write the source.
#[derive(Drop)]
pub struct Link<I, O> {
    pub source: I,
    pub sink: O,
}
