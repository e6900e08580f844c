//! How much there may be at most of what all crates speak of.

/// How many labels there are at most: in a table, in a state and on a map, which has as many features at
/// most. Numbers of live labels are below it.
pub const MOST_LABELS: usize = 32_768;
