//! JSON values, and why bytes are no JSON text.
use ml_ratio::Text;
use thiserror::Error;

/// A JSON value.
#[derive(Debug, Drop)]
#[cycle(tree)]
pub enum Json {
    /// `null`.
    Null,
    /// `true` or `false`.
    Flag(bool),
    /// A number, kept as its text.
    Num(Text),
    /// A string, with its escapes read.
    Str(Text),
    /// A list, in order.
    List(Vec<Json>),
    /// A map. The reader gives its members in byte order of their keys, each key once.
    Map(Vec<Pair>),
}

/// A member of a map.
#[derive(Debug, Drop)]
#[cycle(tree)]
pub struct Pair {
    pub key: Text,
    pub value: Json,
}

/// Why bytes are refused. Places count bytes from the first one, which is at 0.
#[derive(Clone, Copy, Debug, PartialEq, Eq, Error)]
pub enum JsonFault {
    /// No JSON text begins with the bytes up to and including this place, or the bytes end here too early.
    #[error("not JSON at byte {0}")]
    NotJson(usize),
    /// The byte here opens a 65th list or map within one another.
    #[error("more than 64 lists and maps are open at byte {0}")]
    Deep(usize),
    /// Memory was wanting.
    #[error("out of memory")]
    Memory,
}
