//! The state of the reader between two bytes.
ghost use Rattle.ml_json.specs.Canonical.{IsAscending};
ghost use Rattle.ml_json.specs.Lent.{lent_pairs_view};
ghost use Rattle.ml_json.specs.Sorted.{IsAscending-prop};
ghost use Rattle.ml_json.specs.Partial.{IsPartial, HoldsHigh, IsSmall};

use crate::lent::{Lent, LentPair, LentText};
use crate::tail::Tail;
use std::collections::BTreeMap;

/// Members in byte order of their keys, each key once.
#[derive(Drop)]
pub struct Sorted<'a> {
    pub pairs: Vec<LentPair<'a>>,
    ghost ascending: { IsAscending (lent_pairs_view pairs.items) } by { IsAscending-prop (lent_pairs_view pairs.items) },
}

/// The members of a map so far. A few stand in a list, which is the map's own in the end. Many stand in
/// a tree, since a member that is put in front of many others in a list moves them all.
#[derive(Drop)]
pub enum Members<'a> {
    Few(Sorted<'a>),
    Many(BTreeMap<LentText<'a>, Lent<'a>>),
}

/// A list or map that is open, with what has come of it.
#[derive(Drop)]
pub enum Frame<'a> {
    List(Vec<Lent<'a>>),
    /// The members so far, and the key whose value is being read.
    Map(Members<'a>, LentText<'a>),
}

/// What has come of a number.
#[derive(Clone, Copy)]
pub enum Part {
    Minus,
    Nought,
    Whole,
    Dot,
    Digits,
    Letter,
    Sign,
    Power,
}

/// What has come of `null`, `true` or `false`.
#[derive(Clone, Copy)]
pub enum Word {
    N,
    Nu,
    Nul,
    T,
    Tr,
    Tru,
    F,
    Fa,
    Fal,
    Fals,
}

/// What a string is for.
#[derive(Drop)]
pub enum Owner<'a> {
    Value,
    /// The key of a further member, behind these members.
    Key(Members<'a>),
}

/// A string that has begun.
#[derive(Drop)]
pub struct Open<'a> {
    pub owner: Owner<'a>,
    /// The first half of a surrogate pair, if the last escape was one.
    pub half: Option<u32>,
    pub text: String,
    ghost high: { HoldsHigh half },
}

/// What has come of an escape by four digits: how many more follow the next one, and the number so far.
#[derive(Clone, Copy)]
pub struct Code {
    pub left: usize,
    pub sum: u32,
    ghost small: { IsSmall left sum },
}

/// A character of which some bytes have come.
#[derive(Drop)]
pub struct Partial {
    pub tail: Tail,
    pub got: Vec<u8>,
    ghost whole: { IsPartial tail got },
}

/// What the next byte may be, with what has been read and is not yet in a frame.
#[derive(Drop)]
pub enum Mode<'a> {
    Begin,
    MarkTwo,
    MarkOne,
    Value,
    First,
    FirstKey,
    Key(Members<'a>),
    Colon(Members<'a>, LentText<'a>),
    After(Lent<'a>),
    Text(Open<'a>),
    Escape(Open<'a>),
    Hex(Open<'a>, Code),
    Bytes(Open<'a>, Partial),
    Number(Part, String),
    Word(Word),
}

/// Why there is no state behind a byte.
#[derive(Debug, Drop)]
pub enum Stop {
    NotJson,
    Deep,
    Memory,
}
