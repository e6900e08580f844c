//! The bytes of characters beyond ASCII, by the table of RFC 3629.
ghost use Rattle.std.specs.Prelude.{◌≡◌, option_map};
ghost use Rattle.ml_json.specs.Characters.{lead as spec_lead, later as spec_later, low, high};
ghost use Rattle.ml_ratio.specs.JsonNumber.{is_between};
ghost use Rattle.ml_json.specs.Partial.{tail_of};

use crate::tail::Tail;

/// What follows the first byte of a character; none for any other byte.
pub fn lead(byte: u8) -> Option<Tail>
    ensures { option_map tail_of result ≡ spec_lead byte }
{
    match byte {
        194..=223 => Some(Tail::One),
        224 => Some(Tail::AfterE0),
        237 => Some(Tail::AfterEd),
        225..=239 => Some(Tail::Two),
        240 => Some(Tail::AfterF0),
        244 => Some(Tail::AfterF4),
        241..=243 => Some(Tail::Three),
        _ => None,
    }
}

/// What is left of a tail behind its first byte.
pub fn later(tail: Tail) -> Option<Tail>
    ensures { option_map tail_of result ≡ spec_later (tail_of tail) }
{
    match tail {
        Tail::One => None,
        Tail::Two | Tail::AfterE0 | Tail::AfterEd => Some(Tail::One),
        Tail::Three | Tail::AfterF0 | Tail::AfterF4 => Some(Tail::Two),
    }
}

/// Whether the byte may be the first of the tail.
pub fn may_follow(tail: Tail, byte: u8) -> bool
    ensures { result ≡ is_between (low (tail_of tail)) (high (tail_of tail)) byte }
{
    match tail {
        Tail::One | Tail::Two | Tail::Three => 128 <= byte && byte <= 191,
        Tail::AfterE0 => 160 <= byte && byte <= 191,
        Tail::AfterEd => 128 <= byte && byte <= 159,
        Tail::AfterF0 => 144 <= byte && byte <= 191,
        Tail::AfterF4 => 128 <= byte && byte <= 143,
    }
}
