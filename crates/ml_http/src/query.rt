//! The names and values of a query.
ghost use Rattle.std.specs.Prelude.{◌≡◌, IfOk, length, map, codes};
ghost use Rattle.std.specs.Option.{option_map};
ghost use Rattle.ml_http.specs.Routes.{query_pairs, pair_bytes, named, first, word_of, IsViewAsked, IsTileAsked, revision_in, id_in};

use ml_cone::View;
use ml_ratio::number::read_up_to;
use ml_tile::{TileKey, read_tile};
use ml_view::read_view;
use std::alloc::{AllocError, Global};
use std::borrow::CowStr;

/// A decoded name with its value. What stands in the query as it is decoded is lent from there.
pub(crate) type Pair<'a> = (CowStr<'a, Global>, CowStr<'a, Global>);

// A view has five words, an edit two.
const MOST_WORDS: usize = 5;

/// The decoded names and values of a query, in order.
///
/// # Errors
/// Out of memory.
pub(crate) fn query_pairs_of(alloc: Global, query: &[u8]) -> Result<Vec<Pair<'_>>, AllocError>
    ensures { IfOk result (λ all. map pair_bytes all.items ≡ query_pairs query.now) }
{
    let mut all = Vec::with_capacity(alloc, MOST_WORDS)?;
    for pair in form_urlencoded::parse(alloc, query) {
        all.push(pair?)?;
    }
    Ok(all)
}

// How often a name stands.
fn count_of(pairs: &[Pair<'_>], name: &str) -> usize
    ensures { result ≡ length (named name.now (map pair_bytes pairs.now)) }
{
    let mut count = 0;
    for pair in pairs {
        if pair.0.as_str() == name {
            count += 1;
        }
    }
    count
}

// The first value of a name.
fn first_of<'a>(pairs: &'a [Pair<'_>], name: &str) -> Option<&'a str>
    ensures { option_map (λ value. value.now) result
        ≡ first (named name.now (map pair_bytes pairs.now)) }
{
    for pair in pairs {
        if pair.0.as_str() == name {
            return Some(pair.1.as_str());
        }
    }
    None
}

// The value of a name that stands once, and an empty text for every other.
fn word<'a>(pairs: &'a [Pair<'_>], name: &str) -> &'a str
    ensures { result.now ≡ word_of name.now (map pair_bytes pairs.now) }
{
    if count_of(pairs, name) != 1 {
        return "";
    }
    match first_of(pairs, name) {
        Some(value) => value,
        None => "",
    }
}

/// The view that a query asks for.
///
/// # Errors
/// The place, counted from 0, of the first of `cx`, `cy`, `w`, `h` and `s` that is missing, stands
/// twice or has a wrong value.
pub(crate) fn view_asked(pairs: &[Pair<'_>]) -> Result<View, usize>
    ensures { IsViewAsked (map pair_bytes pairs.now) result }
{
    read_view(
        word(pairs, "cx"),
        word(pairs, "cy"),
        word(pairs, "w"),
        word(pairs, "h"),
        word(pairs, "s"),
    )
}

/// The tile that a query asks for.
///
/// # Errors
/// The place, counted from 0, of the first of `z`, `i` and `j` that is missing, stands twice or has a
/// wrong value.
pub(crate) fn tile_asked(pairs: &[Pair<'_>]) -> Result<TileKey, usize>
    ensures { IsTileAsked (map pair_bytes pairs.now) result }
{
    read_tile(word(pairs, "z"), word(pairs, "i"), word(pairs, "j"))
}

/// The revision that a query gives, if it gives one. The answer is none where the query gives it twice
/// or more, or gives what is no number of one to sixteen digits.
pub(crate) fn revision_asked(pairs: &[Pair<'_>]) -> Option<Option<u64>>
    ensures { result ≡ revision_in (named (codes "rev") (map pair_bytes pairs.now)) }
{
    match count_of(pairs, "rev") {
        0 => Some(None),
        1 => match first_of(pairs, "rev") {
            Some(text) => match read_up_to(16, text) {
                Some(rev) => Some(Some(rev)),
                None => None,
            },
            None => None,
        },
        _ => None,
    }
}

/// The id that a query gives; none where it is missing or stands twice or more. An empty id is one.
pub(crate) fn id_asked<'a>(pairs: &'a [Pair<'_>]) -> Option<&'a str>
    ensures { option_map (λ id. id.now) result ≡ id_in (map pair_bytes pairs.now) }
{
    if count_of(pairs, "id") != 1 {
        return None;
    }
    first_of(pairs, "id")
}
