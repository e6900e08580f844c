//! A font from the TOML table that writes it.
ghost use Rattle.std.specs.Prelude.{◌≡◌, Some, None, IfOk, map, MatchOption};
ghost use Rattle.std.specs.Option.{option_map};
ghost use Rattle.toml.specs.View.{view, table_view};
ghost use Rattle.ml_style.specs.Advances.{AreAscending};
ghost use Rattle.ml_style.specs.FontTable.{only_char as only_there, advance_in as advance_there, advances_of, advances_in as advances_there, pair_of, IsFontFound};

use crate::advance::Advance;
use crate::font::Font;
use crate::table::{bounded, count_at, member_of};
use ml_ratio::Seq;
use std::alloc::{AllocError, Global};
use toml::{Table, Value};

/// The font that the value writes; none where it writes none.
///
/// # Errors
/// Out of memory.
pub(crate) fn read_font(alloc: Global, value: &Value) -> Result<Option<Font>, AllocError>
    ensures { IfOk result (IsFontFound (view value.now)) }
{
    let Some(table) = value.as_table() else {
        return Ok(None);
    };
    let Some(units) = count_at(table, "units", 1, 65535) else {
        return Ok(None);
    };
    let Some(fallback) = count_at(table, "default", 0, 65535) else {
        return Ok(None);
    };
    let Some(advances) = advances_in(alloc, table)? else {
        return Ok(None);
    };
    Ok(Some(Font {
        units,
        fallback,
        advances,
    }))
}

// The advances of a font's table, of which there need be none.
fn advances_in(alloc: Global, font: &Table) -> Result<Option<Seq<Advance>>, AllocError>
    ensures value { IfOk result
        (λ found. option_map (map pair_of) found ≡ advances_there (table_view font.now)) }
    ensures ascending { IfOk result (λ found. MatchOption found (Unit {0}) AreAscending) }
{
    let Some(value) = member_of(font, "advances") else {
        return Ok(Some(Seq::new(alloc)));
    };
    let Some(table) = value.as_table() else {
        return Ok(None);
    };
    read_advances(alloc, table)
}

// The advances of a table of them, if each member is one.
fn read_advances(alloc: Global, table: &Table) -> Result<Option<Seq<Advance>>, AllocError>
    ensures value { IfOk result
        (λ found. option_map (map pair_of) found ≡ advances_of (table_view table.now)) }
    ensures ascending { IfOk result (λ found. MatchOption found (Unit {0}) AreAscending) }
{
    let mut advances = Seq::new(alloc);
    for (key, width) in table.iter() {
        let Some(advance) = advance_in(key.as_str(), width) else {
            return Ok(None);
        };
        advances.push(advance)?;
    }
    Ok(Some(advances))
}

// The advance that a member of a table of advances writes.
fn advance_in(key: &str, width: &Value) -> Option<Advance>
    ensures { option_map pair_of result ≡ advance_there key.now (view width.now) }
{
    let ch = only_char(key)?;
    let width = bounded(width.as_integer()?, 0, 65535)?;
    Some(Advance { ch, width })
}

// The character that a text of one character is.
fn only_char(text: &str) -> Option<char>
    ensures { result ≡ only_there text.now }
{
    let mut chars = text.chars();
    let ch = chars.next()?;
    match chars.next() {
        None => Some(ch),
        Some(_) => None,
    }
}
