//! What a TOML table holds at a key.
ghost use Rattle.std.specs.Prelude.{◌≡◌, ◌≤◌, IfSome};
ghost use Rattle.std.specs.Option.{option_map, option_copied};
ghost use Rattle.toml.specs.Data.{get_member};
ghost use Rattle.toml.specs.View.{view, table_view};
ghost use Rattle.ml_style.specs.Toml.{text_at as text_there, whole_at as whole_there, count_at as count_there, bounded as bounded_there};

use toml::{Table, Value};

/// The value at the key.
pub(crate) fn member_of<'a>(table: &'a Table, key: &str) -> Option<&'a Value>
    ensures { option_map (λ v. view v.now) result ≡ get_member key.now (table_view table.now) }
{
    table.get(key)
}

/// The text at the key.
pub(crate) fn text_at<'a>(table: &'a Table, key: &str) -> Option<&'a str>
    ensures { option_copied result ≡ text_there key.now (table_view table.now) }
{
    match member_of(table, key) {
        Some(value) => value.as_str(),
        None => None,
    }
}

/// The whole number at the key.
pub(crate) fn whole_at(table: &Table, key: &str) -> Option<i64>
    ensures { result ≡ whole_there key.now (table_view table.now) }
{
    match member_of(table, key) {
        Some(value) => value.as_integer(),
        None => None,
    }
}

/// The number, where it is from `least` to `most`.
pub(crate) fn bounded(number: i64, least: u32, most: u32) -> Option<u32>
    ensures value { result ≡ bounded_there least most number }
    ensures range { IfSome result (λ count. (least ≤ count) × (count ≤ most)) }
{
    match u32::try_from(number) {
        Ok(count) if least <= count && count <= most => Some(count),
        _ => None,
    }
}

/// The whole number at the key, where it is from `least` to `most`.
pub(crate) fn count_at(table: &Table, key: &str, least: u32, most: u32) -> Option<u32>
    ensures value { result ≡ count_there key.now least most (table_view table.now) }
    ensures range { IfSome result (λ count. (least ≤ count) × (count ≤ most)) }
{
    match whole_at(table, key) {
        Some(number) => bounded(number, least, most),
        None => None,
    }
}
