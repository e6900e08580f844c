//! The fields of a class, each from the TOML table of the class.
ghost use Rattle.std.specs.Prelude.{◌≡◌, ◌*◌, ◌^◌, ◌≤◌, ℕ, Some, IfSome, IfOk};
ghost use Rattle.toml.specs.View.{view, table_view};
ghost use Rattle.ml_style.specs.Faults.{Answers};
ghost use Rattle.ml_style.specs.ClassTable.{kind_named as kind_of_name, kind_in as kind_there, ref_for, offset as offset_there, offset_at as offset_at_key, offset_for, bound as bound_there, bound_at as bound_in, above_zero as above_zero_there, min_in as min_there, max_in as max_there, margin_for, AreSame, IsRuleOf};
ghost use Rattle.ml_style.specs.ClassFaults.{rule_faults};
ghost use Rattle.ml_style.specs.Rule.{IsRule};
ghost use Rattle.ml_style.specs.Offset.{IsOffset};

use crate::class::Kind;
use crate::fault::StyleFault;
use crate::field::field;
use crate::table::{bounded, count_at, member_of, text_at};
use ml_ratio::{Prop, Ratio, Scalar, Text};
use std::alloc::Global;
use toml::Table;

// The greatest bound of a range of scales: 2^28 world units per pixel.
const GREATEST_SCALE: u64 = 268_435_456;

/// The kind of the class.
pub(crate) fn kind_in(class: &Table) -> Option<Kind>
    ensures { result ≡ kind_there (table_view class.now) }
{
    match text_at(class, "geometry") {
        Some(name) => kind_named(name),
        None => None,
    }
}

// The kind of this name.
fn kind_named(name: &str) -> Option<Kind>
    ensures { result ≡ kind_of_name name.now }
{
    if name == "point" {
        Some(Kind::PointKind)
    } else if name == "line" {
        Some(Kind::LineKind)
    } else if name == "area" {
        Some(Kind::AreaKind)
    } else {
        None
    }
}

/// The rule of class `k`, if it has one: a key and a value, which must both be texts.
///
/// # Errors
/// BadClass with the part that is none, the key first; out of memory.
pub(crate) fn rule_in(alloc: Global, k: usize, class: &Table) -> Result<Option<Prop>, StyleFault>
    ensures rule { Answers result (rule_faults k (table_view class.now))
        (IsRuleOf (table_view class.now)) }
    ensures text { IfOk result IsRule }
{
    if member_of(class, "key").is_none() && member_of(class, "value").is_none() {
        return Ok(None);
    }
    let key = field(alloc, k, "key", text_at(class, "key"))?;
    let value = field(alloc, k, "value", text_at(class, "value"))?;
    Ok(Some(Prop {
        key: Text::of(alloc, key)?,
        value: Scalar::Str(Text::of(alloc, value)?),
    }))
}

/// The scale at which text of this kind is fitted: that of the class for lines, and 1 for others.
pub(crate) fn ref_in(class: &Table, kind: Kind) -> Option<u32>
    ensures value { result ≡ ref_for (Some kind) (table_view class.now) }
    ensures range { IfSome result (λ count. (1 ≤ count) × (count ≤ 268435455)) }
{
    match kind {
        Kind::LineKind => count_at(class, "ref", 1, 268_435_455),
        Kind::PointKind | Kind::AreaKind => Some(1),
    }
}

/// The offset of labels of this kind: the one at the key, which lines have read and do not use.
pub(crate) fn offset_in(class: &Table, key: &str, kind: Kind) -> Option<i32>
    ensures value { result ≡ offset_for (Some kind) key.now (table_view class.now) }
    ensures range { IfSome result IsOffset }
{
    let offset = offset_at(class, key)?;
    match kind {
        Kind::LineKind => Some(0),
        Kind::PointKind | Kind::AreaKind => Some(offset),
    }
}

// The offset at the key, 0 where nothing stands there.
fn offset_at(class: &Table, key: &str) -> Option<i32>
    ensures value { result ≡ offset_at_key key.now (table_view class.now) }
    ensures range { IfSome result IsOffset }
{
    match member_of(class, key) {
        Some(value) => offset(value.as_integer()?),
        None => Some(0),
    }
}

// The number, where it is from -256 to 256.
fn offset(number: i64) -> Option<i32>
    ensures value { result ≡ offset_there number }
    ensures range { IfSome result IsOffset }
{
    if -256 <= number && number <= 256 {
        Some(number as i32)
    } else {
        None
    }
}

/// The scale from which on the labels of the class may be shown.
pub(crate) fn min_in(class: &Table) -> Option<Ratio>
    ensures { AreSame (min_there (table_view class.now)) result }
{
    bound_at(class, "min")
}

/// The scale from which on they may not, which is above 0.
pub(crate) fn max_in(class: &Table) -> Option<Ratio>
    ensures value { AreSame (max_there (table_view class.now)) result }
    ensures low { IfSome result (λ r. r.num ≤ 2 ^ 28 * r.den) }
{
    match bound_at(class, "max") {
        Some(max) => above_zero(max),
        None => None,
    }
}

// The bound of a range of scales at the key.
fn bound_at(class: &Table, key: &str) -> Option<Ratio>
    ensures value { AreSame (bound_in key.now (table_view class.now)) result }
    ensures low { IfSome result (λ r. r.num ≤ 2 ^ 28 * r.den) }
{
    match text_at(class, key) {
        Some(text) => bound(text),
        None => None,
    }
}

// The bound that the text writes.
fn bound(text: &str) -> Option<Ratio>
    ensures value { AreSame (bound_there text.now) result }
    ensures low { IfSome result (λ r. r.num ≤ 2 ^ 28 * r.den) }
{
    let ratio = Ratio::read(text)?;
    if ratio.num() <= GREATEST_SCALE * ratio.den() {
        Some(ratio)
    } else {
        None
    }
}

// The bound, where it is above 0.
fn above_zero(bound: Ratio) -> Option<Ratio>
    requires { bound.num ≤ 2 ^ 28 * bound.den }
    ensures value { (p : ℕ × ℕ) → AreSame (Some p) (Some bound) →
        AreSame (above_zero_there p) result }
    ensures low { IfSome result (λ r. r.num ≤ 2 ^ 28 * r.den) }
{
    if bound.num() > 0 { Some(bound) } else { None }
}

/// The margin of labels of a style of this version, 0 where nothing stands there. Version 1 passes it
/// over.
pub(crate) fn margin_in(class: &Table, version: u32) -> Option<u32>
    ensures value { result ≡ margin_for version (table_view class.now) }
    ensures range { IfSome result (λ margin. margin ≤ 64) }
{
    if version < 2 {
        return Some(0);
    }
    match member_of(class, "margin") {
        Some(value) => bounded(value.as_integer()?, 0, 64),
        None => Some(0),
    }
}
