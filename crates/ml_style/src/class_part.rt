//! The parts of a class, each from the TOML table of the class.
ghost use Rattle.std.specs.Prelude.{◌≡◌, ◌*◌, ◌^◌, ◌≤◌, Some, IfOk};
ghost use Rattle.toml.specs.View.{table_view};
ghost use Rattle.ml_style.specs.Faults.{Answers};
ghost use Rattle.ml_style.specs.ClassTable.{margin_for};
ghost use Rattle.ml_style.specs.ClassParts.{IsLookIn, IsPlacingIn, IsRangeIn};
ghost use Rattle.ml_style.specs.ClassFaults.{look_faults, placing_faults, range_faults, margin_faults};

use crate::class::Kind;
use crate::class_field::{kind_in, margin_in, max_in, min_in, offset_in, ref_in, rule_in};
use crate::fault::StyleFault;
use crate::field::field;
use crate::parts::{Look, Placing};
use crate::table::{count_at, text_at};
use ml_ratio::Ratio;
use std::alloc::Global;
use toml::Table;

/// The look of class `k`.
///
/// # Errors
/// BadClass with the first field that is wrong: geometry, key, value, font, size or priority; want of
/// memory.
pub(crate) fn read_look<'a>(
    alloc: Global,
    k: usize,
    class: &'a Table,
) -> Result<Look<'a>, StyleFault>
    ensures { Answers result (look_faults k (table_view class.now))
        (IsLookIn (table_view class.now)) }
{
    Ok(Look {
        kind: field(alloc, k, "geometry", kind_in(class))?,
        rule: rule_in(alloc, k, class)?,
        font: field(alloc, k, "font", text_at(class, "font"))?,
        size: field(alloc, k, "size", count_at(class, "size", 1, 256))?,
        priority: field(alloc, k, "priority", count_at(class, "priority", 0, 65535))?,
    })
}

/// The placing of labels of class `k`, which is of this kind.
///
/// # Errors
/// BadClass with the first field that is wrong: ref, dx or dy; out of memory.
pub(crate) fn read_placing(
    alloc: Global,
    k: usize,
    class: &Table,
    kind: Kind,
) -> Result<Placing, StyleFault>
    ensures { Answers result (placing_faults k (Some kind) (table_view class.now))
        (IsPlacingIn kind (table_view class.now)) }
{
    Ok(Placing {
        scale_ref: field(alloc, k, "ref", ref_in(class, kind))?,
        dx: field(alloc, k, "dx", offset_in(class, "dx", kind))?,
        dy: field(alloc, k, "dy", offset_in(class, "dy", kind))?,
    })
}

/// The scale from which on the labels of class `k` may be shown, and the one, above 0, from which on
/// they may not.
///
/// # Errors
/// BadClass with the first field that is wrong, min or max; out of memory.
pub(crate) fn read_range(
    alloc: Global,
    k: usize,
    class: &Table,
) -> Result<(Ratio, Ratio), StyleFault>
    ensures range { Answers result (range_faults k (table_view class.now))
        (IsRangeIn (table_view class.now)) }
    ensures low { IfOk result (λ range. range.1.num ≤ 2 ^ 28 * range.1.den) }
{
    let min = field(alloc, k, "min", min_in(class))?;
    let max = field(alloc, k, "max", max_in(class))?;
    Ok((min, max))
}

/// The margin of labels of class `k`, in a style of this version.
///
/// # Errors
/// BadClass with margin; out of memory.
pub(crate) fn read_margin(
    alloc: Global,
    k: usize,
    class: &Table,
    version: u32,
) -> Result<u32, StyleFault>
    ensures margin { Answers result (margin_faults version k (table_view class.now))
        (λ margin. margin_for version (table_view class.now) ≡ Some margin) }
    ensures low { IfOk result (λ margin. margin ≤ 64) }
{
    field(alloc, k, "margin", margin_in(class, version))
}
