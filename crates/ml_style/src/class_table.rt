//! Classes from the TOML tables that write them.
ghost use Rattle.std.specs.Prelude.{All, IfOk};
ghost use Rattle.toml.specs.View.{view, items_view, table_view};
ghost use Rattle.ml_style.specs.Faults.{Answers};
ghost use Rattle.ml_style.specs.Fonts.{names_of, HasFont};
ghost use Rattle.ml_style.specs.ClassParts.{IsUsable};
ghost use Rattle.ml_style.specs.ClassFaults.{use_faults, faults_in, class_faults, IsClassWith, IsClassOver, classes_faults, AreClasses};

use crate::class::Class;
use crate::class_part::{read_look, read_margin, read_placing, read_range};
use crate::fault::StyleFault;
use crate::fonts::{NamedFont, find_font};
use crate::parts::{Look, Placing};
use ml_ratio::{Ratio, Seq, Text};
use std::alloc::Global;
use toml::{Table, Value};

/// The classes that the values write, one each, in a style of this version.
///
/// # Errors
/// The first fault, class by class; out of memory.
pub(crate) fn read_classes(
    alloc: Global,
    version: u32,
    fonts: &[NamedFont],
    values: &[Value],
) -> Result<Seq<Class>, StyleFault>
    ensures classes { Answers result (classes_faults version (names_of fonts.now) 0
        (items_view values.now)) (AreClasses version (items_view values.now)) }
    ensures known { IfOk result (All (HasFont fonts.now)) }
{
    let mut classes = Seq::new(alloc);
    for (k, value) in values.iter().enumerate() {
        classes.push(read_class(alloc, version, fonts, k, value)?)?;
    }
    Ok(classes)
}

// Class `k`, which the value writes.
fn read_class(
    alloc: Global,
    version: u32,
    fonts: &[NamedFont],
    k: usize,
    value: &Value,
) -> Result<Class, StyleFault>
    ensures { Answers result (class_faults version (names_of fonts.now) k (view value.now))
        (IsClassOver version fonts.now (view value.now)) }
{
    match value.as_table() {
        Some(table) => read_fields(alloc, version, fonts, k, table),
        None => Err(StyleFault::BadClass(k, Text::of(alloc, "class")?)),
    }
}

// Class `k`, of which the table has the fields: the first that is wrong decides.
fn read_fields(
    alloc: Global,
    version: u32,
    fonts: &[NamedFont],
    k: usize,
    table: &Table,
) -> Result<Class, StyleFault>
    ensures { Answers result (faults_in version (names_of fonts.now) k (table_view table.now))
        (IsClassWith version fonts.now (table_view table.now)) }
{
    let Look {
        kind,
        rule,
        font,
        size,
        priority,
    } = read_look(alloc, k, table)?;
    let Placing { scale_ref, dx, dy } = read_placing(alloc, k, table, kind)?;
    let (min, max) = read_range(alloc, k, table)?;
    let margin = read_margin(alloc, k, table, version)?;
    check(fonts, k, font, &min, &max)?;
    Ok(Class {
        kind,
        rule,
        font: Text::of(alloc, font)?,
        size,
        priority,
        scale_ref,
        dx,
        dy,
        min,
        max,
        margin,
    })
}

// Whether class `k` has a font that is there, and then a range that does not end where it begins.
fn check(
    fonts: &[NamedFont],
    k: usize,
    font: &str,
    min: &Ratio,
    max: &Ratio,
) -> Result<(), StyleFault>
    ensures { Answers result (use_faults (names_of fonts.now) k font.now min.now max.now)
        (λ _. IsUsable fonts.now font.now min.now max.now) }
{
    if find_font(fonts, font).is_none() {
        return Err(StyleFault::UnknownFont(k));
    }
    if !min.is_less(max) {
        return Err(StyleFault::EmptyRange(k));
    }
    Ok(())
}
