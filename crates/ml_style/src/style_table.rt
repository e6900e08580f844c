//! A style from the TOML table that writes it.
ghost use Rattle.std.specs.Prelude.{◌≡◌, IfOk, All};
ghost use Rattle.toml.specs.View.{table_view};
ghost use Rattle.ml_style.specs.Faults.{Answers};
ghost use Rattle.ml_style.specs.Fonts.{font_faults, AreFonts, AreAscending, names_of, HasFont};
ghost use Rattle.ml_style.specs.ClassFaults.{AreClasses};
ghost use Rattle.ml_style.specs.StyleTable.{fonts_in, classes_faults_in, items_in, key_for, style_faults, IsStyleIn};

use crate::class::Class;
use crate::class_table::read_classes;
use crate::fault::StyleFault;
use crate::fonts::{NamedFont, read_fonts};
use crate::style::Style;
use crate::table::{count_at, member_of, text_at};
use ml_ratio::{Seq, Text};
use std::alloc::{AllocError, Global};
use toml::Table;

/// The style that the table writes.
///
/// # Errors
/// The first fault; out of memory.
pub(crate) fn read_table(alloc: Global, table: &Table) -> Result<Style, StyleFault>
    ensures { Answers result (style_faults (table_view table.now))
        (IsStyleIn (table_view table.now)) }
{
    let Some(version) = count_at(table, "version", 1, 2) else {
        return Err(StyleFault::Version);
    };
    let fonts = fonts_of(alloc, table)?;
    let classes = classes_of(alloc, version, &fonts, table)?;
    let name_key = key_for_purpose(alloc, table, "name")?;
    let rank_key = key_for_purpose(alloc, table, "rank")?;
    Ok(Style {
        name_key,
        rank_key,
        classes,
        fonts,
    })
}

// The fonts of the style: none where there is no table of them.
fn fonts_of(alloc: Global, style: &Table) -> Result<Seq<NamedFont>, StyleFault>
    ensures fonts { Answers result (font_faults (fonts_in (table_view style.now)))
        (AreFonts (fonts_in (table_view style.now))) }
    ensures ascending { IfOk result AreAscending }
{
    let Some(value) = member_of(style, "fonts") else {
        return Ok(Seq::new(alloc));
    };
    match value.as_table() {
        Some(table) => read_fonts(alloc, table),
        None => Ok(Seq::new(alloc)),
    }
}

// The classes of the style, which is of this version; there need be none.
fn classes_of(
    alloc: Global,
    version: u32,
    fonts: &Seq<NamedFont>,
    style: &Table,
) -> Result<Seq<Class>, StyleFault>
    ensures classes { Answers result (classes_faults_in version (names_of fonts.now)
        (table_view style.now)) (AreClasses version (items_in (table_view style.now))) }
    ensures known { IfOk result (All (HasFont fonts.now)) }
{
    let Some(value) = member_of(style, "class") else {
        return Ok(Seq::new(alloc));
    };
    match value.as_array() {
        Some(values) => read_classes(alloc, version, fonts.as_slice(), values.as_slice()),
        None => Err(StyleFault::BadClass(0, Text::of(alloc, "class")?)),
    }
}

// The key of the property that serves this purpose: the one that the style names, or the purpose.
fn key_for_purpose(alloc: Global, style: &Table, purpose: &str) -> Result<Text, AllocError>
    ensures { IfOk result (λ key. key ≡ key_for purpose.now (table_view style.now)) }
{
    Text::of(alloc, text_at(style, purpose).unwrap_or(purpose))
}
