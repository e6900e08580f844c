//! Fonts by their names.
ghost use Rattle.std.specs.Prelude.{◌≡◌, not, IfOk};
ghost use Rattle.std.specs.Option.{option_copied};
ghost use Rattle.toml.specs.View.{view, table_view};
ghost use Rattle.ml_style.specs.Faults.{Answers, fault_if};
ghost use Rattle.ml_style.specs.FontTable.{is_font, IsFontOf};
ghost use Rattle.ml_style.specs.Fonts.{font_named, font_faults, AreFonts, AreAscending};

use crate::fault::StyleFault;
use crate::font::Font;
use crate::font_table::read_font;
use ml_ratio::{Seq, Text};
use std::alloc::Global;
use toml::{Table, Value};

/// A font with its name.
#[derive(Debug, Drop)]
pub struct NamedFont {
    pub name: Text,
    pub font: Font,
}

/// The font of this name.
pub(crate) fn find_font<'a>(fonts: &'a [NamedFont], name: &str) -> Option<&'a Font>
    ensures { option_copied result ≡ font_named fonts.now name.now }
{
    match fonts.iter().find(|named| named.name.as_str() == name) {
        Some(named) => Some(&named.font),
        None => None,
    }
}

/// The fonts of a table of them, in byte order of their names.
///
/// # Errors
/// The first member that is no font; out of memory.
pub(crate) fn read_fonts(alloc: Global, table: &Table) -> Result<Seq<NamedFont>, StyleFault>
    ensures fonts { Answers result (font_faults (table_view table.now))
        (AreFonts (table_view table.now)) }
    ensures ascending { IfOk result AreAscending }
{
    let mut fonts = Seq::new(alloc);
    for (name, value) in table.iter() {
        fonts.push(named_font(alloc, name.as_str(), value)?)?;
    }
    Ok(fonts)
}

// The font of this name that the value writes.
fn named_font(alloc: Global, name: &str, value: &Value) -> Result<NamedFont, StyleFault>
    ensures { Answers result
        (fault_if (not (is_font (view value.now))) (StyleFault.BadFont name.now))
        (λ named. (named.name ≡ name.now) × IsFontOf (view value.now) named.font) }
{
    let name = Text::of(alloc, name)?;
    match read_font(alloc, value)? {
        Some(font) => Ok(NamedFont { name, font }),
        None => Err(StyleFault::BadFont(name)),
    }
}
