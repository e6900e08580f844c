//! Bytes to a style.
ghost use Rattle.std.specs.Prelude.{◌≡◌, ℕ, List, IfOk, IfErr, IsOkUnless};
ghost use Rattle.ml_ratio.specs.Refusal.{RefusesExactly};
ghost use Rattle.ml_style.specs.Toml.{IsNoToml};
ghost use Rattle.ml_style.specs.StyleTable.{IsStyle, IsFaultless, IsFirstFault};
ghost use Rattle.ml_style.specs.Answer.{IsAnswer, IsRefusal};

use crate::fault::StyleFault;
use crate::style::Style;
use crate::style_table::read_table;
use std::alloc::Global;

/// Reads a style from the TOML 1.1 text that the bytes are, with whole numbers of 64 bits and at most
/// 80 lists and tables within one another. Keys that are not named here are passed over.
///
/// - `version` is the whole number 1 or 2.
/// - `name` and `rank` are the keys of the properties that are a feature's name and rank; where one is
///   not there or no text it is `"name"` or `"rank"`.
/// - `fonts` is a table of fonts by their names; where it is not there or no table there are none. A
///   font is a table of `units`, 1 to 65535, `default`, 0 to 65535, and perhaps `advances`, a table
///   from texts of one character to 0 to 65535.
/// - `class` is a list of tables, perhaps not there. A class has `geometry`, one of `"point"`, `"line"`
///   and `"area"`; perhaps both of `key` and `value`, texts; `font`, a text; `size`, 1 to 256;
///   `priority`, 0 to 65535; `ref`, 1 to 268435455, for lines alone; perhaps `dx` and `dy`, -256 to
///   256, which lines have read and do not use; `min` and `max`, texts `n` or `n/d` of a number up to
///   268435456, with `max` above 0; in version 2 perhaps `margin`, 0 to 64. Where `dx`, `dy` or `margin`
///   is not there it is 0; version 1 passes `margin` over.
///
/// # Errors
/// The first that stands, in this order. NotToml. Version. BadFont with the first name in byte order
/// whose value is no font. For each class in order: BadClass with the first of its fields that is
/// wrong, in the order above; UnknownFont where it names none of the fonts; EmptyRange where `min` is
/// at least `max`. A `class` that is no list is BadClass 0 `class`, and a member of it that is no table
/// BadClass with its place and `class`. Out of memory.
pub fn read_style(alloc: Global, bytes: &[u8]) -> Result<Style, StyleFault>
    ensures ok { IfOk result (λ style. IsStyle bytes.now style) }
    ensures accepted { IsFaultless bytes.now → IsOkUnless result StyleFault.Memory }
    ensures fault { IfErr result (IsRefusal bytes.now) }
    ensures not_toml { RefusesExactly result StyleFault.NotToml StyleFault.Memory
        (IsNoToml bytes.now) }
    ensures version { RefusesExactly result StyleFault.Version StyleFault.Memory
        (IsFirstFault bytes.now StyleFault.Version) }
    ensures bad_font { (name : List ℕ) → RefusesExactly result (StyleFault.BadFont name)
        StyleFault.Memory (IsFirstFault bytes.now (StyleFault.BadFont name)) }
    ensures bad_class { (k : ℕ) (field : List ℕ) → RefusesExactly result (StyleFault.BadClass k
        field) StyleFault.Memory (IsFirstFault bytes.now (StyleFault.BadClass k field)) }
    ensures unknown_font { (k : ℕ) → RefusesExactly result (StyleFault.UnknownFont k)
        StyleFault.Memory (IsFirstFault bytes.now (StyleFault.UnknownFont k)) }
    ensures empty_range { (k : ℕ) → RefusesExactly result (StyleFault.EmptyRange k)
        StyleFault.Memory (IsFirstFault bytes.now (StyleFault.EmptyRange k)) }
{
    read_bytes(alloc, bytes)
}

// The style that the bytes are, or why they are none.
fn read_bytes(alloc: Global, bytes: &[u8]) -> Result<Style, StyleFault>
    ensures { IsAnswer bytes.now result }
{
    let Ok(text) = std::str::from_utf8(bytes) else {
        return Err(StyleFault::NotToml);
    };
    match toml::table_from_str(alloc, text) {
        Ok(table) => read_table(alloc, &table),
        Err(error) => if error.is_memory() {
            Err(StyleFault::Memory)
        } else {
            Err(StyleFault::NotToml)
        },
    }
}
