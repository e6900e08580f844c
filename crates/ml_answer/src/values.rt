//! The small values that others are made of.
ghost use Rattle.std.specs.Prelude.{◌≡◌, IfOk, string_bytes};
ghost use Rattle.std.specs.Cow.{cow_str_bytes};
ghost use Rattle.std.specs.List.{concat};
ghost use Rattle.serde_json.specs.Data.{string};
ghost use Rattle.serde_json.specs.View.{view};
ghost use Rattle.ml_ratio.specs.Ratio.{ratio_text};

use ml_ratio::{Ratio, Text};
use serde_json::Value;
use std::alloc::{AllocError, Global};
use std::borrow::CowStr;

// The text of pieces, one behind the other. A single piece is lent.
pub(crate) fn text_of(alloc: Global, pieces: &[Text]) -> Result<CowStr<'_, Global>, AllocError>
    ensures { IfOk result (λ text. cow_str_bytes text ≡ concat pieces.now) }
{
    match pieces {
        [piece] => Ok(CowStr::Borrowed(piece.as_str())),
        _ => Ok(CowStr::Owned(joined(alloc, pieces)?)),
    }
}

// Pieces of text, one behind the other.
fn joined(alloc: Global, pieces: &[Text]) -> Result<String, AllocError>
    ensures { IfOk result (λ text. string_bytes text ≡ concat pieces.now) }
{
    let mut text = String::new(alloc);
    for piece in pieces {
        text.push_str(piece.as_str())?;
    }
    Ok(text)
}

// The value of a fraction, which is its text.
pub(crate) fn ratio_value(alloc: Global, ratio: Ratio) -> Result<Value, AllocError>
    ensures { IfOk result (λ value. view value ≡ string (ratio_text ratio)) }
{
    let text = ratio.text(alloc)?;
    Value::try_from_str(alloc, text.as_str())
}
