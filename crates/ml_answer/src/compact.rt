//! Values as compact text.
ghost use Rattle.std.specs.Prelude.{◌≡◌, [], Some, false, IfOk};
ghost use Rattle.serde.specs.Event.{Log};
ghost use Rattle.serde_json.specs.Sent.{IsTextOf};
ghost use Rattle.serde_json.specs.View.{view};
ghost use Rattle.serde_json.specs.Written.{has_float, compact_text};

use ml_ratio::Seq;
use serde::Serialize;
use serde_json::Value;
use std::alloc::{AllocError, Global};

// The text of a value with no space between its parts. A float's digits are not specified, so a value
// that has one is not taken.
pub(crate) fn compact(alloc: Global, value: &Value) -> Result<Seq<u8>, AllocError>
    requires { has_float (view value.now) ≡ false }
    ensures { IfOk result (λ text. text ≡ compact_text (view value.now)) }
{
    let text = value.to_string(alloc)?;
    Ok(Seq::of_vec(text.into_bytes()))
}

// The text of what a value sends, with no space between its parts.
pub(crate) fn written<T: Serialize>(alloc: Global, value: &T) -> Result<Vec<u8>, AllocError>
    ensures { IfOk result
        (λ text. (log : Log) × T.writes value.now (Some []) log × IsTextOf log text.items) }
{
    match serde_json::to_vec(alloc, value) {
        Ok(text) => Ok(text),
        // of text and whole numbers nothing is refused unless memory runs out
        Err(_) => Err(AllocError),
    }
}
