//! The JSON text of a reason why a feature has no label.
ghost use Rattle.std.specs.Prelude.{◌≡◌, IfOk};
ghost use Rattle.serde_json.specs.View.{view};
ghost use Rattle.ml_answer.specs.Reason.{reason_word, reason_data, reason_text};

use crate::compact::compact;
use ml_label::Reason;
use ml_ratio::{Seq, Text};
use serde_json::{Value, json};
use std::alloc::{AllocError, Global};

/// The text of a reason why the feature with this id has no label, as
/// `{"id":"A","reason":"NoGeometry"}`, with no end of line.
///
/// # Errors
/// Out of memory.
pub fn reason_json(alloc: Global, id: &Text, reason: Reason) -> Result<Seq<u8>, AllocError>
    ensures { IfOk result (λ text. text ≡ reason_text id.now reason) }
{
    let value = reason_value(alloc, id, reason)?;
    compact(alloc, &value)
}

// The value of a reason.
fn reason_value(alloc: Global, id: &Text, reason: Reason) -> Result<Value, AllocError>
    ensures { IfOk result (λ value. view value ≡ reason_data id.now reason) }
{
    json!(in alloc; {"id": id.as_str(), "reason": reason_name(reason)})
}

// The name of a reason.
fn reason_name(reason: Reason) -> &'static str
    ensures { result.now ≡ reason_word reason }
{
    match reason {
        Reason::NoGeometry => "NoGeometry",
        Reason::NoClass => "NoClass",
        Reason::NoName => "NoName",
        Reason::TooWide => "TooWide",
    }
}
