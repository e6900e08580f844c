//! The JSON text of a label's slot.
ghost use Rattle.std.specs.Prelude.{◌≡◌, IfOk};
ghost use Rattle.std.specs.Option.{option_copied};
ghost use Rattle.serde_json.specs.View.{view};
ghost use Rattle.ml_answer.specs.Slot.{id_data, slot_data, slot_text};

use crate::compact::compact;
use crate::values::ratio_value;
use ml_cone::Label;
use ml_ratio::{Ratio, Seq, Text};
use serde_json::{Value, json};
use std::alloc::{AllocError, Global};

/// The text of a label's slot, as `{"blocker":"A","id":"B","max":"1000/1","min":"0/1","until":"20/1"}`,
/// with no end of line.
///
/// `until` is where the label's active range ends, and `blocker` the id of the label that blocks it
/// there; with none it is written `null`.
///
/// # Errors
/// Out of memory.
pub fn slot_json(
    alloc: Global,
    label: &Label,
    until: Ratio,
    blocker: Option<&Text>,
) -> Result<Seq<u8>, AllocError>
    ensures { IfOk result (λ text. text ≡ slot_text label.now until (option_copied blocker.entry)) }
{
    let value = slot_value(alloc, label, until, blocker)?;
    compact(alloc, &value)
}

// The value of a label's slot.
fn slot_value(
    alloc: Global,
    label: &Label,
    until: Ratio,
    blocker: Option<&Text>,
) -> Result<Value, AllocError>
    ensures { IfOk result
        (λ value. view value ≡ slot_data label.now until (option_copied blocker.entry)) }
{
    let blocker = id_value(alloc, blocker)?;
    let max = ratio_value(alloc, label.max())?;
    let min = ratio_value(alloc, label.min())?;
    let until = ratio_value(alloc, until)?;
    json!(in alloc; {
        "blocker": blocker,
        "id": label.id().as_str(),
        "max": max,
        "min": min,
        "until": until
    })
}

// The value of an id, if there is one.
fn id_value(alloc: Global, id: Option<&Text>) -> Result<Value, AllocError>
    ensures { IfOk result (λ value. view value ≡ id_data (option_copied id.entry)) }
{
    match id {
        Some(id) => Value::try_from_str(alloc, id.as_str()),
        None => Ok(Value::Null),
    }
}
