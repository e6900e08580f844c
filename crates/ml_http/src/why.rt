//! What is told of one feature: its label's slot, or why it has none.
ghost use Rattle.std.specs.Prelude.{◌≡◌, Option, IfOk, IfSome, map};
ghost use Rattle.std.specs.Option.{option_copied};
ghost use Rattle.ml_answer.specs.Fault.{fault_text};
ghost use Rattle.ml_editor.specs.declared.fault.EditFault.TheVariants as edit_faults;
ghost use Rattle.ml_http.specs.Replies.{json_reply};
ghost use Rattle.ml_http.specs.Routes.{pair_bytes};
ghost use Rattle.ml_http.specs.Step.{IsIdOf, IsSlotText, IsStandingReply, IsWhyReply};
ghost use Rattle.ml_editor.specs.declared.standing.Standing.{Standing};
ghost use Rattle.ml_store.specs.Rows.{IsLive, IsNumberOf};

use crate::query::{Pair, id_asked};
use crate::replies::{json_reply, query_reply};
use http::StatusCode;
use ml_answer::{fault_json, reason_json, slot_json};
use ml_editor::{EditFault, Editor, Standing};
use ml_ratio::{Seq, Text};
use std::alloc::{AllocError, Global};

/// What is told of the feature with the id that the query gives.
pub(crate) fn why_reply(
    alloc: Global,
    editor: &Editor,
    closes: bool,
    pairs: &[Pair<'_>],
) -> Result<Vec<u8>, AllocError>
    ensures { IfOk result
        (λ bytes. IsWhyReply editor.now.state closes (map pair_bytes pairs.now) bytes.items) }
{
    match id_asked(pairs) {
        Some(id) => {
            let id = Text::of(alloc, id)?;
            standing_reply(alloc, editor, closes, &id)
        }
        None => query_reply(alloc, closes, "id"),
    }
}

// What is told of the feature with this id.
fn standing_reply(
    alloc: Global,
    editor: &Editor,
    closes: bool,
    id: &Text,
) -> Result<Vec<u8>, AllocError>
    ensures { IfOk result (λ bytes. (standing : Option Standing)
        × IsStandingReply editor.now.state closes id.now standing bytes.items) }
{
    match editor.standing(id) {
        Some(Standing::Labelled(number)) => {
            let text = slot_of(alloc, editor, id, number)?;
            json_reply(alloc, StatusCode::OK, closes, text.as_slice())
        }
        Some(Standing::Unlabelled(reason)) => {
            let text = reason_json(alloc, id, reason)?;
            json_reply(alloc, StatusCode::OK, closes, text.as_slice())
        }
        None => unknown_reply(alloc, closes, id),
    }
}

// The reply where no feature has this id.
fn unknown_reply(alloc: Global, closes: bool, id: &Text) -> Result<Vec<u8>, AllocError>
    ensures { IfOk result
        (λ bytes. bytes.items ≡ json_reply 404 closes (fault_text (edit_faults.Unknown id.now))) }
{
    let unknown = EditFault::Unknown(id.copy()?);
    let text = fault_json(alloc, &unknown)?;
    json_reply(alloc, StatusCode::NOT_FOUND, closes, text.as_slice())
}

// The slot of the label with this id and this number.
fn slot_of(alloc: Global, editor: &Editor, id: &Text, number: u32) -> Result<Seq<u8>, AllocError>
    requires { IsNumberOf editor.now.engine.rows id.now number }
    ensures { IfOk result (IsSlotText editor.now.state id.now) }
{
    let slot = editor.slot_at(number);
    let blocker = blocker_of(editor, slot.blocker);
    slot_json(alloc, editor.label_at(number), slot.until, blocker)
}

// The id of the label with this number, if there is a number.
fn blocker_of(editor: &Editor, number: Option<u32>) -> Option<&Text>
    requires { IfSome number (IsLive editor.now.engine.rows) }
    ensures { IsIdOf editor.now.engine.rows number (option_copied result) }
{
    match number {
        Some(number) => Some(editor.label_at(number).id()),
        None => None,
    }
}
