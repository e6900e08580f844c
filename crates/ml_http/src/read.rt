//! Requests that change nothing.
ghost use Rattle.std.specs.Prelude.{IfOk, map};
ghost use Rattle.ml_http.specs.Routes.{pair_bytes};
ghost use Rattle.ml_http.specs.Step.{IsRead, IsRevReply};

use crate::kind::Kind;
use crate::query::Pair;
use crate::replies::json_reply;
use crate::reply::reply;
use crate::route::ReadRoute;
use crate::state::state_reply;
use crate::view::{json_view_reply, svg_view_reply};
use crate::why::why_reply;
use http::StatusCode;
use ml_answer::rev_json;
use ml_editor::Editor;
use std::alloc::{AllocError, Global};

/// The reply to a request that changes nothing.
pub(crate) fn read(
    alloc: Global,
    editor: &Editor,
    route: ReadRoute,
    closes: bool,
    pairs: &[Pair<'_>],
) -> Result<Vec<u8>, AllocError>
    ensures { IfOk result
        (λ bytes. IsRead route editor.now.state closes (map pair_bytes pairs.now) bytes.items) }
{
    match route {
        ReadRoute::View => json_view_reply(alloc, editor, closes, pairs),
        ReadRoute::Svg => svg_view_reply(alloc, editor, closes, pairs),
        ReadRoute::Why => why_reply(alloc, editor, closes, pairs),
        ReadRoute::Map => {
            let text = editor.export(alloc)?;
            reply(
                alloc,
                StatusCode::OK,
                Kind::GeoJson,
                None,
                closes,
                text.as_slice(),
            )
        }
        ReadRoute::Rev => rev_reply(alloc, editor, closes),
        ReadRoute::State => state_reply(alloc, editor, closes),
    }
}

// The revision, with the numbers of features and labels.
fn rev_reply(alloc: Global, editor: &Editor, closes: bool) -> Result<Vec<u8>, AllocError>
    ensures { IfOk result (λ bytes. IsRevReply editor.now.state closes bytes.items) }
{
    let text = rev_json(alloc, editor.rev(), editor.features(), editor.labels())?;
    json_reply(alloc, StatusCode::OK, closes, text.as_slice())
}
