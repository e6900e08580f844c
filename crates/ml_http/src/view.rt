//! Requests for the views of a map.
ghost use Rattle.std.specs.Prelude.{◌≡◌, ◌<◌, Ok, IfOk, map};
ghost use Rattle.ml_http.specs.Routes.{pair_bytes};
ghost use Rattle.ml_answer.specs.MapView.{json_body, svg_body};
ghost use Rattle.ml_http.specs.Step.{IsViewReply, view_name};
ghost use Rattle.ml_http.specs.declared.kind.Kind.TheVariants as kinds;

use crate::kind::Kind;
use crate::query::{Pair, view_asked};
use crate::replies::query_reply;
use crate::reply::reply;
use http::StatusCode;
use ml_answer::{view_json, view_svg};
use ml_editor::Editor;
use std::alloc::{AllocError, Global};

// The name of the query's word at this place.
fn view_name(place: usize) -> &'static str
    ensures { result.now ≡ view_name place }
{
    match place {
        0 => "cx",
        1 => "cy",
        2 => "w",
        3 => "h",
        _ => "s",
    }
}

/// A view as JSON, or which word of the query is wrong.
pub(crate) fn json_view_reply(
    alloc: Global,
    editor: &Editor,
    closes: bool,
    pairs: &[Pair<'_>],
) -> Result<Vec<u8>, AllocError>
    ensures { IfOk result (λ bytes. IsViewReply json_body kinds.Json editor.now.state closes
        (map pair_bytes pairs.now) bytes.items) }
{
    match view_asked(pairs) {
        Ok(view) => {
            let text = view_json(alloc, editor, &view)?;
            reply(
                alloc,
                StatusCode::OK,
                Kind::Json,
                None,
                closes,
                text.as_slice(),
            )
        }
        Err(place) => query_reply(alloc, closes, view_name(place)),
    }
}

/// A view as SVG, or which word of the query is wrong.
pub(crate) fn svg_view_reply(
    alloc: Global,
    editor: &Editor,
    closes: bool,
    pairs: &[Pair<'_>],
) -> Result<Vec<u8>, AllocError>
    ensures { IfOk result (λ bytes. IsViewReply svg_body kinds.Svg editor.now.state closes
        (map pair_bytes pairs.now) bytes.items) }
{
    match view_asked(pairs) {
        Ok(view) => {
            let text = view_svg(alloc, editor, &view)?;
            reply(
                alloc,
                StatusCode::OK,
                Kind::Svg,
                None,
                closes,
                text.as_slice(),
            )
        }
        Err(place) => query_reply(alloc, closes, view_name(place)),
    }
}
