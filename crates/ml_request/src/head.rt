//! Judges a request head.
ghost use Rattle.std.specs.Prelude.{◌≡◌, ◌≤◌, IfOk, IfSome, IfNone, length};
ghost use Rattle.httparse.specs.Grammar.{RequestHead};
ghost use Rattle.httparse.specs.Spans.{IsRequestAt, IsRequestWithin};
ghost use Rattle.ml_request.specs.Heads.{IsJudged, IsWholeHead, HasNoWholeHead};

use crate::fields::framing;
use crate::request::{Head, Refusal};
use httparse::Status;
use httparse::spans::{EMPTY_HEADER_SPAN, HeaderSpan, RequestSpans, parse_request};
use std::alloc::{AllocError, Global};

// The parts of the head that the bytes are, all of them.
fn whole_head(bytes: &[u8], headers: &mut [HeaderSpan; 64]) -> Option<RequestSpans>
    ensures head { IfSome result (λ spans. (h : RequestHead) × IsWholeHead 64 bytes.now h
        × IsRequestAt bytes.now headers.new spans h × IsRequestWithin bytes.now headers.new spans) }
    ensures none { IfNone result (HasNoWholeHead 64 bytes.now) }
{
    match parse_request(bytes, headers) {
        Ok(Status::Complete(spans)) if spans.len == bytes.len() => Some(spans),
        _ => None,
    }
}

/// How the bytes of a head are judged.
///
/// # Errors
/// Out of memory.
pub(crate) fn judge(alloc: Global, bytes: &[u8]) -> Result<Result<Head, Refusal>, AllocError>
    ensures { IfOk result (λ judged. IsJudged bytes.now judged) }
{
    let mut headers = [EMPTY_HEADER_SPAN; 64];
    let Some(spans) = whole_head(bytes, &mut headers) else {
        return Ok(Err(Refusal::Request));
    };
    let (fields, _) = headers.split_at(spans.headers);
    let target = spans.path.of(bytes);
    match framing(bytes, fields, target, spans.version) {
        Ok(framing) => Ok(Ok(Head {
            method: Vec::from_slice(alloc, spans.method.of(bytes))?,
            target: Vec::from_slice(alloc, target)?,
            framing,
        })),
        Err(refusal) => Ok(Err(refusal)),
    }
}
