//! The replies to what is refused before the map is asked, and to an edit that the rules of the map
//! refuse.
ghost use Rattle.std.specs.Prelude.{◌≡◌, ℕ, Some, codes, IfOk, string_bytes, ◌++◌};
ghost use Rattle.ml_http.specs.Replies.{json_reply, refusal_code, refusal_body, refusal_reply, no_route_reply, query_body, query_reply, fault_code, fault_reply};
ghost use Rattle.std.specs.Option.{option_map};

use crate::kind::Kind;
use crate::reply::reply;
use crate::route::NoRoute;
use http::StatusCode;
use ml_answer::fault_json;
use ml_editor::EditFault;
use ml_request::Refusal;
use std::alloc::{AllocError, Global};

/// A reply of JSON.
pub(crate) fn json_reply(
    alloc: Global,
    status: StatusCode,
    closes: bool,
    body: &[u8],
) -> Result<Vec<u8>, AllocError>
    ensures { IfOk result (λ bytes. bytes.items ≡ json_reply status closes body.now) }
{
    reply(alloc, status, Kind::Json, None, closes, body)
}

// The status of a refusal.
fn refusal_status(refusal: Refusal) -> StatusCode
    ensures { result ≡ refusal_code refusal }
{
    match refusal {
        Refusal::Head => StatusCode::REQUEST_HEADER_FIELDS_TOO_LARGE,
        Refusal::Request => StatusCode::BAD_REQUEST,
        Refusal::Coding => StatusCode::NOT_IMPLEMENTED,
        Refusal::Size => StatusCode::PAYLOAD_TOO_LARGE,
    }
}

// The body of a refusal.
fn refusal_body(refusal: Refusal) -> &'static str
    ensures { result.now ≡ refusal_body refusal }
{
    match refusal {
        Refusal::Head => "{\"error\":\"head\"}",
        Refusal::Request => "{\"error\":\"request\"}",
        Refusal::Coding => "{\"error\":\"coding\"}",
        Refusal::Size => "{\"error\":\"size\"}",
    }
}

/// The reply to what is refused before its target is looked at. It closes.
pub(crate) fn refusal_reply(alloc: Global, refusal: Refusal) -> Result<Vec<u8>, AllocError>
    ensures { IfOk result (λ bytes. bytes.items ≡ refusal_reply refusal) }
{
    json_reply(
        alloc,
        refusal_status(refusal),
        true,
        refusal_body(refusal).as_bytes(),
    )
}

/// The reply to a request for what there is not.
pub(crate) fn no_route_reply(
    alloc: Global,
    closes: bool,
    none: NoRoute,
) -> Result<Vec<u8>, AllocError>
    ensures { IfOk result (λ bytes. bytes.items ≡ no_route_reply closes none) }
{
    match none {
        NoRoute::Path => json_reply(
            alloc,
            StatusCode::NOT_FOUND,
            closes,
            b"{\"error\":\"path\"}",
        ),
        NoRoute::Method(allow) => reply(
            alloc,
            StatusCode::METHOD_NOT_ALLOWED,
            Kind::Json,
            Some(allow),
            closes,
            b"{\"error\":\"method\"}",
        ),
    }
}

/// The reply to a query of which this name is missing though it is needed, stands twice, or has a
/// wrong value.
pub(crate) fn query_reply(alloc: Global, closes: bool, name: &str) -> Result<Vec<u8>, AllocError>
    ensures { IfOk result (λ bytes. bytes.items ≡ query_reply closes name.now) }
{
    let body = query_body(alloc, name)?;
    json_reply(alloc, StatusCode::BAD_REQUEST, closes, body.as_bytes())
}

// The body that tells which name of the query is wrong.
fn query_body(alloc: Global, name: &str) -> Result<String, AllocError>
    ensures { IfOk result (λ text. string_bytes text ≡ query_body name.now) }
{
    format!(in alloc; "{{\"error\":\"query\",\"name\":\"{name}\"}}")
}

// The status of an edit that is refused; running out of memory is no refusal.
fn fault_status(fault: &EditFault) -> Option<StatusCode>
    ensures { result ≡ fault_code fault.now }
{
    match fault {
        EditFault::RevMoved(_) => Some(StatusCode::CONFLICT),
        EditFault::Memory => None,
        _ => Some(StatusCode::UNPROCESSABLE_ENTITY),
    }
}

/// The reply to an edit that is refused.
///
/// # Errors
/// Out of memory, also where that is why there is no edit.
pub(crate) fn fault_reply(
    alloc: Global,
    closes: bool,
    fault: &EditFault,
) -> Result<Vec<u8>, AllocError>
    ensures { IfOk result (λ bytes. (code : ℕ) × (fault_code fault.now ≡ Some code)
        × (bytes.items ≡ fault_reply closes code fault.now)) }
{
    let Some(status) = fault_status(fault) else {
        return Err(AllocError);
    };
    let body = fault_json(alloc, fault)?;
    json_reply(alloc, status, closes, body.as_slice())
}
