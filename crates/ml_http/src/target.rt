//! The path and the query of a target, and what is asked for.
ghost use Rattle.std.specs.Prelude.{◌≡◌, ◌<◌, ◌==◌, IfSome, position, length};
ghost use Rattle.ml_http.specs.Routes.{path_of, query_of, route_of, by_get, by_edit, by_style};

use crate::kind::Allow;
use crate::route::{EditRoute, NoRoute, ReadRoute, Route};
use ml_request::Request;

/// What a request asks for.
pub(crate) fn route_asked(request: &Request) -> Result<Route, NoRoute>
    ensures { result ≡ route_of request.now.method (path_of request.now.target) }
{
    let (path, _) = parts(request.target());
    route(request.method(), path)
}

/// The query of a request.
pub(crate) fn query_asked(request: &Request) -> &[u8]
    ensures { result.now ≡ query_of request.now.target }
{
    let (_, query) = parts(request.target());
    query
}

// Where the query begins.
fn question_mark(target: &[u8]) -> Option<usize>
    ensures mark { result ≡ position (λ byte. byte == 63) target.now }
    ensures within { IfSome result (λ at. at < length target.now) }
{
    target.iter().position(|byte| *byte == b'?')
}

// The path and the query of a target: what stands before its first question mark, and what stands
// behind it.
fn parts(target: &[u8]) -> (&[u8], &[u8])
    ensures path { result.0.now ≡ path_of target.now }
    ensures query { result.1.now ≡ query_of target.now }
{
    match question_mark(target) {
        Some(at) => {
            let (path, _) = target.split_at(at);
            let (_, query) = target.split_at(at + 1);
            (path, query)
        }
        None => (target, b"".as_slice()),
    }
}

// What is asked for by a path that has GET alone.
fn by_get(method: &[u8], route: Route) -> Result<Route, NoRoute>
    ensures { result ≡ by_get method.now route }
{
    if method == b"GET".as_slice() {
        Ok(route)
    } else {
        Err(NoRoute::Method(Allow::Get))
    }
}

// What is asked for by the path of edits.
fn by_edit(method: &[u8]) -> Result<Route, NoRoute>
    ensures { result ≡ by_edit method.now }
{
    if method == b"POST".as_slice() {
        Ok(Route::Edit(EditRoute::Add))
    } else if method == b"PUT".as_slice() {
        Ok(Route::Edit(EditRoute::Replace))
    } else if method == b"DELETE".as_slice() {
        Ok(Route::Edit(EditRoute::Remove))
    } else {
        Err(NoRoute::Method(Allow::Edits))
    }
}

// What is asked for by the path of the style.
fn by_style(method: &[u8]) -> Result<Route, NoRoute>
    ensures { result ≡ by_style method.now }
{
    if method == b"PUT".as_slice() {
        Ok(Route::Edit(EditRoute::Restyle))
    } else {
        Err(NoRoute::Method(Allow::Put))
    }
}

// What a method and a path ask for. Both are compared byte for byte.
fn route(method: &[u8], path: &[u8]) -> Result<Route, NoRoute>
    ensures { result ≡ route_of method.now path.now }
{
    if path == b"/view".as_slice() {
        by_get(method, Route::Read(ReadRoute::View))
    } else if path == b"/svg".as_slice() {
        by_get(method, Route::Read(ReadRoute::Svg))
    } else if path == b"/why".as_slice() {
        by_get(method, Route::Read(ReadRoute::Why))
    } else if path == b"/map".as_slice() {
        by_get(method, Route::Read(ReadRoute::Map))
    } else if path == b"/rev".as_slice() {
        by_get(method, Route::Read(ReadRoute::Rev))
    } else if path == b"/state".as_slice() {
        by_get(method, Route::Read(ReadRoute::State))
    } else if path == b"/tile".as_slice() {
        by_get(method, Route::Tile)
    } else if path == b"/feature".as_slice() {
        by_edit(method)
    } else if path == b"/style".as_slice() {
        by_style(method)
    } else {
        Err(NoRoute::Path)
    }
}
