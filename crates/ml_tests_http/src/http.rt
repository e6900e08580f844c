//! Connections: with ample memory each request has its reply, byte for byte. In the cases `~` stands for
//! CR LF.
ghost use Rattle.std.specs.Prelude.{◌≡◌, ◌<◌, []};

use crate::cases::{Subject, each_holds, wire};
use ml_editor::Editor;
use ml_geojson::read_collection;
use ml_http::{ConnEnd, MEMORY_REPLY, serve_link};
use ml_io::{MemSink, MemSource};
use ml_ratio::Steps;
use ml_style::{SAMPLE, read_style};
use ml_tile::Tiles;
use ml_watch::{Crowd, MemWatcher};
use std::alloc::Global;
use std::marker::Brand;
use std::process::Abort;
use std::sync::ledger::{Blank, Ledger};

/// The same style, with free space about the labels of its first class.
const STYLE_WITH_MARGIN: &str = r#"version = 2
name = "name"
rank = "pop"

[fonts.sans]
units = 1000
default = 500
advances = { "i" = 250, "\u0301" = 0 }

[[class]]
geometry = "point"
key = "place"
value = "city"
font = "sans"
size = 20
priority = 1
min = "0"
max = "1000"
margin = 5

[[class]]
geometry = "point"
font = "sans"
size = 20
priority = 2
min = "0"
max = "1000"

[[class]]
geometry = "line"
font = "sans"
size = 20
priority = 3
ref = 1000
min = "0"
max = "2000"

[[class]]
geometry = "area"
font = "sans"
size = 20
priority = 4
min = "0"
max = "100000"
"#;

/// A map as a desktop GIS writes it.
const SAMPLE_MAP: &str = r#"{
"type": "FeatureCollection",
"name": "sample",
"crs": { "type": "name", "properties": { "name": "urn:ogc:def:crs:OGC:1.3:CRS84" } },
"bbox": [ 0.0, 0.0, 8.5416942, 47.3768861 ],
"features": [
{ "type": "Feature", "properties": { "name": "Zürich", "pop": 402762, "place": "city" }, "geometry": { "type": "Point", "coordinates": [ 8.5416942, 47.3768861, 408.0 ] } },
{ "type": "Feature", "properties": { "name": "Inseln" }, "geometry": { "type": "MultiPolygon", "coordinates": [ [ [ [ 0.0, 0.0 ], [ 1.0, 0.0 ], [ 1.0, 1.0 ], [ 0.0, 1.0 ], [ 0.0, 0.0 ] ] ], [ [ [ 2.0, 0.0 ], [ 4.0, 0.0 ], [ 4.0, 2.0 ], [ 2.0, 2.0 ], [ 2.0, 0.0 ] ] ] ] } },
{ "type": "Feature", "properties": { "name": "Sihl" }, "geometry": { "type": "LineString", "coordinates": [ [ 0.0, 0.0 ], [ 0.02, 0.01 ], [ 0.04, 0.0 ] ] } },
{ "type": "Feature", "properties": { "name": "leer", "pop": null }, "geometry": null }
]
}"#;

const NO_FEATURES: &str = r#"{"type":"FeatureCollection","features":[]}"#;

const THREE_POINTS: &str = r#"{"type":"FeatureCollection","features":[
{"type":"Feature","id":"A","geometry":{"type":"Point","coordinates":[0,0]},"properties":{"name":"ab","place":"city","pop":3}},
{"type":"Feature","id":"B","geometry":{"type":"Point","coordinates":[0.00004,0]},"properties":{"name":"ab","place":"city","pop":2}},
{"type":"Feature","id":"C","geometry":{"type":"Point","coordinates":[0.00008,0]},"properties":{"name":"ab","place":"city","pop":1}}]}"#;

/// What a connection got, how it ended, and the map's revision afterwards; what its watcher heard, and
/// how often a tile was held that was asked for, or was not kept because memory ran out.
#[derive(Drop)]
struct Exchange {
    sink: MemSink,
    end: ConnEnd,
    rev: u64,
    heard: Option<u64>,
    hits: u64,
    skips: u64,
}

/// Whether the bytes are the text with each `~` as CR LF.
fn is_wire(rt: &impl Abort, alloc: Global, bytes: &[u8], text: &str) -> bool {
    bytes == wire(rt, alloc, text).as_bytes()
}

fn editor_of(rt: &impl Abort, alloc: Global, map: &str) -> Editor {
    let style = read_style(alloc, SAMPLE.as_bytes()).expect(rt, "a style");
    let features = read_collection(alloc, map.as_bytes()).expect(rt, "a map");
    Editor::load(alloc, style, features).expect(rt, "memory")
}

fn serve_counted<L: Ledger>(
    blank: Blank,
    alloc: Global,
    editor: &mut Editor,
    source: &mut MemSource,
    sink: &mut MemSink,
    crowd: &mut Crowd<MemWatcher>,
    tiles: &mut Tiles,
) -> ConnEnd
    requires none { tiles.old.tiles ≡ [] }
    requires name { blank.name ≡ L.name }
    requires parts { blank.parts ≡ L.parts }
    requires some { 0 < blank.parts }
{
    let mut steps: Steps<L> = Steps::new(blank);
    serve_link(alloc, editor, source, sink, crowd, tiles, &mut steps)
}

/// One watcher, who does not fail.
fn one_watcher(rt: &impl Abort, alloc: Global) -> Crowd<MemWatcher> {
    let mut watchers = Vec::new(alloc);
    watchers
        .push(MemWatcher::new(alloc, 100, Vec::new(alloc)).expect(rt, "memory"))
        .expect(rt, "memory");
    Crowd::new(watchers)
}

/// Serves one connection over this map, with one watcher.
fn served_by(
    rt: &impl Abort,
    alloc: Global,
    map: &str,
    mut source: MemSource,
    mut sink: MemSink,
) -> Exchange {
    let mut editor = editor_of(rt, alloc, map);
    let mut crowd = one_watcher(rt, alloc);
    let mut tiles = Tiles::new(alloc).expect(rt, "memory");
    let end = serve_counted::<Brand>(
        Blank::new(1),
        alloc,
        &mut editor,
        &mut source,
        &mut sink,
        &mut crowd,
        &mut tiles,
    );
    Exchange {
        sink,
        end,
        rev: editor.rev(),
        heard: crowd.heard(0),
        hits: tiles.hits(),
        skips: tiles.skips(),
    }
}

/// Serves one connection over this map, in pieces of at most `cut` bytes.
fn served(rt: &impl Abort, alloc: Global, map: &str, input: &[u8], cut: usize) -> Exchange
    requires { 0 < cut }
{
    let source = MemSource::new(
        Vec::from_slice(alloc, input).expect(rt, "memory"),
        cut,
        Vec::new(alloc),
    );
    let sink = MemSink::new(alloc, 400000, Vec::new(alloc)).expect(rt, "memory");
    served_by(rt, alloc, map, source, sink)
}

/// Whether requests over this map, in pieces of at most `cut` bytes, get these replies.
fn is_answered(
    rt: &impl Abort,
    alloc: Global,
    map: &str,
    requests: &str,
    replies: &str,
    cut: usize,
) -> bool
    requires { 0 < cut }
{
    let requests = wire(rt, alloc, requests);
    let got = served(rt, alloc, map, requests.as_bytes(), cut);
    is_wire(rt, alloc, got.sink.bytes(), replies)
}

/// An edit, a view, a removal, the view again.
const EDITS: &str =
    r#"POST /feature HTTP/1.1~Host: a~Content-Length: 117~~{"type":"Feature","id":"A","geometry":{"type":"Point","coordinates":[0,0]},"properties":{"name":"ab","place":"city"}}GET /view?cx=0&cy=0&w=1024&h=768&s=1 HTTP/1.1~Host: a~~DELETE /feature?id=A HTTP/1.1~Host: a~~GET /view?cx=0&cy=0&w=1024&h=768&s=1 HTTP/1.1~Host: a~~"#;

const EDITS_REPLIES: &str =
    r#"HTTP/1.1 200 OK~Content-Type: application/json~Content-Length: 71~~{"changes":[{"after":["0/1","1000/1"],"before":null,"id":"A"}],"rev":1}HTTP/1.1 200 OK~Content-Type: application/json~Content-Length: 103~~{"labels":[{"at":[0,0],"boxes":[[-10,-10,10,10]],"id":"A","text":"ab","until":"1000/1"}],"scale":"1/1"}HTTP/1.1 200 OK~Content-Type: application/json~Content-Length: 71~~{"changes":[{"after":null,"before":["0/1","1000/1"],"id":"A"}],"rev":2}HTTP/1.1 200 OK~Content-Type: application/json~Content-Length: 27~~{"labels":[],"scale":"1/1"}"#;

/// Whether the edits were served whole.
fn is_whole(got: &Exchange) -> bool {
    got.end == ConnEnd::Closed && got.rev == 2 && got.heard == Some(2)
}

/// Whether the edits are answered in pieces of at most `cut` bytes.
fn edits_are_answered(rt: &impl Abort, alloc: Global, cut: usize) -> bool
    requires { 0 < cut }
{
    let requests = wire(rt, alloc, EDITS);
    let got = served(rt, alloc, NO_FEATURES, requests.as_bytes(), cut);
    is_whole(&got) && is_wire(rt, alloc, got.sink.bytes(), EDITS_REPLIES)
}

#[test]
fn edits_and_views_are_answered_in_any_pieces(rt: HostRuntime) {
    let requests = wire(&rt, rt.alloc(), EDITS);
    for cut in 1..requests.len() + 1 {
        assert!(rt; edits_are_answered(&rt, rt.alloc(), cut), "{cut}");
    }
}

/// Whether the edits end so, with a first part of their replies, where the calls of the source and of
/// the sink that are listed fail.
fn edits_end(
    rt: &impl Abort,
    alloc: Global,
    fails_in: Vec<u64>,
    fails_out: Vec<u64>,
    end: ConnEnd,
) -> bool {
    let source = MemSource::new(wire(rt, alloc, EDITS).into_bytes(), 7, fails_in);
    let sink = MemSink::new(alloc, 400000, fails_out).expect(rt, "memory");
    let got = served_by(rt, alloc, NO_FEATURES, source, sink);
    let replies = wire(rt, alloc, EDITS_REPLIES);
    got.end == end && replies.as_bytes().starts_with(got.sink.bytes())
}

#[test]
fn a_failing_source_leaves_a_first_part(rt: HostRuntime) {
    let alloc = rt.alloc();
    for call in 0..12u64 {
        let fails = vec![in alloc; call].expect(&rt, "memory");
        assert!(rt;
            edits_end(&rt, alloc, fails, Vec::new(alloc), ConnEnd::ReadFault),
            "{call}"
        );
    }
}

#[test]
fn a_failing_sink_leaves_a_first_part(rt: HostRuntime) {
    let alloc = rt.alloc();
    for call in 0..4u64 {
        let fails = vec![in alloc; call].expect(&rt, "memory");
        assert!(rt;
            edits_end(&rt, alloc, Vec::new(alloc), fails, ConnEnd::WriteFault),
            "{call}"
        );
    }
}

/// A reply to which a further request may follow.
const OPEN: &str =
    r#"HTTP/1.1 200 OK~Content-Type: application/json~Content-Length: 33~~{"features":0,"labels":0,"rev":0}"#;

/// The reply to the last request.
const LAST: &str =
    r#"HTTP/1.1 200 OK~Content-Type: application/json~Content-Length: 33~Connection: close~~{"features":0,"labels":0,"rev":0}"#;

/// The replies to 999 requests and to a last one.
fn last_replies(rt: &impl Abort, alloc: Global) -> String {
    let mut replies = OPEN.repeat(alloc, 999).expect(rt, "memory");
    replies.push_str(LAST).expect(rt, "memory");
    replies
}

/// Whether a connection of 1,001 requests is shut behind the reply to the 1,000th.
fn the_last_is_answered(rt: &impl Abort, alloc: Global) -> bool {
    let requests = "GET /rev HTTP/1.1\r\nHost: a\r\n\r\n"
        .repeat(alloc, 1001)
        .expect(rt, "memory");
    let got = served(rt, alloc, NO_FEATURES, requests.as_bytes(), 9999);
    let replies = last_replies(rt, alloc);
    got.end == ConnEnd::Shut && is_wire(rt, alloc, got.sink.bytes(), replies.as_str())
}

#[test]
fn the_last_request_of_a_connection_closes(rt: HostRuntime) {
    assert!(rt; the_last_is_answered(&rt, rt.alloc()));
}

/// Heads that are refused, paths and methods that there are not, queries that are wrong.
const REFUSALS: &str =
    r#"GET /rev HTTP/1.1~Host: a~Transfer-Encoding: chunked~~ => HTTP/1.1 501 Not Implemented~Content-Type: application/json~Content-Length: 18~Connection: close~~{"error":"coding"}
GET /rev HTTP/1.1~~ => HTTP/1.1 400 Bad Request~Content-Type: application/json~Content-Length: 19~Connection: close~~{"error":"request"}
GET /rev HTTP/1.1~Host: a~Host: b~~ => HTTP/1.1 400 Bad Request~Content-Type: application/json~Content-Length: 19~Connection: close~~{"error":"request"}
GET http://a/rev HTTP/1.1~Host: a~~ => HTTP/1.1 400 Bad Request~Content-Type: application/json~Content-Length: 19~Connection: close~~{"error":"request"}
GET /rev HTTP/1.1~Host: a~Content-Length: 1048577~~ => HTTP/1.1 413 Content Too Large~Content-Type: application/json~Content-Length: 16~Connection: close~~{"error":"size"}
GET /rev HTTP/1.1~Host: a~Content-Length: 00000000005~~ => HTTP/1.1 400 Bad Request~Content-Type: application/json~Content-Length: 19~Connection: close~~{"error":"request"}
GET /rev HTTP/1.1~Host: a~Content-Length: 0~Content-Length: 0~~ => HTTP/1.1 400 Bad Request~Content-Type: application/json~Content-Length: 19~Connection: close~~{"error":"request"}
~~ => HTTP/1.1 400 Bad Request~Content-Type: application/json~Content-Length: 19~Connection: close~~{"error":"request"}
~GET /rev HTTP/1.1~Host: a~~ => HTTP/1.1 200 OK~Content-Type: application/json~Content-Length: 33~~{"features":0,"labels":0,"rev":0}
PUT /view HTTP/1.1~Host: a~~ => HTTP/1.1 405 Method Not Allowed~Content-Type: application/json~Content-Length: 18~Allow: GET~~{"error":"method"}
HEAD /rev HTTP/1.1~Host: a~~ => HTTP/1.1 405 Method Not Allowed~Content-Type: application/json~Content-Length: 18~Allow: GET~~{"error":"method"}
GET /feature HTTP/1.1~Host: a~~ => HTTP/1.1 405 Method Not Allowed~Content-Type: application/json~Content-Length: 18~Allow: POST, PUT, DELETE~~{"error":"method"}
GET /style HTTP/1.1~Host: a~~ => HTTP/1.1 405 Method Not Allowed~Content-Type: application/json~Content-Length: 18~Allow: PUT~~{"error":"method"}
GET /x HTTP/1.1~Host: a~~ => HTTP/1.1 404 Not Found~Content-Type: application/json~Content-Length: 16~~{"error":"path"}
GET /view?cx=0 HTTP/1.1~Host: a~~ => HTTP/1.1 400 Bad Request~Content-Type: application/json~Content-Length: 29~~{"error":"query","name":"cy"}
GET /view?cx=0&cx=0&cy=0&w=2&h=2&s=1 HTTP/1.1~Host: a~~ => HTTP/1.1 400 Bad Request~Content-Type: application/json~Content-Length: 29~~{"error":"query","name":"cx"}
GET /view?cx=%30&cy=0&w=2&h=2&s=1%2F1&x=y HTTP/1.1~Host: a~~ => HTTP/1.1 200 OK~Content-Type: application/json~Content-Length: 27~~{"labels":[],"scale":"1/1"}
GET /tile?z=22 HTTP/1.1~Host: a~~ => HTTP/1.1 400 Bad Request~Content-Type: application/json~Content-Length: 28~~{"error":"query","name":"z"}
GET /tile?z=21&i=1&j=0 HTTP/1.1~Host: a~~ => HTTP/1.1 400 Bad Request~Content-Type: application/json~Content-Length: 28~~{"error":"query","name":"i"}
GET /tile?z=21&i=0&j=-2 HTTP/1.1~Host: a~~ => HTTP/1.1 400 Bad Request~Content-Type: application/json~Content-Length: 28~~{"error":"query","name":"j"}
GET /tile?z=21&i=0&j=-1 HTTP/1.1~Host: a~~ => HTTP/1.1 200 OK~Content-Type: application/json~Content-Length: 33~~{"labels":[],"scale":"2097152/1"}
POST /tile HTTP/1.1~Host: a~~ => HTTP/1.1 405 Method Not Allowed~Content-Type: application/json~Content-Length: 18~Allow: GET~~{"error":"method"}
GET /why HTTP/1.1~Host: a~~ => HTTP/1.1 400 Bad Request~Content-Type: application/json~Content-Length: 29~~{"error":"query","name":"id"}
GET /why?id= HTTP/1.1~Host: a~~ => HTTP/1.1 404 Not Found~Content-Type: application/json~Content-Length: 27~~{"error":"Unknown","id":""}
POST /feature?rev= HTTP/1.1~Host: a~~ => HTTP/1.1 400 Bad Request~Content-Type: application/json~Content-Length: 30~~{"error":"query","name":"rev"}
GET /rev HTTP/1.0~~ => HTTP/1.1 200 OK~Content-Type: application/json~Content-Length: 33~Connection: close~~{"features":0,"labels":0,"rev":0}
GET /rev HTTP/1.1~host: 127.0.0.1:47100~User-Agent: curl/8.5.0~Accept: */*~~ => HTTP/1.1 200 OK~Content-Type: application/json~Content-Length: 33~~{"features":0,"labels":0,"rev":0}
GET /rev HTTP/1.1~Host: a~CONNECTION: x, Close ~~GET /rev HTTP/1.1~Host: a~~ => HTTP/1.1 200 OK~Content-Type: application/json~Content-Length: 33~Connection: close~~{"features":0,"labels":0,"rev":0}
GET /map HTTP/1.1~Host: a~~ => HTTP/1.1 200 OK~Content-Type: application/geo+json~Content-Length: 42~~{"type":"FeatureCollection","features":[]}
POST /feature HTTP/1.1~Host: a~Content-Length: 5~~1234 => "#;

/// Requests over a map without features, and their replies.
struct OverNothing;

impl Subject for OverNothing {
    fn holds(rt: &impl Abort, alloc: Global, input: &str, want: &str) -> bool {
        is_answered(rt, alloc, NO_FEATURES, input, want, 7)
    }
}

#[test]
fn what_there_is_not_is_refused(rt: HostRuntime) {
    each_holds::<OverNothing>(&rt, rt.alloc(), REFUSALS)
}

/// Bodies that are no features, and what they are answered; `-` stands for an empty body.
const BODIES: &str = r#"- => {"at":0,"error":"NotJson"}
[[[[[[[[[[[[[[[[[[[[[[[[[[[[[[[[[[[[[[[[[[[[[[[[[[[[[[[[[[[[[[[[[ => {"at":64,"error":"Deep"}
[] => {"error":"NotFeature"}
{"type":"Feature"} => {"error":"NoId"}
{"type":"Feature","id":"A","geometry":{"type":"Point","coordinates":[1]}} => {"error":"BadGeometry"}
{"type":"Feature","id":"A","geometry":{"type":"Point","coordinates":[201,0]}} => {"error":"OutOfRange"}
{"type":"Feature","id":"A","geometry":{"type":"Polygon","coordinates":[[[0,0],[1,0]]]}} => {"error":"ShortRing"}"#;

/// The request to put in the feature of this body.
fn request_with(rt: &impl Abort, alloc: Global, body: &str) -> String {
    let size = body.len();
    format!(in alloc; "POST /feature HTTP/1.1~Host: a~Content-Length: {size}~~{body}").expect(
        rt, "memory",
    )
}

/// The reply of this body that refuses a feature.
fn refusal_with(rt: &impl Abort, alloc: Global, body: &str) -> String {
    let size = body.len();
    format!(in alloc;
        "HTTP/1.1 422 Unprocessable Content~Content-Type: application/json~Content-Length: {size}~~{body}"
    ).expect(rt, "memory")
}

/// Bodies, and those of the replies that refuse them.
struct OfBody;

impl Subject for OfBody {
    fn holds(rt: &impl Abort, alloc: Global, input: &str, want: &str) -> bool {
        let body = if input == "-" { "" } else { input };
        let request = request_with(rt, alloc, body);
        let reply = refusal_with(rt, alloc, want);
        is_answered(rt, alloc, NO_FEATURES, request.as_str(), reply.as_str(), 7)
    }
}

#[test]
fn bodies_that_are_no_features_are_refused(rt: HostRuntime) {
    each_holds::<OfBody>(&rt, rt.alloc(), BODIES)
}

/// Whether bytes over a map without features, in one piece, get these replies.
fn is_replied(rt: &impl Abort, alloc: Global, input: &[u8], replies: &str) -> bool {
    let got = served(rt, alloc, NO_FEATURES, input, 9999);
    is_wire(rt, alloc, got.sink.bytes(), replies)
}

/// The reply to a body of one byte that is no text.
const NO_TEXT: &str =
    r#"HTTP/1.1 422 Unprocessable Content~Content-Type: application/json~Content-Length: 26~~{"at":0,"error":"NotJson"}"#;

#[test]
fn a_body_that_is_no_text_is_refused(rt: HostRuntime) {
    let input = b"POST /feature HTTP/1.1\r\nHost: a\r\nContent-Length: 1\r\n\r\n\xff";
    assert!(rt; is_replied(&rt, rt.alloc(), input, NO_TEXT));
}

/// The reply to a head of 65 fields.
const NO_REQUEST: &str =
    r#"HTTP/1.1 400 Bad Request~Content-Type: application/json~Content-Length: 19~Connection: close~~{"error":"request"}"#;

/// A head of so many fields and a host.
fn head_of(rt: &impl Abort, alloc: Global, count: usize) -> String {
    let fields = "x: y\r\n".repeat(alloc, count).expect(rt, "memory");
    format!(in alloc; "GET /rev HTTP/1.1\r\nHost: a\r\n{fields}\r\n").expect(rt, "memory")
}

#[test]
fn a_head_of_65_fields_is_refused(rt: HostRuntime) {
    let input = head_of(&rt, rt.alloc(), 64);
    assert!(rt; is_replied(&rt, rt.alloc(), input.as_bytes(), NO_REQUEST));
}

#[test]
fn lines_that_end_with_a_line_feed_alone_are_no_head(rt: HostRuntime) {
    let input = b"GET /rev HTTP/1.1\nHost: a\n\n";
    assert!(rt; is_replied(&rt, rt.alloc(), input, ""));
}

/// Whether a connection of so many letters is closed with this reply.
fn letters_get(rt: &impl Abort, alloc: Global, count: usize, reply: &str) -> bool {
    let letters = "a".repeat(alloc, count).expect(rt, "memory");
    let got = served(rt, alloc, NO_FEATURES, letters.as_bytes(), 100);
    got.end == ConnEnd::Closed && is_wire(rt, alloc, got.sink.bytes(), reply)
}

/// The reply to a head that is too long.
const LONG_HEAD: &str =
    r#"HTTP/1.1 431 Request Header Fields Too Large~Content-Type: application/json~Content-Length: 16~Connection: close~~{"error":"head"}"#;

#[test]
fn a_head_has_a_limit(rt: HostRuntime) {
    assert!(rt; letters_get(&rt, rt.alloc(), 16384, LONG_HEAD));
    assert!(rt; letters_get(&rt, rt.alloc(), 16383, ""));
}

/// The reply where memory is wanting.
const NO_MEMORY: &str =
    r#"HTTP/1.1 503 Service Unavailable~Content-Type: application/json~Content-Length: 18~Connection: close~~{"error":"memory"}"#;

#[test]
fn the_memory_reply_is_a_reply(rt: HostRuntime) {
    assert!(rt; is_wire(&rt, rt.alloc(), MEMORY_REPLY, NO_MEMORY));
}

/// Requests over three points: what is refused of an edit, a label's slot, a removal that changes others.
const POINTS: &str =
    r#"GET /why?id=B HTTP/1.1~Host: a~~ => HTTP/1.1 200 OK~Content-Type: application/json~Content-Length: 66~~{"blocker":"A","id":"B","max":"1000/1","min":"0/1","until":"20/1"}
GET /why?id=Z HTTP/1.1~Host: a~~ => HTTP/1.1 404 Not Found~Content-Type: application/json~Content-Length: 28~~{"error":"Unknown","id":"Z"}
POST /feature?rev=1 HTTP/1.1~Host: a~Content-Length: 1~~x => HTTP/1.1 409 Conflict~Content-Type: application/json~Content-Length: 28~~{"error":"RevMoved","rev":0}
POST /feature?rev=0 HTTP/1.1~Host: a~Content-Length: 1~~x => HTTP/1.1 422 Unprocessable Content~Content-Type: application/json~Content-Length: 26~~{"at":0,"error":"NotJson"}
DELETE /feature?id=Z HTTP/1.1~Host: a~~ => HTTP/1.1 422 Unprocessable Content~Content-Type: application/json~Content-Length: 28~~{"error":"Unknown","id":"Z"}
DELETE /feature?id=A&rev=0 HTTP/1.1~Host: a~~ => HTTP/1.1 200 OK~Content-Type: application/json~Content-Length: 189~~{"changes":[{"after":null,"before":["0/1","1000/1"],"id":"A"},{"after":["0/1","1000/1"],"before":["0/1","20/1"],"id":"B"},{"after":["0/1","20/1"],"before":["0/1","40/1"],"id":"C"}],"rev":1}
PUT /style HTTP/1.1~Host: a~Content-Length: 11~~version = 3 => HTTP/1.1 422 Unprocessable Content~Content-Type: application/json~Content-Length: 19~~{"error":"Version"}
PUT /style?rev=7 HTTP/1.1~Host: a~Content-Length: 11~~version = 3 => HTTP/1.1 409 Conflict~Content-Type: application/json~Content-Length: 28~~{"error":"RevMoved","rev":0}"#;

/// Requests over three points, and their replies.
struct OverPoints;

impl Subject for OverPoints {
    fn holds(rt: &impl Abort, alloc: Global, input: &str, want: &str) -> bool {
        is_answered(rt, alloc, THREE_POINTS, input, want, 7)
    }
}

#[test]
fn edits_over_labels_in_conflict(rt: HostRuntime) {
    each_holds::<OverPoints>(&rt, rt.alloc(), POINTS)
}

/// A feature, and tiles that show it and do not. The first is asked for again, and again after the feature
/// went; the second stays held.
const TILES: &str =
    r#"POST /feature HTTP/1.1~Host: a~Content-Length: 117~~{"type":"Feature","id":"A","geometry":{"type":"Point","coordinates":[0,0]},"properties":{"name":"ab","place":"city"}}GET /tile?z=0&i=0&j=0 HTTP/1.1~Host: a~~GET /tile?z=0&i=1&j=0 HTTP/1.1~Host: a~~GET /tile?z=0&i=0&j=0 HTTP/1.1~Host: a~~"#;

const TILES_REPLIES: &str =
    r#"HTTP/1.1 200 OK~Content-Type: application/json~Content-Length: 71~~{"changes":[{"after":["0/1","1000/1"],"before":null,"id":"A"}],"rev":1}HTTP/1.1 200 OK~Content-Type: application/json~Content-Length: 103~~{"labels":[{"at":[0,0],"boxes":[[-10,-10,10,10]],"id":"A","text":"ab","until":"1000/1"}],"scale":"1/1"}HTTP/1.1 200 OK~Content-Type: application/json~Content-Length: 27~~{"labels":[],"scale":"1/1"}HTTP/1.1 200 OK~Content-Type: application/json~Content-Length: 103~~{"labels":[{"at":[0,0],"boxes":[[-10,-10,10,10]],"id":"A","text":"ab","until":"1000/1"}],"scale":"1/1"}"#;

const TILES_AFTER: &str =
    r#"DELETE /feature?id=A HTTP/1.1~Host: a~~GET /tile?z=0&i=0&j=0 HTTP/1.1~Host: a~~GET /tile?z=0&i=1&j=0 HTTP/1.1~Host: a~~"#;

const TILES_AFTER_REPLIES: &str =
    r#"HTTP/1.1 200 OK~Content-Type: application/json~Content-Length: 71~~{"changes":[{"after":null,"before":["0/1","1000/1"],"id":"A"}],"rev":2}HTTP/1.1 200 OK~Content-Type: application/json~Content-Length: 27~~{"labels":[],"scale":"1/1"}HTTP/1.1 200 OK~Content-Type: application/json~Content-Length: 27~~{"labels":[],"scale":"1/1"}"#;

/// The two texts, one behind the other.
fn both(rt: &impl Abort, alloc: Global, first: &str, second: &str) -> String {
    let mut text = String::from_str(alloc, first).expect(rt, "memory");
    text.push_str(second).expect(rt, "memory");
    text
}

/// Whether the requests get these replies, with a tile that was held so often.
fn tiles_answer(rt: &impl Abort, alloc: Global, requests: &str, replies: &str, hits: u64) -> bool {
    let requests = wire(rt, alloc, requests);
    let got = served(rt, alloc, NO_FEATURES, requests.as_bytes(), 100);
    let is_held = got.hits == hits && got.skips == 0;
    is_held && is_wire(rt, alloc, got.sink.bytes(), replies)
}

#[test]
fn tiles_are_held(rt: HostRuntime) {
    assert!(rt; tiles_answer(&rt, rt.alloc(), TILES, TILES_REPLIES, 1));
}

#[test]
fn tiles_are_held_until_an_edit_changes_what_they_show(rt: HostRuntime) {
    let requests = both(&rt, rt.alloc(), TILES, TILES_AFTER);
    let replies = both(&rt, rt.alloc(), TILES_REPLIES, TILES_AFTER_REPLIES);
    assert!(rt; tiles_answer(&rt, rt.alloc(), requests.as_str(), replies.as_str(), 2));
}

/// Requests over the sample map with the types and the bodies of their replies; in a body `|` stands for
/// LF.
const SAMPLE_REPLIES: &str =
    r##"/svg?cx=85416942&cy=473768861&w=1024&h=768&s=100 => image/svg+xml => <svg xmlns="http://www.w3.org/2000/svg" width="1024" height="768" viewBox="0 0 1024 768">|<text x="485.00" y="394.00" font-size="20" textLength="55">Zürich</text>|</svg>|
/view?cx=85416942&cy=473768861&w=1024&h=768&s=100 => application/json => {"labels":[{"at":[85416942,473768861],"boxes":[[-27,-10,28,10]],"id":"#0","text":"Zürich","until":"1000/1"}],"scale":"100/1"}
/why?id=%233 => application/json => {"id":"#3","reason":"NoGeometry"}
/why?id=%230 => application/json => {"blocker":null,"id":"#0","max":"1000/1","min":"0/1","until":"1000/1"}
/rev => application/json => {"features":4,"labels":3,"rev":0}"##;

const FIRST_OF_SAMPLE: &str =
    r##"{"type":"FeatureCollection","features":[{"type":"Feature","id":"#0","geometry":{"type":"Point","coordinates":[8.5416942,47.3768861]},"properties":{"name":"Zürich","place":"city","pop":402762}},"##;

/// The reply with this body.
fn reply_with(rt: &impl Abort, alloc: Global, kind: &str, body: &str) -> String {
    let size = body.len();
    format!(in alloc; "HTTP/1.1 200 OK~Content-Type: {kind}~Content-Length: {size}~~{body}").expect(
        rt, "memory",
    )
}

/// The request for a target.
fn request_for(rt: &impl Abort, alloc: Global, target: &str) -> String {
    format!(in alloc; "GET {target} HTTP/1.1~Host: a~~").expect(rt, "memory")
}

/// Whether the target over this map has a reply of this type and body, in which `|` stands for LF.
fn is_got(rt: &impl Abort, alloc: Global, map: &str, target: &str, kind: &str, body: &str) -> bool {
    let request = request_for(rt, alloc, target);
    let body = body.replace(alloc, "|", "\n").expect(rt, "memory");
    let reply = reply_with(rt, alloc, kind, body.as_str());
    is_answered(rt, alloc, map, request.as_str(), reply.as_str(), 7)
}

/// Targets over the sample map, and their replies.
struct OverSample;

impl Subject for OverSample {
    fn holds(rt: &impl Abort, alloc: Global, input: &str, want: &str) -> bool {
        let (kind, body) = want.split_once(" => ").expect(rt, "a body");
        is_got(rt, alloc, SAMPLE_MAP, input, kind, body)
    }
}

#[test]
fn the_sample_map_is_told(rt: HostRuntime) {
    each_holds::<OverSample>(&rt, rt.alloc(), SAMPLE_REPLIES)
}

/// Whether the text stands in the export behind its first 76 bytes.
fn is_exported(rt: &impl Abort, alloc: Global, text: &str) -> bool {
    let request = b"GET /map HTTP/1.1\r\nHost: a\r\n\r\n";
    let got = served(rt, alloc, SAMPLE_MAP, request, 7);
    let bytes = got.sink.bytes();
    let (_head, body) = bytes.split_at(bytes.len().min(76));
    body.starts_with(text.as_bytes())
}

#[test]
fn the_export_begins_with_the_first_feature(rt: HostRuntime) {
    assert!(rt; is_exported(&rt, rt.alloc(), FIRST_OF_SAMPLE));
}

/// What a style with a margin changes, once and then no more.
const MARGIN_CHANGES: &str =
    r#"{"changes":[{"after":["0/1","1000/1"],"before":["0/1","1000/1"],"id":"A"},{"after":["0/1","40/3"],"before":["0/1","20/1"],"id":"B"},{"after":["0/1","80/3"],"before":["0/1","40/1"],"id":"C"}],"rev":1}"#;

/// What the same style changes once more.
const NO_CHANGES: &str = r#"{"changes":[],"rev":2}"#;

/// The request for the style with a margin, twice.
fn styles_put(rt: &impl Abort, alloc: Global) -> String {
    let size = STYLE_WITH_MARGIN.len();
    let head = format!(in alloc; "PUT /style HTTP/1.1~Host: a~Content-Length: {size}~~").expect(
        rt, "memory",
    );
    let request = both(rt, alloc, head.as_str(), STYLE_WITH_MARGIN);
    request.repeat(alloc, 2).expect(rt, "memory")
}

#[test]
fn a_style_takes_the_place_of_the_style(rt: HostRuntime) {
    let requests = styles_put(&rt, rt.alloc());
    let first = reply_with(&rt, rt.alloc(), "application/json", MARGIN_CHANGES);
    let second = reply_with(&rt, rt.alloc(), "application/json", NO_CHANGES);
    let replies = both(&rt, rt.alloc(), first.as_str(), second.as_str());
    assert!(rt;
        is_answered(
            &rt,
            rt.alloc(),
            THREE_POINTS,
            requests.as_str(),
            replies.as_str(),
            100
        )
    );
}

/// The state of the three points; `|` stands for LF.
const STATE: &str =
    "state 0 3|A 0 0 0/1 1000/1 0 1000/1 - -10,-10,10,10|B 400 0 0/1 1000/1 0 20/1 0 -10,-10,10,10|C 800 0 0/1 1000/1 0 40/1 0 -10,-10,10,10|";

#[test]
fn the_state_is_told_with_its_slots(rt: HostRuntime) {
    assert!(rt; is_got(&rt, rt.alloc(), THREE_POINTS, "/state", "text/plain", STATE));
}
