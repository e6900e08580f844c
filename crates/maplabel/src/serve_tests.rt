//! Runs that serve connections, over files, sources, sinks and doors in memory. In the texts `~` stands
//! for CR LF.
use crate::status::Status;
use crate::tests::{Outside, Subject, each_holds, outside_of, run_alone, run_at, run_told, told};
use ml_io::{CalmDoor, CalmLink, CalmSink, CalmSource, Link, MemDoor, MemLink, MemSink, MemSource};
use std::alloc::Global;
use std::process::Abort;

const STYLE: &str = r#"version = 1
name = "name"

[fonts.sans]
units = 1000
default = 500

[[class]]
geometry = "point"
key = "place"
value = "city"
font = "sans"
size = 20
priority = 1
min = "0"
max = "1000"
"#;

const EMPTY: &str = r#"{"type":"FeatureCollection","features":[]}"#;

/// An edit, a view, a removal, the view again.
const EDITS: &str =
    r#"POST /feature HTTP/1.1~Host: a~Content-Length: 117~~{"type":"Feature","id":"A","geometry":{"type":"Point","coordinates":[0,0]},"properties":{"name":"ab","place":"city"}}GET /view?cx=0&cy=0&w=1024&h=768&s=1 HTTP/1.1~Host: a~~DELETE /feature?id=A HTTP/1.1~Host: a~~GET /view?cx=0&cy=0&w=1024&h=768&s=1 HTTP/1.1~Host: a~~"#;

/// The replies to these over a map at its first revision.
const REPLIES: &str =
    r#"HTTP/1.1 200 OK~Content-Type: application/json~Content-Length: 71~~{"changes":[{"after":["0/1","1000/1"],"before":null,"id":"A"}],"rev":1}HTTP/1.1 200 OK~Content-Type: application/json~Content-Length: 103~~{"labels":[{"at":[0,0],"boxes":[[-10,-10,10,10]],"id":"A","text":"ab","until":"1000/1"}],"scale":"1/1"}HTTP/1.1 200 OK~Content-Type: application/json~Content-Length: 71~~{"changes":[{"after":null,"before":["0/1","1000/1"],"id":"A"}],"rev":2}HTTP/1.1 200 OK~Content-Type: application/json~Content-Length: 27~~{"labels":[],"scale":"1/1"}"#;

/// The replies to them once more.
const LATER: &str =
    r#"HTTP/1.1 200 OK~Content-Type: application/json~Content-Length: 71~~{"changes":[{"after":["0/1","1000/1"],"before":null,"id":"A"}],"rev":3}HTTP/1.1 200 OK~Content-Type: application/json~Content-Length: 103~~{"labels":[{"at":[0,0],"boxes":[[-10,-10,10,10]],"id":"A","text":"ab","until":"1000/1"}],"scale":"1/1"}HTTP/1.1 200 OK~Content-Type: application/json~Content-Length: 71~~{"changes":[{"after":null,"before":["0/1","1000/1"],"id":"A"}],"rev":4}HTTP/1.1 200 OK~Content-Type: application/json~Content-Length: 27~~{"labels":[],"scale":"1/1"}"#;

/// Words, and the exit code with the line that is printed. `s` is a style and `e` a map.
const PRINTED_ALONE: &str = "\
gen 20 7 => 0 groups 20 features 100 labels 100 edits 40 shown 60 changes 120 evaluated 100 rev 40
gen 1 0 => 0 groups 1 features 5 labels 5 edits 2 shown 3 changes 6 evaluated 5 rev 2
gen 2000 7 => 0 groups 2000 features 10000 labels 10000 edits 4000 shown 6000 changes 12000 evaluated 10000 rev 4000
gen 6001 1 => 2 usage: maplabel show, slots, check, view, pipe, serve or gen
gen 0 1 => 2 usage: maplabel show, slots, check, view, pipe, serve or gen
gen 1 4294967296 => 2 usage: maplabel show, slots, check, view, pipe, serve or gen
gen 1 => 2 usage: maplabel show, slots, check, view, pipe, serve or gen
gen 1 2 3 => 2 usage: maplabel show, slots, check, view, pipe, serve or gen
pipe none e => 5 file fault
pipe s none => 5 file fault
serve none e 80 1 => 5 file fault
pipe v e => 3 style refused: 2 Version
serve s l 80 1 => 4 map refused: 3 NotCollection
pipe s => 2 usage: maplabel show, slots, check, view, pipe, serve or gen
pipe s e e => 2 usage: maplabel show, slots, check, view, pipe, serve or gen
serve s e 80 => 2 usage: maplabel show, slots, check, view, pipe, serve or gen
serve s e 0 1 => 2 usage: maplabel show, slots, check, view, pipe, serve or gen
serve s e 65536 1 => 2 usage: maplabel show, slots, check, view, pipe, serve or gen
serve s e 80 0 => 2 usage: maplabel show, slots, check, view, pipe, serve or gen
serve s e 80 1000001 => 2 usage: maplabel show, slots, check, view, pipe, serve or gen";

const FILES: [(&str, &str); 4] = [
    ("s", STYLE),
    ("e", EMPTY),
    ("v", "version = 3"),
    ("l", "[]"),
];

/// Runs that print a line.
struct OfLine;

impl Subject for OfLine {
    fn holds(rt: &impl Abort, alloc: Global, input: &str, want: &str) -> bool {
        run_told(rt, alloc, &FILES, input)
            .as_str()
            .strip_suffix('¶')
            == Some(want)
    }
}

#[test]
fn what_is_printed_alone_is_told(rt: HostRuntime) {
    each_holds::<OfLine>(&rt, rt.alloc(), PRINTED_ALONE)
}

/// The text with CR LF for each `~`.
fn wire(rt: &impl Abort, alloc: Global, text: &str) -> String {
    text.replace(alloc, "~", "\r\n").expect(rt, "memory")
}

/// The edits in pieces of seven bytes, where listed calls fail.
fn edits(rt: &impl Abort, alloc: Global, fails: Vec<u64>) -> MemSource {
    let text = wire(rt, alloc, EDITS);
    let bytes = Vec::from_slice(alloc, text.as_bytes()).expect(rt, "memory");
    MemSource::new(bytes, 7, fails)
}

/// A connection that brings the edits.
fn link(rt: &impl Abort, alloc: Global) -> MemLink {
    let source = edits(rt, alloc, Vec::new(alloc));
    let sink = MemSink::new(alloc, 4096, Vec::new(alloc)).expect(rt, "memory");
    Link { source, sink }
}

/// The edits as input, where listed calls of the input and of the output fail.
fn piping(rt: &impl Abort, alloc: Global, reads: Vec<u64>, writes: Vec<u64>) -> Outside {
    let mut outside = outside_of(rt, alloc, &FILES);
    outside.input = edits(rt, alloc, reads);
    outside.out = MemSink::new(alloc, 4096, writes).expect(rt, "memory");
    outside
}

#[test]
fn one_connection_is_piped(rt: HostRuntime) {
    let mut outside = piping(&rt, rt.alloc(), Vec::new(rt.alloc()), Vec::new(rt.alloc()));
    assert!(rt; run_alone(&rt, rt.alloc(), &mut outside, "pipe s e") == Status::Done);
    assert!(rt; outside.out.bytes() == wire(&rt, rt.alloc(), REPLIES).as_bytes());
}

/// How piping the edits ends where this call of the input, or of the output, fails.
fn pipe_status(rt: &impl Abort, alloc: Global, object: &str, call: u64) -> Status {
    let fails = vec![in alloc; call].expect(rt, "memory");
    let mut outside = match object {
        "input" => piping(rt, alloc, fails, Vec::new(alloc)),
        _ => piping(rt, alloc, Vec::new(alloc), fails),
    };
    run_alone(rt, alloc, &mut outside, "pipe s e")
}

/// The object and its call that fails, from 0, and the exit code. The edits come in more than twelve
/// pieces, and each of the four replies is put at once.
const FAILED_CALLS: &str = "\
input 0 => 6
input 1 => 6
input 2 => 6
input 3 => 6
input 4 => 6
input 5 => 6
input 6 => 6
input 7 => 6
input 8 => 6
input 9 => 6
input 10 => 6
input 11 => 6
input 12 => 6
output 0 => 7
output 1 => 7
output 2 => 7
output 3 => 7
output 4 => 0";

/// Calls that fail while one connection is piped.
struct OfCalls;

impl Subject for OfCalls {
    fn holds(rt: &impl Abort, alloc: Global, input: &str, want: &str) -> bool {
        let (object, call) = input.split_once(" ").expect(rt, "a call");
        let call = call.parse::<u64>().ok().expect(rt, "a number");
        let status = pipe_status(rt, alloc, object, call);
        format!(in alloc; "{}", status.code())
            .expect(rt, "memory")
            .as_str()
            == want
    }
}

#[test]
fn a_connection_may_fail(rt: HostRuntime) {
    each_holds::<OfCalls>(&rt, rt.alloc(), FAILED_CALLS)
}

/// Two connections that bring the edits.
fn two_links(rt: &impl Abort, alloc: Global) -> Vec<MemLink> {
    let mut links = Vec::new(alloc);
    for _link in 0..2 {
        links.push(link(rt, alloc)).expect(rt, "memory");
    }
    links
}

/// What serving two connections at a door prints, behind the exit code, and then what each connection
/// got, where listed calls of the door fail.
fn served_told(rt: &impl Abort, alloc: Global, fails: Vec<u64>) -> String {
    let mut outside = outside_of(rt, alloc, &FILES);
    let mut door = MemDoor::new(alloc, two_links(rt, alloc), fails).expect(rt, "memory");
    let status = run_at(rt, alloc, &mut outside, &mut door, "serve s e 80 2");
    let mut all = told(rt, alloc, status, &outside.out);
    push_replies(rt, &mut all, door.links_done());
    all
}

/// Adds what each connection got.
fn push_replies(rt: &impl Abort, all: &mut String, links: &[MemLink]) {
    for link in links {
        all.push_str(std::str::from_utf8(link.sink.bytes()).expect(rt, "a text"))
            .expect(rt, "memory");
    }
}

/// Whether serving two connections at a door, where listed calls of the door fail, prints this, behind
/// the exit code, and the connections get these replies.
fn is_served(
    rt: &impl Abort,
    alloc: Global,
    fails: Vec<u64>,
    printed: &str,
    replies: &str,
) -> bool {
    let told = served_told(rt, alloc, fails);
    let replies = wire(rt, alloc, replies);
    told.as_str().strip_prefix(printed) == Some(replies.as_str())
}

#[test]
fn connections_of_a_door_are_served(rt: HostRuntime) {
    let alloc = rt.alloc();
    let mut both = String::from_str(alloc, REPLIES).expect(&rt, "memory");
    both.push_str(LATER).expect(&rt, "memory");
    assert!(rt;
        is_served(
            &rt,
            alloc,
            Vec::new(alloc),
            "0 ready¶served 2¶",
            both.as_str()
        )
    );
}

/// The call of the door that fails, from 0; what is printed behind the exit code; and how many of the two
/// connections were served. A third connection is not asked for.
const FAILED_DOORS: &str = "\
0 => 8 ready¶door fault¶ 0
1 => 8 ready¶door fault¶ 1
2 => 0 ready¶served 2¶ 2
3 => 0 ready¶served 2¶ 2
4 => 0 ready¶served 2¶ 2";

/// The replies to so many of the two connections.
fn replies_to(rt: &impl Abort, alloc: Global, served: &str) -> String {
    let mut replies = String::new(alloc);
    if served != "0" {
        replies.push_str(REPLIES).expect(rt, "memory");
    }
    if served == "2" {
        replies.push_str(LATER).expect(rt, "memory");
    }
    replies
}

/// Calls of the door that fail.
struct OfDoors;

impl Subject for OfDoors {
    fn holds(rt: &impl Abort, alloc: Global, input: &str, want: &str) -> bool {
        let call = input.parse::<u64>().ok().expect(rt, "a number");
        let fails = vec![in alloc; call].expect(rt, "memory");
        let (printed, served) = want.rsplit_once(" ").expect(rt, "how many");
        let replies = replies_to(rt, alloc, served);
        is_served(rt, alloc, fails, printed, replies.as_str())
    }
}

#[test]
fn a_door_that_fails_is_told(rt: HostRuntime) {
    each_holds::<OfDoors>(&rt, rt.alloc(), FAILED_DOORS)
}

/// A view.
const SEE: &str = "GET /view?cx=0&cy=0&w=1024&h=768&s=1 HTTP/1.1~Host: a~~";

/// The reply to it once the feature is there.
const SEEN: &str =
    r#"HTTP/1.1 200 OK~Content-Type: application/json~Content-Length: 103~~{"labels":[{"at":[0,0],"boxes":[[-10,-10,10,10]],"id":"A","text":"ab","until":"1000/1"}],"scale":"1/1"}"#;

/// A connection that brings a text, and takes nothing at the listed calls.
fn link_of(rt: &impl Abort, alloc: Global, text: &str, writes: Vec<u64>) -> MemLink {
    let text = wire(rt, alloc, text);
    let bytes = Vec::from_slice(alloc, text.as_bytes()).expect(rt, "memory");
    Link {
        source: MemSource::new(bytes, 7, Vec::new(alloc)),
        sink: MemSink::new(alloc, 4096, writes).expect(rt, "memory"),
    }
}

/// The first reply of the first connection cannot be written: it ends there, with its edit carried out,
/// and the next one sees it.
#[test]
fn a_connection_that_takes_nothing_ends_alone(rt: HostRuntime) {
    let alloc = rt.alloc();
    let mut links = Vec::new(alloc);
    let first = vec![in alloc; 0].expect(&rt, "memory");
    links
        .push(link_of(&rt, alloc, EDITS, first))
        .expect(&rt, "memory");
    links
        .push(link_of(&rt, alloc, SEE, Vec::new(alloc)))
        .expect(&rt, "memory");
    let mut outside = outside_of(&rt, alloc, &FILES);
    let mut door = MemDoor::new(alloc, links, Vec::new(alloc)).expect(&rt, "memory");
    let status = run_at(&rt, alloc, &mut outside, &mut door, "serve s e 80 2");
    let mut all = told(&rt, alloc, status, &outside.out);
    push_replies(&rt, &mut all, door.links_done());
    let mut want = String::from_str(alloc, "0 ready¶served 2¶").expect(&rt, "memory");
    want.push_str(wire(&rt, alloc, SEEN).as_str())
        .expect(&rt, "memory");
    assert!(rt; all == want, "{all}");
}

/// The edits over a connection that never fails.
fn calm_link(rt: &impl Abort, alloc: Global) -> CalmLink {
    let text = wire(rt, alloc, EDITS);
    let bytes = Vec::from_slice(alloc, text.as_bytes()).expect(rt, "memory");
    Link {
        source: CalmSource::new(bytes),
        sink: CalmSink::new(),
    }
}

#[test]
fn a_calm_door_is_served(rt: HostRuntime) {
    let alloc = rt.alloc();
    let mut links = Vec::new(alloc);
    links.push(calm_link(&rt, alloc)).expect(&rt, "memory");
    let mut outside = outside_of(&rt, alloc, &FILES);
    let mut door = CalmDoor::new(alloc, links).expect(&rt, "memory");
    let status = run_at(&rt, alloc, &mut outside, &mut door, "serve s e 80 1");
    let printed = told(&rt, alloc, status, &outside.out);
    assert!(rt; printed.as_str() == "0 ready¶served 1¶", "{printed}");
    let length = wire(&rt, alloc, REPLIES).len() as u64;
    for link in door.links_done() {
        assert!(rt; link.sink.count() == length);
    }
    assert!(rt; door.links_done().len() == 1);
}
