//! Requests, read from a stream in pieces. In the cases `~` stands for CR LF.
use crate::cases::{Subject, each_holds, wire};
use ml_io::MemSource;
use ml_request::{Event, Held, Refusal, Request, read_event};
use std::alloc::Global;
use std::process::Abort;

/// Streams, and what they hold: of each request its method, its target and its body, with `!` behind the last that
/// closes and `;` behind others; or why what comes next is refused.
const STREAMS: &str = r#"GET /a HTTP/1.1~Host: a~~ => GET /a ;
POST /b HTTP/1.1~Host: a~Content-Length: 2~~xyGET /c HTTP/1.1~Host: a~~ => POST /b xy;GET /c ;
GET /a HTTP/1.0~~GET /b HTTP/1.1~Host: a~~ => GET /a !
GET /a HTTP/1.1~Host: a~Connection: close~~ => GET /a !
POST /b HTTP/1.1~Host: a~Content-Length: 3~~xy => 
GET /a HTTP/1.1~Host: a~ => 
GET /a HTTP/1.1~~ => request!
GET /a HTTP/1.1~Host: a~~GET /b HTTP/1.1~Host: a~Host: b~~ => GET /a ;request!
POST /b HTTP/1.1~Host: a~Transfer-Encoding: chunked~~ => coding!
POST /b HTTP/1.1~Host: a~Content-Length: 1048577~~ => size!"#;

/// Adds a request.
fn push_request(rt: &impl Abort, all: &mut Vec<u8>, request: &Request) {
    all.extend_from_slice(request.method()).expect(rt, "memory");
    all.push(b' ').expect(rt, "memory");
    all.extend_from_slice(request.target()).expect(rt, "memory");
    all.push(b' ').expect(rt, "memory");
    all.extend_from_slice(request.body()).expect(rt, "memory");
}

/// Why bytes are refused, in a word.
fn word_of(refusal: Refusal) -> &'static [u8] {
    match refusal {
        Refusal::Head => b"head",
        Refusal::Request => b"request",
        Refusal::Coding => b"coding",
        Refusal::Size => b"size",
    }
}

/// Adds what came next. May more come?
fn push_event(rt: &impl Abort, all: &mut Vec<u8>, event: &Event) -> bool {
    let closes = match event {
        Event::Whole(request) => {
            push_request(rt, all, request);
            request.closes()
        }
        Event::Refused(refusal) => {
            all.extend_from_slice(word_of(*refusal))
                .expect(rt, "memory");
            true
        }
    };
    all.push(if closes { b'!' } else { b';' })
        .expect(rt, "memory");
    !closes
}

/// Adds the next event of a source, if there is one. May more come?
fn push_next(
    rt: &impl Abort,
    alloc: Global,
    held: &mut Held,
    source: &mut MemSource,
    all: &mut Vec<u8>,
) -> bool {
    match read_event(alloc, held, source, false).expect(rt, "a source that does not fail") {
        Some(event) => push_event(rt, all, &event),
        None => false,
    }
}

/// Streams that come in pieces of seven bytes, and what they hold.
struct OfStream;

impl Subject for OfStream {
    fn holds(rt: &impl Abort, alloc: Global, input: &str, want: &str) -> bool {
        let bytes = wire(rt, alloc, input).into_bytes();
        let mut source = MemSource::new(bytes, 7, Vec::new(alloc));
        let mut held = Held::new(alloc).expect(rt, "memory");
        let mut all = Vec::new(alloc);
        for _event in 0..9 {
            if !push_next(rt, alloc, &mut held, &mut source, &mut all) {
                break;
            }
        }
        all.as_slice() == want.as_bytes()
    }
}

#[test]
fn streams_hold_their_requests(rt: HostRuntime) {
    each_holds::<OfStream>(&rt, rt.alloc(), STREAMS)
}
