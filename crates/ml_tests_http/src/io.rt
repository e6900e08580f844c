//! Sources that are read in pieces, and doors that give connections and take them back.
ghost use Rattle.std.specs.Prelude.{◌≡◌, ◌<◌, true, false, None, IfSome};

use ml_io::{
    CalmDoor, CalmSink, CalmSource, Door, Link, MemDoor, MemLink, MemSink, MemSource, RealInput,
    Sink, Source, TcpDoor, put_all, put_number,
};
use std::alloc::Global;
use std::io;
use std::io::Write;
use std::net::{Shutdown, TcpStream};
use std::process::Abort;

/// Adds what a call of the source gives, with a bar behind it, or `!` where it failed. Is the source not
/// at its end?
fn push_piece<S: Source>(rt: &impl Abort, source: &mut S, all: &mut Vec<u8>) -> bool {
    let mut buf = [0u8; 3];
    let Ok(count) = source.take(&mut buf) else {
        all.push(b'!').expect(rt, "memory");
        return true;
    };
    let (front, _) = buf.split_at(count);
    all.extend_from_slice(front).expect(rt, "memory");
    if count > 0 {
        all.push(b'|').expect(rt, "memory");
    }
    count > 0
}

/// Whether this is what the source gives, in pieces of at most three bytes.
fn gives<S: Source + Drop>(rt: &impl Abort, alloc: Global, source: S, want: &[u8]) -> bool {
    let mut source = source;
    let mut all = Vec::new(alloc);
    for _call in 0..20 {
        if !push_piece(rt, &mut source, &mut all) {
            break;
        }
    }
    all.as_slice() == want
}

/// The bytes that sources give.
const LETTERS: &[u8] = b"abcdefgh";

/// A source in memory of these bytes, in pieces of at most `cut` bytes, whose listed calls fail.
fn mem_source(
    rt: &impl Abort,
    alloc: Global,
    bytes: &[u8],
    cut: usize,
    fails: Vec<u64>,
) -> MemSource
    requires { 0 < cut }
{
    MemSource::new(
        Vec::from_slice(alloc, bytes).expect(rt, "memory"),
        cut,
        fails,
    )
}

#[test]
fn sources_in_memory_give_their_bytes_in_pieces(rt: HostRuntime) {
    let alloc = rt.alloc();
    let cut = mem_source(&rt, alloc, LETTERS, 2, Vec::new(alloc));
    assert!(rt; gives(&rt, alloc, cut, b"ab|cd|ef|gh|"));
    let none = mem_source(&rt, alloc, b"", 1, Vec::new(alloc));
    assert!(rt; gives(&rt, alloc, none, b""));
}

#[test]
fn a_source_goes_on_after_a_call_that_failed(rt: HostRuntime) {
    let fails = vec![in rt.alloc(); 1].expect(&rt, "memory");
    let whole = mem_source(&rt, rt.alloc(), LETTERS, 9, fails);
    assert!(rt; gives(&rt, rt.alloc(), whole, b"abc|!def|gh|"));
}

#[test]
fn a_calm_source_gives_its_bytes_in_pieces(rt: HostRuntime) {
    let calm = CalmSource::new(Vec::from_slice(rt.alloc(), LETTERS).expect(&rt, "memory"));
    assert!(rt; gives(&rt, rt.alloc(), calm, b"abc|def|gh|"));
}

#[test]
fn a_real_source_gives_its_bytes_in_pieces(rt: HostRuntime) {
    assert!(rt; gives(&rt, rt.alloc(), RealInput::new(LETTERS), b"abc|def|gh|"));
}

fn mem_link(rt: &impl Abort, alloc: Global, bytes: &[u8]) -> MemLink {
    Link {
        source: mem_source(rt, alloc, bytes, 9, Vec::new(alloc)),
        sink: MemSink::new(alloc, 9, Vec::new(alloc)).expect(rt, "memory"),
    }
}

/// Sends the bytes of one connection back, if there is one more: `-` where there is none, `!` where the
/// door failed.
fn echo<D: Door>(door: &mut D) -> u8
    requires listens { D.listens door.old ≡ true }
    requires out { D.is_out door.old ≡ false }
    ensures listens { D.listens door.new ≡ true }
    ensures out { D.is_out door.new ≡ false }
{
    match door.next() {
        Ok(Some(link)) => {
            let mut link = link;
            let mut buf = [0u8; 3];
            let count = link.source.take(&mut buf).unwrap_or(0);
            let (front, _) = buf.split_at(count);
            let _ = put_all(&mut link.sink, front);
            door.done(link);
            b'+'
        }
        Ok(None) => b'-',
        Err(_) => b'!',
    }
}

fn listening(rt: &impl Abort, alloc: Global, fails: Vec<u64>) -> MemDoor
    ensures { (result.links.listens ≡ true) × (result.links.out ≡ false) }
{
    let mut links = Vec::new(alloc);
    links.push(mem_link(rt, alloc, b"ab")).expect(rt, "memory");
    links.push(mem_link(rt, alloc, b"cde")).expect(rt, "memory");
    let mut door = MemDoor::new(alloc, links, fails).expect(rt, "memory");
    door.listen(80).expect(rt, "a door that listens");
    door
}

/// Whether this is what the next connections of a door come to.
fn echoes<D: Door>(door: &mut D, want: &[u8]) -> bool
    requires listens { D.listens door.old ≡ true }
    requires out { D.is_out door.old ≡ false }
{
    let mut is_so = true;
    for byte in want {
        is_so = is_so && echo(door) == *byte;
    }
    is_so
}

/// Whether the connections that a door took back got these bytes, with a semicolon behind each.
fn got_back(rt: &impl Abort, alloc: Global, links: &[MemLink], want: &[u8]) -> bool {
    let mut all = Vec::new(alloc);
    for link in links {
        all.extend_from_slice(link.sink.bytes())
            .expect(rt, "memory");
        all.push(b';').expect(rt, "memory");
    }
    all.as_slice() == want
}

#[test]
fn a_door_in_memory_gives_its_links_in_order(rt: HostRuntime) {
    let mut door = listening(
        &rt,
        rt.alloc(),
        vec![in rt.alloc(); 1].expect(&rt, "memory"),
    );
    assert!(rt; echoes(&mut door, b"+!+-"));
    assert!(rt; got_back(&rt, rt.alloc(), door.links_done(), b"ab;cde;"));
}

/// A calm door with one connection.
fn calm_door(rt: &impl Abort, alloc: Global) -> CalmDoor
    ensures { (result.port ≡ None) × (result.out ≡ false) }
{
    let mut links = Vec::new(alloc);
    links
        .push(Link {
            source: CalmSource::new(Vec::from_slice(alloc, b"ab").expect(rt, "memory")),
            sink: CalmSink::new(),
        })
        .expect(rt, "memory");
    CalmDoor::new(alloc, links).expect(rt, "memory")
}

#[test]
fn a_calm_door_takes_its_links_back(rt: HostRuntime) {
    let mut door = calm_door(&rt, rt.alloc());
    assert!(rt; door.listen(80).is_ok());
    assert!(rt; echoes(&mut door, b"+-"));
    assert!(rt; door.links_done().len() == 1);
}

#[test]
fn numbers_are_written_in_digits(rt: HostRuntime) {
    let mut sink = MemSink::new(rt.alloc(), 60, Vec::new(rt.alloc())).expect(&rt, "memory");
    for number in [0, 7, 10, 1000000, u64::MAX] {
        assert!(rt; put_number(&mut sink, number).is_ok());
        assert!(rt; put_all(&mut sink, b" ").is_ok());
    }
    assert_eq!(rt;
        sink.bytes(),
        b"0 7 10 1000000 18446744073709551615 ".as_slice()
    );
}

/// A door that listens on the first free port from 47100 on, at most 47120, and that port.
fn tcp_door(rt: &HostRuntime) -> Option<(TcpDoor<&HostRuntime>, u16)>
    ensures { IfSome result (λ p. (p.0.listens ≡ true) × (p.0.out ≡ false)) }
{
    for port in 47100..47121 {
        let mut door = TcpDoor::new(rt);
        if let Ok(()) = door.listen(port) {
            return Some((door, port));
        }
    }
    None
}

#[test]
fn a_tcp_door_serves_a_stream(rt: HostRuntime) {
    let (mut door, port) = tcp_door(&rt).expect(&rt, "a free port");
    let mut client = TcpStream::connect(&rt, (std::net::Ipv4Addr::LOCALHOST, port)).expect(
        &rt,
        "a connection",
    );
    client.write_all(b"abc").expect(&rt, "bytes that are sent");
    client
        .shutdown(Shutdown::Write)
        .expect(&rt, "an end that is sent");
    assert_eq!(rt; echo(&mut door), b'+');
    let text = io::read_to_string(rt.alloc(), client).expect(&rt, "a text");
    assert_eq!(rt; text.as_str(), "abc");
}

#[test]
fn a_tcp_door_listens_on_the_loopback_address_alone(rt: HostRuntime) {
    let (_door, port) = tcp_door(&rt).expect(&rt, "a free port");
    let elsewhere = std::net::Ipv4Addr::new(127, 0, 0, 2);
    assert!(rt; TcpStream::connect(&rt, (elsewhere, port)).is_err());
}

#[test]
fn a_reply_arrives_before_bytes_that_nobody_reads(rt: HostRuntime) {
    let (mut door, port) = tcp_door(&rt).expect(&rt, "a free port");
    let mut client = TcpStream::connect(&rt, (std::net::Ipv4Addr::LOCALHOST, port)).expect(
        &rt,
        "a connection",
    );
    let bytes = vec![in rt.alloc(); b'a'; 20000].expect(&rt, "memory");
    client
        .write_all(bytes.as_slice())
        .expect(&rt, "bytes that are sent");
    client
        .shutdown(Shutdown::Write)
        .expect(&rt, "an end that is sent");
    assert_eq!(rt; echo(&mut door), b'+');
    let text = io::read_to_string(rt.alloc(), client).expect(&rt, "a text");
    assert_eq!(rt; text.as_str(), "aaa");
}
