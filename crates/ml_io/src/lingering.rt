//! The end of a connection behind whose last reply the client goes on sending: a part of the trusted edge.
use crate::accepting::TcpLink;
use crate::source::Source;
use std::net::{Shutdown, TcpStream};
use std::time::{Clock, Duration, Instant};

/// How many times at most what a client still sends is read behind its last reply, and how many bytes
/// each time: 16 MiB together.
const MOST_READS: u32 = 2048;

const PIECE: usize = 8192;

/// How long the client may go on sending in all, and how long it may be silent.
const MOST_MILLISECONDS: u64 = 2000;

const SILENCE_MILLISECONDS: u64 = 1000;

/// Whether the client has sent bytes that nobody has read yet. It does not wait for any.
fn has_unread(stream: &TcpStream) -> bool {
    if stream.set_nonblocking(true).is_err() {
        return false;
    }
    let mut first = [0; 1];
    let seen = match stream.peek(&mut first) {
        Ok(count) => count > 0,
        Err(_) => false,
    };
    stream.set_nonblocking(false).is_ok() && seen
}

/// How long the next read may wait; none where the time is over, or the clock does not tell it.
fn patience(clock: &impl Clock, begin: &Instant) -> Option<Duration> {
    let Ok(gone) = begin.elapsed(clock) else {
        return None;
    };
    let left = Duration::from_millis(MOST_MILLISECONDS).saturating_sub(gone);
    if left.is_zero() {
        None
    } else {
        Some(left.min(Duration::from_millis(SILENCE_MILLISECONDS)))
    }
}

/// Reads and drops what the client still sends, until it closes its half, is silent for a second, has sent
/// 16 MiB, or two seconds are over.
fn drain(clock: &impl Clock, link: TcpLink) {
    let mut link = link;
    let Ok(begin) = Instant::now(clock) else {
        return;
    };
    let mut piece = [0; PIECE];
    for _read in 0..MOST_READS {
        let Some(wait) = patience(clock, &begin) else {
            return;
        };
        if link.sink.writer().set_read_timeout(Some(wait)).is_err() {
            return;
        }
        match link.source.take(&mut piece) {
            Ok(0) | Err(_) => return,
            Ok(_) => {}
        }
    }
}

/// Where the client has sent bytes that nobody has read, drops these and what it still sends, up to a bound.
/// A socket that is closed over such bytes takes back replies that the client has not read yet. So the
/// writing half ends first, which tells the client that nothing more comes. A client all of whose bytes were
/// read is not waited for.
pub(crate) fn linger(clock: &impl Clock, link: TcpLink) {
    let stream = link.sink.writer();
    if has_unread(stream) && stream.shutdown(Shutdown::Write).is_ok() {
        drain(clock, link);
    }
}
