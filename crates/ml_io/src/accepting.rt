//! Connections that a listener accepts: a part of the trusted edge.
use crate::link::Link;
use crate::real::RealOutput;
use crate::real_input::RealInput;
use std::io;
use std::net::{TcpListener, TcpStream};
use std::thread::sleep;
use std::time::{Clock, Duration};

/// A connection over TCP. Its two parts share one stream.
pub type TcpLink = Link<RealInput<TcpStream>, RealOutput<TcpStream>>;

/// How many connections in a row may come to nothing before the door counts as gone.
const MOST_LOST: u32 = 1_000_000;

/// How often in a row the system may be short of descriptors or memory before the door counts as gone: for a
/// minute, with the pause after each time.
const MOST_SHORTAGES: u32 = 600;

const SHORTAGE_PAUSE_MILLISECONDS: u64 = 100;

/// Why a listener gave no connection.
#[derive(Clone, Copy)]
enum Missed {
    /// The connection itself came to nothing: it ended before it was accepted, or a firewall forbids it.
    Lost,
    /// The system is short of descriptors or memory for now.
    Short,
    /// The listener accepts no more.
    Gone,
}

/// What an error of `accept` means, by the numbers that Linux gives on accept(2): those that speak of one
/// connection (EPERM, ENONET, EPROTO, ENOPROTOOPT, EOPNOTSUPP, ENETDOWN, ENETUNREACH, ECONNABORTED, EHOSTDOWN,
/// EHOSTUNREACH), those that speak of what the system is short of (ENOMEM, ENFILE, EMFILE, ENOBUFS), and all
/// others.
fn reason_of(error: &io::Error) -> Missed {
    match error.raw_os_error() {
        Some(1 | 64 | 71 | 92 | 95 | 100 | 101 | 103 | 112 | 113) => Missed::Lost,
        Some(12 | 23 | 24 | 105) => Missed::Short,
        _ => Missed::Gone,
    }
}

/// The next connection, and the same once more for its replies.
///
/// Each reply is sent at once, where the system lets this be set. Otherwise it would hold back the second
/// of several small replies until the client has told that it has the first, for which clients take their
/// time.
fn accept_once(listener: &TcpListener) -> io::Result<TcpLink> {
    let (stream, _) = listener.accept()?;
    let _set = stream.set_nodelay(true);
    let twin = stream.try_clone()?;
    Ok(Link {
        source: RealInput::new(stream),
        sink: RealOutput::new(twin),
    })
}

/// The next connection; none where the listener gives none. An error that speaks of one connection alone, or
/// of what the system is short of for now, is no end of the listener: the next connection is asked for, after
/// a pause where the system is short of something.
pub(crate) fn accept(clock: &impl Clock, listener: &TcpListener) -> Option<TcpLink> {
    let mut shortages = 0;
    for _lost in 0..MOST_LOST {
        match accept_once(listener) {
            Ok(link) => return Some(link),
            Err(error) => match reason_of(&error) {
                Missed::Lost => {}
                Missed::Short => {
                    if shortages >= MOST_SHORTAGES {
                        return None;
                    }
                    shortages += 1;
                    sleep(clock, Duration::from_millis(SHORTAGE_PAUSE_MILLISECONDS));
                }
                Missed::Gone => return None,
            },
        }
    }
    None
}
