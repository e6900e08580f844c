//! Reads a connection, in whatever pieces its source gives it.
ghost use Rattle.std.specs.Prelude.{◌≡◌, ◌+◌, ◌<◌, ◌≤◌, ◌++◌, ℕ, List, IfOk, OnErr, length, take};
ghost use Rattle.ml_io.specs.Causes.{HasCause};
ghost use Rattle.ml_io.specs.Takes.{Draws};
ghost use Rattle.ml_request.specs.Held.{Gains};
ghost use Rattle.ml_request.specs.Heads.{IsJudged};
ghost use Rattle.ml_request.specs.Stream.{EndsInHead};
ghost use Rattle.ml_request.specs.Reading.{IsHeadEnd, HasReadCause, IsBodyOf, IsRequestOf, IsEventOf};

use crate::head::judge;
use crate::held::{Held, ROOM};
use crate::mark::head_size;
use crate::request::{Event, Head, HeadEnd, ReadFault, Refusal, Request};
use ml_io::{Failed, Source};
use std::alloc::{AllocError, Global};

// Takes bytes until a head ends, is too long, or the input ends.
fn find_head<S: Source>(held: &mut Held, source: &mut S) -> Result<HeadEnd, Failed>
    ensures gains { Gains (S.left source.old) (S.left source.new) held.old held.new }
    ensures ok { IfOk result (λ end. IsHeadEnd held.new (S.left source.new) end) }
    ensures err { OnErr result (EndsInHead held.new) }
    ensures cause { HasCause (S.faults source.old) (S.faults source.new) result }
{
    let mut searched = 0;
    'search: loop {
        if let Some(size) = head_size(held.as_slice(), searched) {
            return Ok(HeadEnd::Found(size));
        }
        if held.len() == ROOM {
            return Ok(HeadEnd::TooLong);
        }
        searched = held.len().saturating_sub(3);
        match held.fill(source) {
            Ok(0) => return Ok(HeadEnd::InputEnded),
            Ok(_) => {}
            Err(fault) => return Err(fault),
        }
    }
}

// Takes bytes until a body of this length has come, or the input ends.
fn read_body<S: Source>(
    alloc: Global,
    held: &mut Held,
    source: &mut S,
    length: usize,
) -> Result<Option<Vec<u8>>, ReadFault>
    ensures body { (taken : List ℕ) × Draws (S.left source.old) (S.left source.new) taken
        × IsBodyOf length (held.old ++ taken) held.new (S.left source.new) result }
    ensures cause { HasReadCause (S.faults source.old) (S.faults source.new) result }
{
    let mut body = Vec::new(alloc);
    'pieces: loop {
        let wanted = length - body.len();
        match held.move_into(&mut body, wanted) {
            Ok(()) => {}
            Err(_) => return Err(ReadFault::Memory),
        }
        if body.len() == length {
            return Ok(Some(body));
        }
        match held.fill(source) {
            Ok(0) => return Ok(None),
            Ok(_) => {}
            Err(_) => return Err(ReadFault::Failed),
        }
    }
}

// Reads the body behind this head of so many bytes, and makes the request.
fn read_request<S: Source>(
    alloc: Global,
    held: &mut Held,
    source: &mut S,
    head: Head,
    last: bool,
) -> Result<Option<Event>, ReadFault>
    ensures event { (taken : List ℕ) × Draws (S.left source.old) (S.left source.new) taken
        × IsRequestOf last head (held.old ++ taken) held.new (S.left source.new) result }
    ensures cause { HasReadCause (S.faults source.old) (S.faults source.new) result }
{
    match read_body(alloc, held, source, head.framing.length) {
        Ok(Some(body)) => {
            let Head {
                method,
                target,
                framing,
            } = head;
            Ok(Some(Event::Whole(Request {
                method,
                target,
                body,
                closes: framing.closes || last,
            })))
        }
        Ok(None) => Ok(None),
        Err(fault) => Err(fault),
    }
}

/// What comes next on the connection; none where the input ends first. The `last` request closes.
pub fn read_event<S: Source>(
    alloc: Global,
    held: &mut Held,
    source: &mut S,
    last: bool,
) -> Result<Option<Event>, ReadFault>
    ensures event { (taken : List ℕ) × Draws (S.left source.old) (S.left source.new) taken
        × IsEventOf last (held.old ++ taken) held.new (S.left source.new) result }
    ensures cause { HasReadCause (S.faults source.old) (S.faults source.new) result }
{
    let size = match find_head(held, source) {
        Ok(HeadEnd::Found(size)) => size,
        Ok(HeadEnd::TooLong) => return Ok(Some(Event::Refused(Refusal::Head))),
        Ok(HeadEnd::InputEnded) => return Ok(None),
        Err(_) => return Err(ReadFault::Failed),
    };
    match judge_front(alloc, held, size) {
        Ok(Ok(head)) => {
            held.pass(size);
            read_request(alloc, held, source, head, last)
        }
        Ok(Err(refusal)) => Ok(Some(Event::Refused(refusal))),
        Err(_) => Err(ReadFault::Memory),
    }
}

// Judges the head of this size.
fn judge_front(alloc: Global, held: &Held, size: usize) -> Result<Result<Head, Refusal>, AllocError>
    requires { size ≤ length held.now }
    ensures { IfOk result (λ judged. IsJudged (take size held.now) judged) }
{
    let (front, _) = held.as_slice().split_at(size);
    judge(alloc, front)
}
