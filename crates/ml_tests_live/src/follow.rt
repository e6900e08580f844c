//! States that are read, written again, and offered to a follower.
ghost use Rattle.std.specs.Prelude.{All};
ghost use Rattle.ml_follow.specs.Reading.{IsGood};

use crate::cases::{Table, hold, lines_of, lines_told};
use ml_follow::{Follower, OfferFault, State, StateFault, StateText, read_states};
use ml_ratio::Seq;
use ml_watch::{Crowd, MemWatcher};
use std::alloc::Global;
use std::process::Abort;

/// Two watchers, of which the second fails at its first call.
fn watchers(rt: &impl Abort, alloc: Global) -> Crowd<MemWatcher> {
    let mut watchers = Vec::new(alloc);
    watchers
        .push(MemWatcher::new(alloc, 100, Vec::new(alloc)).expect(rt, "memory"))
        .expect(rt, "memory");
    watchers
        .push(MemWatcher::new(alloc, 100, vec![in alloc; 0].expect(rt, "memory")).expect(
            rt, "memory",
        ))
        .expect(rt, "memory");
    Crowd::new(watchers)
}

/// Offers a state, and tells how it is answered.
fn offer(
    rt: &impl Abort,
    alloc: Global,
    follower: &mut Follower,
    crowd: &mut Crowd<MemWatcher>,
    state: State,
) -> String
    requires { IsGood state }
{
    let (rev, count) = (state.rev, state.labels.len());
    match follower.offer(state, crowd) {
        Ok(()) => format!(in alloc; "adopted {rev} {count}, ").expect(rt, "memory"),
        Err(OfferFault::Stale(held)) => format!(in alloc; "stale {rev} {held}, ").expect(
            rt, "memory",
        ),
        Err(OfferFault::NotBest(verdict)) => format!(in alloc;
            "refused {rev} {verdict:?}, "
        ).expect(rt, "memory"),
        Err(OfferFault::Memory) => panic!(rt; "memory"),
    }
}

/// What is held.
fn held_told(rt: &impl Abort, alloc: Global, follower: &Follower) -> String {
    let labels = follower.labels().len();
    if labels != follower.slots().len() {
        panic!(rt; "a slot for each label");
    }
    match follower.rev() {
        Some(rev) => format!(in alloc; "held {rev} {labels}").expect(rt, "memory"),
        None => "held none".to_string(alloc).expect(rt, "memory"),
    }
}

/// What is held, and what the watchers heard.
fn standing(
    rt: &impl Abort,
    alloc: Global,
    follower: &Follower,
    crowd: &Crowd<MemWatcher>,
) -> String {
    let first = crowd.heard(0).expect(rt, "a watcher");
    let second = crowd.heard(1).expect(rt, "a watcher");
    let held = held_told(rt, alloc, follower);
    format!(in alloc; "{held}, heard {first} {second}").expect(rt, "memory")
}

/// Offers states, the last first, and tells how each is answered.
fn offers_told(
    rt: &impl Abort,
    alloc: Global,
    follower: &mut Follower,
    crowd: &mut Crowd<MemWatcher>,
    states: Vec<State>,
) -> String
    requires { All IsGood states.items }
{
    let mut told = String::new(alloc);
    let mut rest = states;
    while let Some(state) = rest.pop() {
        told.push_str(&offer(rt, alloc, follower, crowd, state))
            .expect(rt, "memory");
    }
    told
}

/// Offers the states in order, and tells how each is answered, and what is held then.
fn all_offered(rt: &impl Abort, alloc: Global, states: Seq<State>) -> String
    requires { All IsGood states }
{
    let mut follower = Follower::new(alloc);
    let mut crowd = watchers(rt, alloc);
    let mut rest = states.into_vec();
    rest.reverse();
    let mut told = offers_told(rt, alloc, &mut follower, &mut crowd, rest);
    told.push_str(&standing(rt, alloc, &follower, &crowd))
        .expect(rt, "memory");
    told
}

/// A file of states, with a bar for each line feed, and how each state is answered; then what is held,
/// and how many changes the two watchers heard, of which the second fails at its first call. Or the
/// line at fault.
struct Offers;

impl Table for Offers {
    const LINES: &'static str = "\
state 0 3|A 0 0 0/1 1000/1 0 1000/1 - -10,-10,10,10|B 400 0 0/1 1000/1 0 20/1 0 -10,-10,10,10|C 800 0 0/1 1000/1 0 40/1 0 -10,-10,10,10| => adopted 0 3, held 0 3, heard 3 0
state 0 1|A 0 0 0/1 1000/1 0 1000/1 - -10,-10,10,10|state 0 1|A 0 0 0/1 1000/1 0 1000/1 - -10,-10,10,10| => adopted 0 1, stale 0 0, held 0 1, heard 1 0
state 0 3|A 0 0 0/1 1000/1 0 1000/1 - -10,-10,10,10|B 400 0 0/1 1000/1 0 20/1 0 -10,-10,10,10|C 800 0 0/1 1000/1 0 30/1 0 -10,-10,10,10| => refused 0 Uncovered(2), held none, heard 0 0
state 0 3|A 0 0 0/1 1000/1 0 1000/1 - -10,-10,10,10|B 400 0 0/1 1000/1 0 20/1 0 -10,-10,10,10| => bad 4
 => held none, heard 0 0
state 0 0| => adopted 0 0, held 0 0, heard 0 0
state 2 1|A 0 0 0/1 9/1 0 9/1 - -1,-1,1,1|state 3 2|B 900 0 0/1 9/1 0 9/1 - -1,-1,1,1|A 0 0 0/1 9/1 0 9/1 - -1,-1,1,1| => adopted 2 1, adopted 3 2, held 3 2, heard 2 0
state 2 1|A 0 0 0/1 9/1 0 9/1 - -1,-1,1,1|state 3 1|A 1 0 0/1 9/1 0 9/1 - -1,-1,1,1|state 4 0| => adopted 2 1, adopted 3 1, adopted 4 0, held 4 0, heard 3 0
state 0 2|A 0 0 0/1 9/1 0 9/1 - -1,-1,1,1|A 900 0 0/1 9/1 0 9/1 - -1,-1,1,1| => bad 3
state 0 1|A 0 0 0/1 9/1 0 9/1 - -1,-1,1,1|| => bad 3
state 0 1|A 0 0 0/1 9/1 0 9/1 - -1,-1,1,1 => bad 2
state 0 2|A 0 0 0/1 9/1 0 9/1 2 -1,-1,1,1|B 0 0 0/1 9/1 0 9/1 - -1,-1,1,1| => bad 2
state 9007199254740993 0| => bad 1
state 0 32769| => bad 1
state 0 1|%41 0 0 0/1 9/1 0 9/1 - -1,-1,1,1| => bad 2
state 0 1|A 0 0 9/1 9/1 0 9/1 - -1,-1,1,1| => bad 2";

    fn told(rt: &impl Abort, alloc: Global, input: &str) -> String {
        let file = lines_of(rt, alloc, input);
        match read_states(alloc, file.as_bytes()) {
            Ok(states) => all_offered(rt, alloc, states),
            Err(StateFault::BadState(k)) => format!(in alloc; "bad {k}").expect(rt, "memory"),
            Err(StateFault::Memory) => panic!(rt; "memory"),
        }
    }
}

#[test]
fn states_are_checked_and_adopted(rt: HostRuntime) {
    hold::<Offers>(&rt, rt.alloc())
}

/// Texts as they are written, with a bar for each line feed.
const WRITTEN: &str = "\
state 0 3|A 0 0 0/1 1000/1 0 1000/1 - -10,-10,10,10|B 400 0 0/1 1000/1 0 20/1 0 -10,-10,10,10|C 800 0 0/1 1000/1 0 40/1 0 -10,-10,10,10|
state 9007199254740992 2|a%20b%25 -2000000000 7 1/2 268435456/1 64 3/2 - -512,-512,512,512 -1,0,0,1|% 2000000000 -1 0/1 1/65536 0 0/1 0 0,0,1,1|
state 12 0|state 13 1|#%C3%BC 0 0 0/1 9/1 3 9/1 - -1,-1,1,1|";

/// Appends the text of a state.
fn write_state(rt: &impl Abort, alloc: Global, state: &State, out: &mut Vec<u8>) {
    let count = u32::try_from(state.labels.len())
        .ok()
        .expect(rt, "few labels");
    let mut text = StateText::new(alloc, state.rev, count).expect(rt, "memory");
    for (k, label) in state.labels.as_slice().iter().enumerate() {
        let slot = state.slots.get(k).expect(rt, "a slot");
        text.add(label, slot.until, slot.blocker)
            .expect(rt, "memory");
    }
    out.extend_from_slice(text.finish().expect(rt, "memory").as_slice())
        .expect(rt, "memory");
}

/// The text of the states that a file has, with a bar for each line feed.
fn rewritten(rt: &impl Abort, alloc: Global, text: &str) -> String {
    let file = lines_of(rt, alloc, text);
    let states = read_states(alloc, file.as_bytes()).expect(rt, "states");
    let mut out = Vec::new(alloc);
    for state in states.as_slice() {
        write_state(rt, alloc, state, &mut out);
    }
    lines_told(rt, alloc, &out)
}

#[test]
fn states_are_written_as_they_are_read(rt: HostRuntime) {
    for line in WRITTEN.lines() {
        assert!(rt; rewritten(&rt, rt.alloc(), line).as_str() == line, "{line}");
    }
}
