//! Runs that follow states, over files and sinks in memory, worked out by hand.
use crate::status::Status;
use crate::tests::{Outside, Subject, each_holds, outside_of, run_alone, run_told};
use ml_io::MemSink;
use ml_watch::{Crowd, MemWatcher};
use std::alloc::Global;
use std::process::Abort;

/// Three cities in a row: each of the later ones is blocked by the first.
const ROW: &str =
    "state 0 3¶A 0 0 0/1 1000/1 0 1000/1 - -10,-10,10,10¶B 400 0 0/1 1000/1 0 20/1 0 -10,-10,10,10¶C 800 0 0/1 1000/1 0 40/1 0 -10,-10,10,10¶";

/// The bytes of the file, in which `*` stands for the row of cities, the exit code and what is printed.
/// `¶` stands for a line feed.
const RUNS: &str = "\
* => 0 adopted 0 3¶held 0 3¶
** => 11 adopted 0 3¶stale 0 0¶held 0 3¶
state 0 3¶A 0 0 0/1 1000/1 0 1000/1 - -10,-10,10,10¶B 400 0 0/1 1000/1 0 20/1 0 -10,-10,10,10¶C 800 0 0/1 1000/1 0 30/1 0 -10,-10,10,10¶ => 11 refused 0 Uncovered C¶held none¶
state 0 3¶A 0 0 0/1 1000/1 0 1000/1 - -10,-10,10,10¶B 400 0 0/1 1000/1 0 20/1 0 -10,-10,10,10¶ => 4 states refused: 1 BadState 4¶
 => 0 held none¶
*state 7 0¶ => 0 adopted 0 3¶adopted 7 0¶held 7 0¶
state 1 2¶a%20b 0 0 0/1 1000/1 0 1000/1 - -10,-10,10,10¶c 400 0 0/1 1000/1 0 30/1 0 -10,-10,10,10¶* => 11 refused 1 Clash c a%20b 20/1¶adopted 0 3¶held 0 3¶";

/// The text with the row of cities for each `*` and a line feed for each `¶`.
fn states_of(rt: &impl Abort, alloc: Global, written: &str) -> String {
    let whole = written.replace(alloc, "*", ROW).expect(rt, "memory");
    whole.replace(alloc, "¶", "\n").expect(rt, "memory")
}

/// What a run of these words prints, behind its exit code; `t` is a file of these states.
fn followed(rt: &impl Abort, alloc: Global, states: &str, words: &str) -> String {
    let text = states_of(rt, alloc, states);
    run_told(rt, alloc, &[("t", text.as_str())], words)
}

/// Runs over states.
struct OfStates;

impl Subject for OfStates {
    fn holds(rt: &impl Abort, alloc: Global, input: &str, want: &str) -> bool {
        followed(rt, alloc, input, "follow t").as_str() == want
    }
}

#[test]
fn states_are_followed(rt: HostRuntime) {
    each_holds::<OfStates>(&rt, rt.alloc(), RUNS)
}

/// Words, the exit code and what is printed.
const WORDS: &str = "\
follow u => 5 file fault¶
follow => 2 usage: maplabel show, slots, check, view, pipe, serve or gen¶
follow t t => 2 usage: maplabel show, slots, check, view, pipe, serve or gen¶";

/// Runs of words.
struct OfWords;

impl Subject for OfWords {
    fn holds(rt: &impl Abort, alloc: Global, input: &str, want: &str) -> bool {
        followed(rt, alloc, "*", input).as_str() == want
    }
}

#[test]
fn words_that_do_not_follow_states_are_told(rt: HostRuntime) {
    each_holds::<OfWords>(&rt, rt.alloc(), WORDS)
}

/// Adds a watcher whose listed calls fail.
fn push_watcher(rt: &impl Abort, alloc: Global, watchers: &mut Vec<MemWatcher>, fails: Vec<u64>) {
    let watcher = MemWatcher::new(alloc, 9, fails).expect(rt, "memory");
    watchers.push(watcher).expect(rt, "memory")
}

/// A watcher that fails at its first call, and one that does not fail.
fn two_watchers(rt: &impl Abort, alloc: Global) -> Vec<MemWatcher> {
    let mut watchers = Vec::new(alloc);
    push_watcher(
        rt,
        alloc,
        &mut watchers,
        vec![in alloc; 0].expect(rt, "memory"),
    );
    push_watcher(rt, alloc, &mut watchers, Vec::new(alloc));
    watchers
}

/// The row of cities, before these two.
fn watched(rt: &impl Abort, alloc: Global) -> Outside {
    let row = states_of(rt, alloc, "*");
    let mut outside = outside_of(rt, alloc, &[("t", row.as_str())]);
    outside.crowd = Crowd::new(two_watchers(rt, alloc));
    outside
}

#[test]
fn watchers_are_told_what_adopted_states_change(rt: HostRuntime) {
    let mut outside = watched(&rt, rt.alloc());
    assert!(rt; run_alone(&rt, rt.alloc(), &mut outside, "follow t") == Status::Done);
    assert!(rt; outside.crowd.heard(0) == Some(0) && outside.crowd.heard(1) == Some(3));
}

#[test]
fn a_state_stays_adopted_where_printing_fails(rt: HostRuntime) {
    let mut outside = watched(&rt, rt.alloc());
    outside.out = MemSink::new(
        rt.alloc(),
        4096,
        vec![in rt.alloc(); 1].expect(&rt, "memory"),
    )
    .expect(&rt, "memory");
    assert!(rt; run_alone(&rt, rt.alloc(), &mut outside, "follow t") == Status::WriteFault);
    assert!(rt; outside.crowd.heard(1) == Some(3));
    assert!(rt; outside.out.bytes() == b"adopted 0 3\n".as_slice());
}
