//! Watchers, what they keep and write, and a crowd of which one fails.
use crate::cases::{Table, first, fraction, hold, lines_told};
use ml_cone::Span;
use ml_io::MemSink;
use ml_ratio::{Duplicate, Seq, Text};
use ml_watch::{Change, Crowd, LineWatcher, MemWatcher, Watcher, id_text};
use std::alloc::Global;
use std::process::Abort;

/// The span that a word writes, as `0/1..20/1`, or `-` for none.
fn span_of(rt: &impl Abort, word: &str) -> Option<Span> {
    if word == "-" {
        return None;
    }
    let (min, until) = word.split_once("..").expect(rt, "a span");
    let min = fraction(rt, min);
    let until = fraction(rt, until);
    Some(Span { min, until })
}

/// The change that a text writes, as `ID | SPAN SPAN`, with a pilcrow for a line feed.
fn change_of(rt: &impl Abort, alloc: Global, text: &str) -> Change {
    let (id, spans) = first(rt, text);
    let (before, after) = spans.split_once(" ").expect(rt, "two spans");
    let id = Text::of_string(id.replace(alloc, "¶", "\n").expect(rt, "memory"));
    let before = span_of(rt, before);
    let after = span_of(rt, after);
    Change { id, before, after }
}

/// What a watcher writes of a change.
fn line_told(rt: &impl Abort, alloc: Global, change: &Change) -> String {
    let mut watcher = LineWatcher::new(MemSink::new(alloc, 200, Vec::new(alloc)).expect(
        rt, "memory",
    ));
    watcher.tell(change).expect(rt, "memory");
    if watcher.heard() != 1 || watcher.faults() != 0 {
        panic!(rt; "one change, and no fault");
    }
    lines_told(rt, alloc, watcher.sink().bytes())
}

/// Ids and two spans, and the lines that are written, with a bar for each line feed.
const CHANGES: &str = "\
A | 0/1..1000/1 - => A 0/1..1000/1 -|
B | 0/1..20/1 0/1..1000/1 => B 0/1..20/1 0/1..1000/1|
C | - 1/2..7/3 => C - 1/2..7/3|
 | - - => % - -|
a-z.A_Z~0#9 | - - => a-z.A_Z~0#9 - -|
a b | - - => a%20b - -|
% | - - => %25 - -|
Zürich | - - => Z%C3%BCrich - -|
¶\t\u{0}\u{7f} | - - => %0A%09%00%7F - -|
@[`{/: | - - => %40%5B%60%7B%2F%3A - -|
!\"$&'()*+,;<=>?\\]^|} | - - => %21%22%24%26%27%28%29%2A%2B%2C%3B%3C%3D%3E%3F%5C%5D%5E%7C%7D - -|
\u{1f30d} | - 0/1..4294967296/1 => %F0%9F%8C%8D - 0/1..4294967296/1|";

/// A change, and the line that is written of its copy.
struct Lines;

impl Table for Lines {
    const LINES: &'static str = CHANGES;

    fn told(rt: &impl Abort, alloc: Global, input: &str) -> String {
        line_told(
            rt,
            alloc,
            &change_of(rt, alloc, input).duplicate().expect(rt, "memory"),
        )
    }
}

#[test]
fn changes_are_written_as_lines(rt: HostRuntime) {
    hold::<Lines>(&rt, rt.alloc())
}

/// A change, and the text of its id before its spans.
struct Ids;

impl Table for Ids {
    const LINES: &'static str = CHANGES;

    fn told(rt: &impl Abort, alloc: Global, input: &str) -> String {
        let (_id, spans) = first(rt, input);
        let id = id_text(alloc, &change_of(rt, alloc, input).id).expect(rt, "memory");
        let id = lines_told(rt, alloc, id.as_slice());
        format!(in alloc; "{id} {spans}|").expect(rt, "memory")
    }
}

#[test]
fn ids_are_written_as_in_lines(rt: HostRuntime) {
    hold::<Ids>(&rt, rt.alloc())
}

/// Three changes, as a removal of the first of three labels makes them.
const REMOVAL: &str = "\
A | 0/1..1000/1 -
B | 0/1..20/1 0/1..1000/1
C | 0/1..40/1 0/1..20/1";

/// The changes.
fn changes_of(rt: &impl Abort, alloc: Global) -> Seq<Change> {
    let mut changes = Seq::new(alloc);
    for line in REMOVAL.lines() {
        changes
            .push(change_of(rt, alloc, line))
            .expect(rt, "memory");
    }
    changes
}

/// How many changes each of a crowd heard.
fn heard_told<W: Watcher>(rt: &impl Abort, alloc: Global, crowd: &Crowd<W>) -> String {
    let mut told = String::new(alloc);
    for place in 0..crowd.len() {
        let heard = crowd.heard(place).expect(rt, "a watcher");
        told.push_str(&heard.to_string(alloc).expect(rt, "memory"))
            .expect(rt, "memory");
        told.push_str(" ").expect(rt, "memory");
    }
    told
}

/// Watchers in memory of which the first fails at its second call, and the last has room for two.
fn three_watchers(rt: &impl Abort, alloc: Global) -> Crowd<MemWatcher> {
    let mut watchers = Vec::new(alloc);
    watchers
        .push(MemWatcher::new(alloc, 9, vec![in alloc; 1].expect(rt, "memory")).expect(
            rt, "memory",
        ))
        .expect(rt, "memory");
    watchers
        .push(MemWatcher::new(alloc, 9, Vec::new(alloc)).expect(rt, "memory"))
        .expect(rt, "memory");
    watchers
        .push(MemWatcher::new(alloc, 2, Vec::new(alloc)).expect(rt, "memory"))
        .expect(rt, "memory");
    Crowd::new(watchers)
}

#[test]
fn a_watcher_that_failed_is_told_no_more(rt: HostRuntime) {
    let mut crowd = three_watchers(&rt, rt.alloc());
    let changes = changes_of(&rt, rt.alloc());
    crowd.tell_all(&changes);
    assert!(rt; heard_told(&rt, rt.alloc(), &crowd).as_str() == "1 3 2 ");
    crowd.tell_all(&changes);
    assert!(rt; heard_told(&rt, rt.alloc(), &crowd).as_str() == "1 6 2 ");
    assert!(rt; crowd.heard(3).is_none());
}

/// How many changes are heard by a watcher in memory, and by one that writes lines to a sink with room
/// for two.
fn heard_by_two_kinds(rt: &impl Abort, alloc: Global, changes: &Seq<Change>) -> String {
    let mut watchers: Vec<Box<dyn Watcher>> = Vec::new(alloc);
    let kept = MemWatcher::new(alloc, 9, Vec::new(alloc)).expect(rt, "memory");
    watchers
        .push(Box::new(alloc, kept).expect(rt, "memory"))
        .expect(rt, "memory");
    let lines = LineWatcher::new(MemSink::new(alloc, 40, Vec::new(alloc)).expect(rt, "memory"));
    watchers
        .push(Box::new(alloc, lines).expect(rt, "memory"))
        .expect(rt, "memory");
    let mut crowd: Crowd = Crowd::new(watchers);
    crowd.tell_all(changes);
    heard_told(rt, alloc, &crowd)
}

#[test]
fn boxed_watchers_of_two_kinds_make_a_crowd(rt: HostRuntime) {
    let changes = changes_of(&rt, rt.alloc());
    assert!(rt; heard_by_two_kinds(&rt, rt.alloc(), &changes).as_str() == "3 2 ");
}

/// Whether the watcher takes a change of an id.
fn takes(rt: &impl Abort, alloc: Global, watcher: &mut MemWatcher, id: &str) -> bool {
    let text = format!(in alloc; "{id} | - 1/2..7/3").expect(rt, "memory");
    watcher.tell(&change_of(rt, alloc, &text)).is_ok()
}

/// Whether the change is that of the empty id.
fn is_of_no_id(rt: &impl Abort, change: &Change) -> bool {
    let id = change.id.as_str();
    id == "" && change.before.is_none() && change.after == span_of(rt, "1/2..7/3")
}

/// An id of 64 characters.
const LONGEST: &str = "0123456789abcdef0123456789abcdef0123456789abcdef0123456789abcdef";

/// An id of 65 characters.
const LONGER: &str = "0123456789abcdef0123456789abcdef0123456789abcdef0123456789abcdef0";

#[test]
fn a_watcher_in_memory_has_room_for_short_ids(rt: HostRuntime) {
    let mut watcher = MemWatcher::new(rt.alloc(), 2, Vec::new(rt.alloc())).expect(&rt, "memory");
    for (id, want) in [(LONGEST, true), (LONGER, false), ("", true), ("B", false)] {
        assert!(rt; takes(&rt, rt.alloc(), &mut watcher, id) == want, "{id}");
    }
    assert!(rt; watcher.heard() == 2 && watcher.faults() == 2);
    assert!(rt; watcher.kept().len() == 2);
    assert!(rt; is_of_no_id(&rt, watcher.kept().last().expect(&rt, "a change")));
}
