//! The JSON of slots, reasons, edits and revisions.
use crate::answer::label_of;
use crate::cases::{Table, change_of, first, fraction, hold, number, text_of, word};
use ml_answer::{edit_json, reason_json, rev_json, slot_json};
use ml_cone::Label;
use ml_label::Reason;
use ml_ratio::lines::parts_of;
use ml_ratio::{Ratio, Seq, Text};
use ml_watch::Change;
use std::alloc::Global;
use std::process::Abort;

/// The text of the slot of a label, with `-` for no blocker.
fn slot_told(rt: &impl Abort, alloc: Global, label: &Label, until: Ratio, blocker: &str) -> String {
    if blocker == "-" {
        return text_of(
            rt,
            slot_json(alloc, label, until, None).expect(rt, "memory"),
        );
    }
    let blocker = Text::of(alloc, blocker).expect(rt, "memory");
    text_of(
        rt,
        slot_json(alloc, label, until, Some(&blocker)).expect(rt, "memory"),
    )
}

/// `ID UNTIL BLOCKER => TEXT`, with `-` for no blocker.
struct Slots;

impl Table for Slots {
    const LINES: &'static str =
        r##"#0 1000 - => {"blocker":null,"id":"#0","max":"1000/1","min":"0/1","until":"1000/1"}
B 20 A => {"blocker":"A","id":"B","max":"1000/1","min":"0/1","until":"20/1"}
"q" 39/2 Zürich => {"blocker":"Zürich","id":"\"q\"","max":"1000/1","min":"0/1","until":"39/2"}"##;

    fn told(rt: &impl Abort, alloc: Global, input: &str) -> String {
        let words = parts_of(alloc, input, ' ').expect(rt, "memory");
        let id = word(rt, &words, 0);
        let until = fraction(rt, word(rt, &words, 1));
        let blocker = word(rt, &words, 2);
        let label = label_of(rt, alloc, id, "0 0 -10,-5,10,5", "a");
        slot_told(rt, alloc, &label, until, blocker)
    }
}

#[test]
fn slots_are_written(rt: HostRuntime) {
    hold::<Slots>(&rt, rt.alloc())
}

/// The reason with this name.
fn reason_of(rt: &impl Abort, name: &str) -> Reason {
    match name {
        "NoGeometry" => Reason::NoGeometry,
        "NoClass" => Reason::NoClass,
        "NoName" => Reason::NoName,
        "TooWide" => Reason::TooWide,
        _ => panic!(rt; "a reason"),
    }
}

/// Reasons, and their texts for the id `#3`.
struct Reasons;

impl Table for Reasons {
    const LINES: &'static str = r##"NoGeometry => {"id":"#3","reason":"NoGeometry"}
NoClass => {"id":"#3","reason":"NoClass"}
NoName => {"id":"#3","reason":"NoName"}
TooWide => {"id":"#3","reason":"TooWide"}"##;

    fn told(rt: &impl Abort, alloc: Global, input: &str) -> String {
        let reason = reason_of(rt, input);
        text_of(
            rt,
            reason_json(alloc, &Text::of(alloc, "#3").expect(rt, "memory"), reason).expect(
                rt, "memory",
            ),
        )
    }
}

#[test]
fn reasons_are_named(rt: HostRuntime) {
    hold::<Reasons>(&rt, rt.alloc())
}

/// The changes that a text writes, with a semicolon between.
fn changes_of(rt: &impl Abort, alloc: Global, text: &str) -> Seq<Change> {
    let mut changes = Seq::new(alloc);
    if !text.is_empty() {
        for part in text.split(';') {
            changes
                .push(change_of(rt, alloc, part))
                .expect(rt, "memory");
        }
    }
    changes
}

/// `REV | ID BEFORE AFTER;ID BEFORE AFTER => TEXT`.
struct Edits;

impl Table for Edits {
    const LINES: &'static str =
        r##"1 | A - 0/1..1000/1 => {"changes":[{"after":["0/1","1000/1"],"before":null,"id":"A"}],"rev":1}
2 | A 0/1..1000/1 - => {"changes":[{"after":null,"before":["0/1","1000/1"],"id":"A"}],"rev":2}
18446744073709551615 | C 3/1..30/1 5/2..5/2;#1 0/1..20/1 0/1..1000/1 => {"changes":[{"after":["5/2","5/2"],"before":["3/1","30/1"],"id":"C"},{"after":["0/1","1000/1"],"before":["0/1","20/1"],"id":"#1"}],"rev":18446744073709551615}
3 |  => {"changes":[],"rev":3}"##;

    fn told(rt: &impl Abort, alloc: Global, input: &str) -> String {
        let (rev, changes) = first(rt, input);
        let rev = rev.parse::<u64>().ok().expect(rt, "a revision");
        let changes = changes_of(rt, alloc, changes);
        text_of(rt, edit_json(alloc, rev, &changes).expect(rt, "memory"))
    }
}

#[test]
fn edits_are_written(rt: HostRuntime) {
    hold::<Edits>(&rt, rt.alloc())
}

/// Revisions, features and labels, and their texts.
struct Revisions;

impl Table for Revisions {
    const LINES: &'static str = r#"0 0 0 => {"features":0,"labels":0,"rev":0}
7 300 21 => {"features":300,"labels":21,"rev":7}"#;

    fn told(rt: &impl Abort, alloc: Global, input: &str) -> String {
        let words = parts_of(alloc, input, ' ').expect(rt, "memory");
        let rev = number(rt, &words, 0);
        let features = number(rt, &words, 1) as usize;
        let labels = number(rt, &words, 2) as usize;
        text_of(
            rt,
            rev_json(alloc, rev, features, labels).expect(rt, "memory"),
        )
    }
}

#[test]
fn revisions_are_written(rt: HostRuntime) {
    hold::<Revisions>(&rt, rt.alloc())
}
