//! Tables of labels, the longest choice of their labels, and the judge.
ghost use Rattle.std.specs.Prelude.{◌≤◌, length};

use crate::cases::{Table, first, good_label, hold, label_told, lines_of, lines_told, ratio_told};
use ml_cert::{Verdict, check, read_slots};
use ml_cone::{Label, Slot};
use ml_pass::{assign, read_table, write_slots};
use ml_ratio::{Ratio, Seq};
use std::alloc::Global;
use std::process::Abort;

/// The text of the slots of a table's labels.
fn slots_of(rt: &impl Abort, alloc: Global, table: &str) -> Seq<u8> {
    let labels = read_table(alloc, table.as_bytes()).expect(rt, "a table");
    let slots = assign(alloc, labels.as_slice()).expect(rt, "memory");
    write_slots(alloc, labels.as_slice(), slots.as_slice()).expect(rt, "memory")
}

/// Tables, and the slots of their labels, with a bar for each line feed. In order:
///
/// - two labels that begin as one, no label, and two of which the first begins later;
/// - boxes that overlap from 20/7 to 20, for labels that begin below, within and above;
/// - three labels, and the last two alone: without the first the second takes its place, and the
///   third has less;
/// - two limits of 20: the first label that sets it is the blocker;
/// - one anchor, and boxes that touch at every scale;
/// - the ends of the world.
struct Choices;

impl Table for Choices {
    const LINES: &'static str = "\
A 0 0 0 1000 -10,-5,10,5|B 400 0 0 1000 -10,-5,10,5| => A 1000/1 -|B 20/1 A|
 => 
A 0 0 50 1000 -10,-5,10,5|B 400 0 0 1000 -10,-5,10,5| => A 1000/1 -|B 50/1 A|
A 0 0 0 1000 10,-5,30,5|B 100 0 0 1000 -5,-5,5,5| => A 1000/1 -|B 20/7 A|
A 0 0 0 1000 10,-5,30,5|B 100 0 10 1000 -5,-5,5,5| => A 1000/1 -|B 10/1 A|
A 0 0 0 1000 10,-5,30,5|B 100 0 25 1000 -5,-5,5,5| => A 1000/1 -|B 1000/1 -|
A 0 0 0 1000 -10,-5,10,5|B 400 0 0 1000 -10,-5,10,5|C 800 0 0 1000 -10,-5,10,5| => A 1000/1 -|B 20/1 A|C 40/1 A|
B 400 0 0 1000 -10,-5,10,5|C 800 0 0 1000 -10,-5,10,5| => B 1000/1 -|C 20/1 B|
A -400 0 0 1000 -10,-5,10,5|B 400 0 0 1000 -10,-5,10,5|C 0 0 0 1000 -10,-5,10,5| => A 1000/1 -|B 40/1 A|C 20/1 A|
A 7 7 0 1000 -10,-5,10,5|B 7 7 0 1000 -10,-5,10,5| => A 1000/1 -|B 0/1 A|
A 7 7 0 1000 -10,-5,0,5|B 7 7 0 1000 0,-5,10,5| => A 1000/1 -|B 1000/1 -|
A -1800000000 0 0 268435456 -10,-5,10,5|B 1800000000 0 0 268435456 -10,-5,10,5| => A 268435456/1 -|B 180000000/1 A|";

    fn told(rt: &impl Abort, alloc: Global, input: &str) -> String {
        let table = lines_of(rt, alloc, input);
        lines_told(rt, alloc, slots_of(rt, alloc, &table).as_slice())
    }
}

#[test]
fn each_range_is_as_long_as_those_before_it_allow(rt: HostRuntime) {
    hold::<Choices>(&rt, rt.alloc())
}

/// The labels that a text writes, with ` | ` between.
fn labels_of(rt: &impl Abort, alloc: Global, text: &str) -> Vec<Label> {
    let mut labels = Vec::new(alloc);
    for part in text.split(" | ") {
        labels
            .push(good_label(rt, alloc, part))
            .expect(rt, "memory");
    }
    labels
}

/// The labels, where a choice may have so many.
fn few(labels: &[Label]) -> &[Label]
    ensures { length result.now ≤ 32768 }
{
    if labels.len() <= 32768 { labels } else { &[] }
}

/// The ends of slots, and the place of the last one's blocker.
fn ends_told(rt: &impl Abort, alloc: Global, slots: &[Slot]) -> String {
    let mut told = String::new(alloc);
    for slot in slots {
        told.push_str(&ratio_told(rt, alloc, Some(slot.until)))
            .expect(rt, "memory");
        told.push_str(", ").expect(rt, "memory");
    }
    let last = slots.last().expect(rt, "a slot");
    let blocker = last.blocker.expect(rt, "a blocker");
    format!(in alloc; "{told}{blocker}").expect(rt, "memory")
}

/// Three labels with margins, each 400 units from the next, and their ends; then the place of the
/// last one's blocker.
struct Margins;

impl Table for Margins {
    const LINES: &'static str = "\
0 0 0 1000 5 1 -10,-10,10,10 | 400 0 0 1000 5 1 -10,-10,10,10 | 800 0 0 1000 5 1 -10,-10,10,10 => 1000/1, 40/3, 80/3, 0";

    fn told(rt: &impl Abort, alloc: Global, input: &str) -> String {
        let labels = labels_of(rt, alloc, input);
        let slots = assign(alloc, few(&labels)).expect(rt, "memory");
        ends_told(rt, alloc, slots.as_slice())
    }
}

#[test]
fn margins_of_both_keep_labels_apart(rt: HostRuntime) {
    hold::<Margins>(&rt, rt.alloc())
}

/// Why bytes are no table, or `none`.
fn fault_told(rt: &impl Abort, alloc: Global, bytes: &[u8]) -> String {
    match read_table(alloc, bytes) {
        Ok(_labels) => "none".to_string(alloc).expect(rt, "memory"),
        Err(fault) => format!(in alloc; "{fault:?}").expect(rt, "memory"),
    }
}

/// Tables, and the first line that writes no label or whose id an earlier one has, with a bar for each
/// line feed. Empty lines count, with a CR or without; a line is at fault before its id is; a CR that
/// no LF follows belongs to its line.
struct BadTables;

impl Table for BadTables {
    const LINES: &'static str = "\
A 0 0 0 1000 -10,-5,10,5|B 400 0 0| => BadLine(2)
|\r|A 0 0 0 1 0,0,1,1\r||B 0| => BadLine(5)
A 0 0 0 1 0,0,1,1|A 0 0 1 1 0,0,1,1| => BadLine(2)
A 0 0 0 1 0,0,1,1\r => BadLine(1)
A 0 0 0 1 0,0,1,1\r\r| => BadLine(1)
A 0 0 0 1 0,0,1,1\rB 0 0 0 1 0,0,1,1| => BadLine(1)
- 0 0 0 1 0,0,1,1 => BadLine(1)
 A 0 0 0 1 0,0,1,1 => BadLine(1)
A  0 0 0 1 0,0,1,1 => BadLine(1)
A 0 0 0 1 0,0,1,1  => BadLine(1)
A\t0 0 0 1 0,0,1,1 => BadLine(1)
ä 0 0 0 1 0,0,1,1 => BadLine(1)
A 0 0 0 1 => BadLine(1)
A 0 0 0 1  => BadLine(1)
A 2000000001 0 0 1 0,0,1,1 => BadLine(1)
A 0 -2000000001 0 1 0,0,1,1 => BadLine(1)
A 0 0 1 1 0,0,1,1 => BadLine(1)
A 0 0 0 268435457 0,0,1,1 => BadLine(1)
A 0 0 0 1/0 0,0,1,1 => BadLine(1)
A 0 0 -1 1 0,0,1,1 => BadLine(1)
A 0 0 0 1 0,0,0,1 => BadLine(1)
A 0 0 0 1 0,0,1,0 => BadLine(1)
A 0 0 0 1 0,0,513,1 => BadLine(1)
A 0 0 0 1 0,-513,1,1 => BadLine(1)
A 0 0 0 1 0,0,1 => BadLine(1)
A 0 0 0 1 0,0,1,1,1 => BadLine(1)
A 0 0 0 1 0,0,1,1 0,0,1 => BadLine(1)
A +1 0 0 1 0,0,1,1 => BadLine(1)
A 0 0 0 1 0,0,1,1|A 9 9 0 1 0,0,1,1| => SameId(2)
|A 0 0 0 1 0,0,1,1|||A 0 0 0 1 0,0,1,1 => SameId(5)
A 0 0 0 1 0,0,1,1|A 0 0 0 1 0,0,1,1|B| => SameId(2)";

    fn told(rt: &impl Abort, alloc: Global, input: &str) -> String {
        let table = lines_of(rt, alloc, input);
        fault_told(rt, alloc, table.as_bytes())
    }
}

#[test]
fn the_first_line_at_fault_decides(rt: HostRuntime) {
    hold::<BadTables>(&rt, rt.alloc())
}

/// A table, and the parts of its labels.
struct GoodTables;

impl Table for GoodTables {
    const LINES: &'static str = "\
\r|A! -7 9 1/2 14/6 -30,-7,4,8 4,-6,33,9\r||~ 0 0 0 1 -0,0,0001,1 => 0 0 A! -7 9 1/2 7/3 0 -30,-7,4,8:A! 4,-6,33,9:, 1 0 ~ 0 0 0/1 1/1 0 0,0,1,1:~, ";

    fn told(rt: &impl Abort, alloc: Global, input: &str) -> String {
        let table = lines_of(rt, alloc, input);
        let labels = read_table(alloc, table.as_bytes()).expect(rt, "a table");
        let mut told = String::new(alloc);
        for label in labels.as_slice() {
            told.push_str(&label_told(rt, alloc, label))
                .expect(rt, "memory");
            told.push_str(", ").expect(rt, "memory");
        }
        told
    }
}

#[test]
fn a_line_writes_these_parts(rt: HostRuntime) {
    hold::<GoodTables>(&rt, rt.alloc())
}

/// A table of 32,768 labels, and a further line.
fn long_table(rt: &impl Abort, alloc: Global, last: &str) -> String {
    let mut table = String::new(alloc);
    for i in 0..32768u32 {
        table
            .push_str(&format!(in alloc; "L{i} {i} 0 0 1 0,0,1,1\n").expect(rt, "memory"))
            .expect(rt, "memory");
    }
    table.push_str(last).expect(rt, "memory");
    table
}

/// The last line of a table of 32,768 other labels, and why that is no table.
struct LongTables;

impl Table for LongTables {
    const LINES: &'static str = "\
L7 0 0 0 1 0,0,1,1 => SameId(32769)
 => none
L 0 0 0 1 0,0,1,1 => Full";

    fn told(rt: &impl Abort, alloc: Global, input: &str) -> String {
        let table = long_table(rt, alloc, input);
        fault_told(rt, alloc, table.as_bytes())
    }
}

#[test]
fn a_table_has_at_most_32768_labels(rt: HostRuntime) {
    hold::<LongTables>(&rt, rt.alloc())
}

/// A table of two labels.
const TWO: &str = "A 0 0 0 1000 -10,-5,10,5\nB 400 0 0 1000 -10,-5,10,5\n";

/// A table of three labels of which two set one limit.
const TIED: &str =
    "A -400 0 0 1000 -10,-5,10,5\nB 400 0 0 1000 -10,-5,10,5\nC 0 0 0 1000 -10,-5,10,5\n";

/// The table that a word names.
fn table_of(word: &str) -> &'static str {
    if word == "two" { TWO } else { TIED }
}

/// The words of a clash.
fn clash_told(rt: &impl Abort, alloc: Global, i: usize, j: usize, limit: &Ratio) -> String {
    let limit = limit.text(alloc).expect(rt, "memory");
    format!(in alloc; "Clash {i} {j} {}", limit.as_str()).expect(rt, "memory")
}

/// The words of a verdict.
fn verdict_told(rt: &impl Abort, alloc: Global, verdict: Verdict) -> String {
    let (word, place) = match verdict {
        Verdict::Best => return "Best".to_string(alloc).expect(rt, "memory"),
        Verdict::Clash(i, j, limit) => return clash_told(rt, alloc, i, j, &limit),
        Verdict::BadEnd(i) => ("BadEnd", i),
        Verdict::Uncovered(i) => ("Uncovered", i),
        Verdict::BadBlocker(i) => ("BadBlocker", i),
    };
    format!(in alloc; "{word} {place}").expect(rt, "memory")
}

/// What the judge says of the labels of a table and their slots.
fn judged(rt: &impl Abort, alloc: Global, labels: &[Label], slots: &[Slot]) -> String {
    if slots.len() != labels.len() {
        panic!(rt; "a slot for each label");
    }
    verdict_told(rt, alloc, check(labels, slots))
}

/// What the judge says of the labels of a table and the slots that a text writes.
fn judged_in(rt: &impl Abort, alloc: Global, labels: &[Label], text: &str) -> String
    requires { length labels.now ≤ 32768 }
{
    let text = lines_of(rt, alloc, text);
    let slots = read_slots(alloc, labels, text.as_bytes()).expect(rt, "slots");
    judged(rt, alloc, labels, slots.as_slice())
}

/// A table, slots with a bar for each line feed, and the verdict's words; a clash has its limit behind
/// it. The first label at fault decides.
struct Verdicts;

impl Table for Verdicts {
    const LINES: &'static str = "\
two | A 1000/1 -|B 20/1 A| => Best
two | A 1000/1 -|B 30/1 A| => Clash 1 0 20/1
two | A 1000/1 -|B 10/1 A| => Uncovered 1
two | A 1000/1 -|B 20/1 -| => BadBlocker 1
two | A 1000/1 -|B 20/1 B| => BadBlocker 1
two | A 1000/1 -|B 1001/1 A| => BadEnd 1
two | A 1000/1 B|B 30/1 -| => BadBlocker 0
tied | A 1000/1 -|B 40/1 A|C 20/1 A| => Best
tied | A 1000/1 -|B 40/1 A|C 20/1 B| => BadBlocker 2";

    fn told(rt: &impl Abort, alloc: Global, input: &str) -> String {
        let (name, slots) = first(rt, input);
        let labels = read_table(alloc, table_of(name).as_bytes()).expect(rt, "a table");
        judged_in(rt, alloc, labels.as_slice(), slots)
    }
}

#[test]
fn the_first_wrong_slot_is_judged(rt: HostRuntime) {
    hold::<Verdicts>(&rt, rt.alloc())
}

/// The id of the label at a place, or `-` for no place.
fn blocker_told<'a>(rt: &impl Abort, labels: &'a [Label], place: Option<u32>) -> &'a str {
    match place {
        Some(place) => {
            let label = labels.get(place as usize).expect(rt, "a place");
            label.id().as_str()
        }
        None => "-",
    }
}

/// A slot as it is written again, with a bar for the line feed.
fn row_told(rt: &impl Abort, alloc: Global, id: &str, slot: &Slot, blocker: &str) -> String {
    let until = slot.until.text(alloc).expect(rt, "memory");
    let until = until.as_str();
    format!(in alloc; "{id} {until} {blocker}|").expect(rt, "memory")
}

/// Slots as they are written again, with a bar for each line feed.
fn written(rt: &impl Abort, alloc: Global, labels: &[Label], slots: &[Slot]) -> String {
    let mut told = String::new(alloc);
    for (label, slot) in labels.iter().zip(slots) {
        let blocker = blocker_told(rt, labels, slot.blocker);
        told.push_str(&row_told(rt, alloc, label.id().as_str(), slot, blocker))
            .expect(rt, "memory");
    }
    told
}

/// The slots of the two labels that bytes write, as they are written again, or the line at fault.
fn slots_told(rt: &impl Abort, alloc: Global, bytes: &[u8]) -> String {
    let labels = read_table(alloc, TWO.as_bytes()).expect(rt, "a table");
    match read_slots(alloc, labels.as_slice(), bytes) {
        Ok(slots) => written(rt, alloc, labels.as_slice(), slots.as_slice()),
        Err(fault) => format!(in alloc; "{fault:?}").expect(rt, "memory"),
    }
}

/// Texts of two labels' slots, and the slots as they are written again, or the line at fault, with a
/// bar for each line feed.
struct SlotTexts;

impl Table for SlotTexts {
    const LINES: &'static str = "\
A 1000/1 -|B 20/1 A| => A 1000/1 -|B 20/1 A|
A 1000 -\r|\r||B 40/2 A => A 1000/1 -|B 20/1 A|
A 1 B|B 2 B| => A 1/1 B|B 2/1 B|
 => BadLine(1)
A 1000/1 -| => BadLine(2)
A 1000/1 -||| => BadLine(4)
|A 1000/1 -||B 20/1 Z| => BadLine(4)
A 1000/1 -|B 20/1 A||A 1000/1 -| => BadLine(4)
B 20/1 -|A 1000/1 -| => BadLine(1)
A 1000/1 -|C 20/1 A| => BadLine(2)
A 1000/1  -| => BadLine(1)
A 1000/1| => BadLine(1)
A 5/0 -| => BadLine(1)
A 1000/1 -|B 20/1 A\r => BadLine(2)";

    fn told(rt: &impl Abort, alloc: Global, input: &str) -> String {
        let text = lines_of(rt, alloc, input);
        slots_told(rt, alloc, text.as_bytes())
    }
}

#[test]
fn texts_are_read_as_slots(rt: HostRuntime) {
    hold::<SlotTexts>(&rt, rt.alloc())
}

#[test]
fn bytes_that_are_no_text_are_refused(rt: HostRuntime) {
    let table = fault_told(&rt, rt.alloc(), b"A\xff 0 0 0 1 0,0,1,1\n");
    let slots = slots_told(&rt, rt.alloc(), b"A 1000/1 \xff\n");
    assert!(rt; table.as_str() == "BadLine(1)" && slots.as_str() == "BadLine(1)");
}
