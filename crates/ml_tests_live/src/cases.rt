//! Tables of cases, what the parts of a case write, and answers as texts.
use ml_cone::{Label, Span, View};
use ml_io::MemSink;
use ml_pass::read_table;
use ml_ratio::lines::parts_of;
use ml_ratio::{Ratio, Seq, Text, read_whole};
use ml_view::read_view;
use ml_watch::{Change, LineWatcher, Watcher};
use std::alloc::Global;
use std::process::Abort;

/// Cases of one kind, each a line `input => answer`.
pub trait Table {
    /// The cases.
    const LINES: &'static str;

    /// The answer to an input.
    fn told(rt: &impl Abort, alloc: Global, input: &str) -> String;
}

/// Fails where the answer to a case is another one.
fn holds<T: Table>(rt: &impl Abort, alloc: Global, line: &str) {
    let (input, want) = line.split_once(" => ").expect(rt, "a case");
    let told = T::told(rt, alloc, input);
    assert!(rt; told.as_str() == want, "{line}, not {told}");
}

/// Fails at the first case of a table that has another answer.
pub fn hold<T: Table>(rt: &impl Abort, alloc: Global) {
    for line in T::LINES.lines() {
        holds::<T>(rt, alloc, line);
    }
}

/// The parts of an input, with ` | ` between the first and the rest.
pub fn first<'a>(rt: &impl Abort, input: &'a str) -> (&'a str, &'a str) {
    input.split_once(" | ").expect(rt, "two parts")
}

/// The text with a line feed for each bar.
pub fn lines_of(rt: &impl Abort, alloc: Global, text: &str) -> String {
    text.replace(alloc, "|", "\n").expect(rt, "memory")
}

/// The text with a line feed for each ` / `.
pub fn rows_of(rt: &impl Abort, alloc: Global, text: &str) -> String {
    text.replace(alloc, " / ", "\n").expect(rt, "memory")
}

/// The text that bytes are, with a bar for each line feed.
pub fn lines_told(rt: &impl Abort, alloc: Global, bytes: &[u8]) -> String {
    let text = std::str::from_utf8(bytes).ok().expect(rt, "a text");
    text.replace(alloc, "\n", "|").expect(rt, "memory")
}

/// One of the words of an input.
pub fn word<'a>(rt: &impl Abort, words: &[&'a str], place: usize) -> &'a str {
    words.get(place).copied().expect(rt, "a further word")
}

/// The whole number that a word writes.
pub fn whole(rt: &impl Abort, words: &[&str], place: usize) -> i64 {
    read_whole(word(rt, words, place)).expect(rt, "a whole number")
}

/// The number without a sign that a word writes.
pub fn number(rt: &impl Abort, words: &[&str], place: usize) -> u64 {
    word(rt, words, place)
        .parse::<u64>()
        .ok()
        .expect(rt, "a number")
}

/// The fraction that a text writes.
pub fn fraction(rt: &impl Abort, text: &str) -> Ratio {
    Ratio::read(text).expect(rt, "a fraction")
}

/// The view that a text writes, as `CX CY W H SCALE`.
pub fn view_of(rt: &impl Abort, alloc: Global, text: &str) -> View {
    let words = parts_of(alloc, text, ' ').expect(rt, "memory");
    let cx = word(rt, &words, 0);
    let cy = word(rt, &words, 1);
    let w = word(rt, &words, 2);
    let h = word(rt, &words, 3);
    read_view(cx, cy, w, h, word(rt, &words, 4))
        .ok()
        .expect(rt, "a view")
}

/// The label that a row writes.
pub fn label_of(rt: &impl Abort, alloc: Global, row: &str) -> Label {
    let mut labels = read_table(alloc, row.as_bytes())
        .expect(rt, "a table")
        .into_vec();
    labels.pop().expect(rt, "a label")
}

/// The span that a word writes, as `0/1..20/1`, or `-` for none.
fn span_of(rt: &impl Abort, word: &str) -> Option<Span> {
    if word == "-" {
        return None;
    }
    let (min, until) = word.split_once("..").expect(rt, "a span");
    let min = fraction(rt, min);
    let until = fraction(rt, until);
    Some(Span { min, until })
}

/// The change that a text writes, as `ID SPAN SPAN`.
pub fn change_of(rt: &impl Abort, alloc: Global, text: &str) -> Change {
    let (id, spans) = text.split_once(" ").expect(rt, "an id");
    let (before, after) = spans.split_once(" ").expect(rt, "two spans");
    let before = span_of(rt, before);
    let after = span_of(rt, after);
    let id = Text::of(alloc, id).expect(rt, "memory");
    Change { id, before, after }
}

/// The text that bytes are.
pub fn text_of(rt: &impl Abort, bytes: Seq<u8>) -> String {
    String::from_utf8(bytes.into_vec())
        .ok()
        .expect(rt, "a text")
}

/// The lines of changes, as a watcher writes them, with a bar for each line feed.
pub fn changes_told(rt: &impl Abort, alloc: Global, changes: &Seq<Change>) -> String {
    let mut watcher = LineWatcher::new(MemSink::new(alloc, 500, Vec::new(alloc)).expect(
        rt, "memory",
    ));
    for change in changes.as_slice() {
        watcher.tell(change).expect(rt, "memory");
    }
    lines_told(rt, alloc, watcher.sink().bytes())
}
