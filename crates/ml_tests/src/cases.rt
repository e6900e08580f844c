//! Tables of cases, and what the parts of a case write.
use ml_cone::{BoxPx, Label, Order, View};
use ml_ratio::lines::parts_of;
use ml_ratio::{Ratio, Seq, Text, read_whole};
use std::alloc::Global;
use std::process::Abort;

/// Cases of one kind, each a line `input => answer`.
pub trait Table {
    /// The cases.
    const LINES: &'static str;

    /// The answer to an input.
    fn told(rt: &impl Abort, alloc: Global, input: &str) -> String;
}

/// Fails where the answer to a case is another one.
fn holds<T: Table>(rt: &impl Abort, alloc: Global, line: &str) {
    let (input, want) = line.split_once(" => ").expect(rt, "a case");
    let told = T::told(rt, alloc, input);
    assert!(rt; told.as_str() == want, "{line}, not {told}");
}

/// Fails at the first case of a table that has another answer.
pub fn hold<T: Table>(rt: &impl Abort, alloc: Global) {
    for line in T::LINES.lines() {
        holds::<T>(rt, alloc, line);
    }
}

/// The parts of an input, with ` | ` between the first and the rest.
pub fn first<'a>(rt: &impl Abort, input: &'a str) -> (&'a str, &'a str) {
    input.split_once(" | ").expect(rt, "two parts")
}

/// The text with a line feed for each bar.
pub fn lines_of(rt: &impl Abort, alloc: Global, text: &str) -> String {
    text.replace(alloc, "|", "\n").expect(rt, "memory")
}

/// The text with a line feed for each ` / `.
pub fn rows_of(rt: &impl Abort, alloc: Global, text: &str) -> String {
    text.replace(alloc, " / ", "\n").expect(rt, "memory")
}

/// The text that bytes are, with a bar for each line feed.
pub fn lines_told(rt: &impl Abort, alloc: Global, bytes: &[u8]) -> String {
    let text = std::str::from_utf8(bytes).ok().expect(rt, "a text");
    text.replace(alloc, "\n", "|").expect(rt, "memory")
}

/// One of the words of an input.
pub fn word<'a>(rt: &impl Abort, words: &[&'a str], place: usize) -> &'a str {
    words.get(place).copied().expect(rt, "a further word")
}

/// The whole number that a word writes.
pub fn whole(rt: &impl Abort, words: &[&str], place: usize) -> i64 {
    read_whole(word(rt, words, place)).expect(rt, "a whole number")
}

/// The number without a sign that a word writes.
pub fn count(rt: &impl Abort, words: &[&str], place: usize) -> u32 {
    word(rt, words, place)
        .parse::<u32>()
        .ok()
        .expect(rt, "a number")
}

/// The large number without a sign that a word writes.
pub fn number(rt: &impl Abort, words: &[&str], place: usize) -> u64 {
    word(rt, words, place)
        .parse::<u64>()
        .ok()
        .expect(rt, "a number")
}

/// The offset that a word writes.
fn offset(rt: &impl Abort, words: &[&str], place: usize) -> i32 {
    word(rt, words, place)
        .parse::<i32>()
        .ok()
        .expect(rt, "an offset")
}

/// The fraction that a text writes.
pub fn fraction(rt: &impl Abort, text: &str) -> Ratio {
    Ratio::read(text).expect(rt, "a fraction")
}

/// The fraction that a word writes.
pub fn fraction_at(rt: &impl Abort, words: &[&str], place: usize) -> Ratio {
    fraction(rt, word(rt, words, place))
}

/// The box that a text writes, as `-10,-5,10,5`.
fn box_of(rt: &impl Abort, alloc: Global, text: &str) -> BoxPx {
    let words = parts_of(alloc, text, ',').expect(rt, "memory");
    let l = offset(rt, &words, 0);
    let b = offset(rt, &words, 1);
    let r = offset(rt, &words, 2);
    let t = offset(rt, &words, 3);
    BoxPx { l, b, r, t }
}

/// The boxes that words write.
fn boxes_of(rt: &impl Abort, alloc: Global, words: &[&str]) -> Seq<BoxPx> {
    let mut boxes = Seq::new(alloc);
    for word in words {
        boxes.push(box_of(rt, alloc, word)).expect(rt, "memory");
    }
    boxes
}

/// So many pieces of text.
pub fn pieces_of(rt: &impl Abort, alloc: Global, count: u32) -> Seq<Text> {
    let mut pieces = Seq::new(alloc);
    for _piece in 0..count {
        pieces
            .push(Text::of(alloc, "a").expect(rt, "memory"))
            .expect(rt, "memory");
    }
    pieces
}

/// The label of these boxes that six words write, if these parts make one.
fn label_with(rt: &impl Abort, alloc: Global, words: &[&str], boxes: Seq<BoxPx>) -> Option<Label> {
    let id = Text::of(alloc, "A").expect(rt, "memory");
    let order = Order {
        class: 0,
        rank: 0,
        id,
    };
    let x = whole(rt, words, 0);
    let y = whole(rt, words, 1);
    let min = fraction_at(rt, words, 2);
    let max = fraction_at(rt, words, 3);
    let margin = count(rt, words, 4);
    let pieces = pieces_of(rt, alloc, count(rt, words, 5));
    Label::of(order, x, y, boxes, pieces, min, max, margin)
}

/// The label that a text writes, as `X Y MIN MAX MARGIN PIECES BOX ..`, if these parts make one. Its
/// id is `A`.
pub fn label_of(rt: &impl Abort, alloc: Global, text: &str) -> Option<Label> {
    let words = parts_of(alloc, text, ' ').expect(rt, "memory");
    let boxes = boxes_of(rt, alloc, words.get(6..).expect(rt, "six words and boxes"));
    label_with(rt, alloc, &words, boxes)
}

/// The label that a text writes.
pub fn good_label(rt: &impl Abort, alloc: Global, text: &str) -> Label {
    label_of(rt, alloc, text).expect(rt, "a label")
}

/// What is told of a label.
pub trait OfLabel {
    /// The answer to what follows the label in an input.
    fn told_of(rt: &impl Abort, alloc: Global, label: &Label, rest: &str) -> String;
}

/// What is told of an input `LABEL | REST`.
pub fn told_of_label<T: OfLabel>(rt: &impl Abort, alloc: Global, input: &str) -> String {
    let (label, rest) = first(rt, input);
    let label = good_label(rt, alloc, label);
    T::told_of(rt, alloc, &label, rest)
}

/// What is told of two labels.
pub trait OfPair {
    /// The answer to what follows the labels in an input.
    fn told_of(rt: &impl Abort, alloc: Global, one: &Label, other: &Label, rest: &str) -> String;
}

/// What is told of an input `LABEL | LABEL` or `LABEL | LABEL | REST`.
pub fn told_of_pair<T: OfPair>(rt: &impl Abort, alloc: Global, input: &str) -> String {
    let (one, rest) = first(rt, input);
    let (other, rest) = rest.split_once(" | ").unwrap_or((rest, ""));
    let one = good_label(rt, alloc, one);
    let other = good_label(rt, alloc, other);
    T::told_of(rt, alloc, &one, &other, rest)
}

/// The view that a text writes, as `CX CY W H SCALE`, if these parts make one.
pub fn view_of(rt: &impl Abort, alloc: Global, text: &str) -> Option<View> {
    let words = parts_of(alloc, text, ' ').expect(rt, "memory");
    let cx = whole(rt, &words, 0);
    let cy = whole(rt, &words, 1);
    let w = count(rt, &words, 2);
    let h = count(rt, &words, 3);
    let scale = fraction_at(rt, &words, 4);
    View::of(cx, cy, w, h, scale)
}

/// The view that a text writes.
pub fn good_view(rt: &impl Abort, alloc: Global, text: &str) -> View {
    view_of(rt, alloc, text).expect(rt, "a view")
}

/// The words of a view.
pub fn view_told(rt: &impl Abort, alloc: Global, view: &View) -> String {
    let (cx, cy, w, h) = (view.cx, view.cy, view.w, view.h);
    let scale = view.scale.text(alloc).expect(rt, "memory");
    format!(in alloc; "{cx} {cy} {w} {h} {}", scale.as_str()).expect(rt, "memory")
}

/// The fraction's text, and `-` for none.
pub fn ratio_told(rt: &impl Abort, alloc: Global, ratio: Option<Ratio>) -> String {
    match ratio {
        Some(ratio) => ratio
            .text(alloc)
            .expect(rt, "memory")
            .as_str()
            .to_string(alloc)
            .expect(rt, "memory"),
        None => "-".to_string(alloc).expect(rt, "memory"),
    }
}

/// The answer that a question has both ways.
pub fn both_told(rt: &impl Abort, alloc: Global, one: bool, other: bool) -> String {
    if one != other {
        panic!(rt; "another answer the other way");
    }
    one.to_string(alloc).expect(rt, "memory")
}

/// Whether each item is less than the next, and none but itself is equal to an item.
pub fn is_rising<T: Ord>(items: &[T]) -> bool {
    for (i, one) in items.iter().enumerate() {
        for (j, other) in items.iter().enumerate() {
            if one.cmp(other) != i.cmp(&j) || (one == other) != (i == j) {
                return false;
            }
        }
    }
    true
}

/// The ends of a range.
pub fn range_told(rt: &impl Abort, alloc: Global, from: &Ratio, to: &Ratio) -> String {
    let from = from.text(alloc).expect(rt, "memory");
    let to = to.text(alloc).expect(rt, "memory");
    format!(in alloc; "{} {}", from.as_str(), to.as_str()).expect(rt, "memory")
}

/// A box and its piece of text.
fn box_told(rt: &impl Abort, alloc: Global, px: &BoxPx, piece: &Text) -> String {
    let (l, b, r, t) = (px.l, px.b, px.r, px.t);
    format!(in alloc; " {l},{b},{r},{t}:{}", piece.as_str()).expect(rt, "memory")
}

/// The order and the anchor of a label.
fn place_told(rt: &impl Abort, alloc: Global, label: &Label) -> String {
    let (order, x, y) = (label.order(), label.x(), label.y());
    let (class, rank, id) = (order.class, order.rank, order.id.as_str());
    format!(in alloc; "{class} {rank} {id} {x} {y}").expect(rt, "memory")
}

/// The boxes of a label with their pieces of text.
fn boxes_told(rt: &impl Abort, alloc: Global, label: &Label) -> String {
    let mut told = String::new(alloc);
    let boxes = label.boxes().as_slice().iter();
    for (px, piece) in boxes.zip(label.pieces().as_slice()) {
        told.push_str(&box_told(rt, alloc, px, piece))
            .expect(rt, "memory");
    }
    told
}

/// The range and the margin of a label.
fn scales_told(rt: &impl Abort, alloc: Global, label: &Label) -> String {
    let range = range_told(rt, alloc, &label.min(), &label.max());
    format!(in alloc; "{range} {}", label.margin()).expect(rt, "memory")
}

/// The parts of a label, as `CLASS RANK ID X Y MIN MAX MARGIN BOX:PIECE ..`.
pub fn label_told(rt: &impl Abort, alloc: Global, label: &Label) -> String {
    let place = place_told(rt, alloc, label);
    let scales = scales_told(rt, alloc, label);
    let boxes = boxes_told(rt, alloc, label);
    format!(in alloc; "{place} {scales}{boxes}").expect(rt, "memory")
}

/// Numbers with spaces between, or `none`.
pub fn numbers_told(rt: &impl Abort, alloc: Global, numbers: &[u32]) -> String {
    if numbers.is_empty() {
        return "none".to_string(alloc).expect(rt, "memory");
    }
    let mut told = String::new(alloc);
    for number in numbers {
        if !told.is_empty() {
            told.push_str(" ").expect(rt, "memory");
        }
        told.push_str(&number.to_string(alloc).expect(rt, "memory"))
            .expect(rt, "memory");
    }
    told
}
