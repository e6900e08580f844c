//! The JSON of a view.
use crate::cases::{Table, fraction, hold, text_of, whole};
use ml_answer::JsonView;
use ml_cone::{BoxPx, Label, Order};
use ml_pass::read_boxes;
use ml_ratio::lines::parts_of;
use ml_ratio::{Seq, Text};
use std::alloc::Global;
use std::process::Abort;

/// The pieces of a text that has a `/` before each but the first.
fn pieces_of(rt: &impl Abort, alloc: Global, text: &str) -> Seq<Text> {
    let mut pieces = Seq::new(alloc);
    for piece in text.split('/') {
        pieces
            .push(Text::of(alloc, piece).expect(rt, "memory"))
            .expect(rt, "memory");
    }
    pieces
}

/// The order of the label with an id.
fn order_of(rt: &impl Abort, alloc: Global, id: &str) -> Order {
    let id = Text::of(alloc, id).expect(rt, "memory");
    Order {
        class: 3,
        rank: 7,
        id,
    }
}

/// The boxes that the words after two others write.
fn boxes_of(rt: &impl Abort, alloc: Global, words: &[&str]) -> Seq<BoxPx> {
    let words = words.get(2..).expect(rt, "two words and boxes");
    read_boxes(alloc, words)
        .expect(rt, "memory")
        .expect(rt, "boxes")
}

/// The label of an id, of places that a text writes as `X Y BOX ..`, and of pieces.
pub fn label_of(rt: &impl Abort, alloc: Global, id: &str, places: &str, pieces: &str) -> Label {
    let words = parts_of(alloc, places, ' ').expect(rt, "memory");
    let x = whole(rt, &words, 0);
    let y = whole(rt, &words, 1);
    let min = fraction(rt, "0");
    let max = fraction(rt, "1000");
    let boxes = boxes_of(rt, alloc, &words);
    let pieces = pieces_of(rt, alloc, pieces);
    let order = order_of(rt, alloc, id);
    let label = Label::of(order, x, y, boxes, pieces, min, max, 7);
    label.expect(rt, "within bounds")
}

/// Adds the label that a text writes, as `UNTIL;PLACES;PIECES;ID`.
fn add(rt: &impl Abort, alloc: Global, view: &mut JsonView, text: &str) {
    let (until, rest) = text.split_once(";").expect(rt, "an end");
    let (places, rest) = rest.split_once(";").expect(rt, "places");
    let (pieces, id) = rest.split_once(";").expect(rt, "pieces");
    let until = fraction(rt, until);
    view.add(&label_of(rt, alloc, id, places, pieces), until)
        .expect(rt, "memory");
}

/// A scale and labels, with a bar before each, and the text of the view.
struct JsonViews;

impl Table for JsonViews {
    const LINES: &'static str = r#"1 => {"labels":[],"scale":"1/1"}
38/4|1000;0 0 -10,-5,10,5;A;A|20/7;-1800000000 900000000 -30,-6,-10,4 -10,-5,10,5 10,-4,512,6;Zü/ri/ch;w:1 => {"labels":[{"at":[0,0],"boxes":[[-10,-5,10,5]],"id":"A","text":"A","until":"1000/1"},{"at":[-1800000000,900000000],"boxes":[[-30,-6,-10,4],[-10,-5,10,5],[10,-4,512,6]],"id":"w:1","text":"Zürich","until":"20/7"}],"scale":"19/2"}"#;

    fn told(rt: &impl Abort, alloc: Global, input: &str) -> String {
        let mut parts = input.split('|');
        let scale = fraction(rt, parts.next().expect(rt, "a scale"));
        let mut view = JsonView::new(alloc, scale).expect(rt, "memory");
        for part in parts {
            add(rt, alloc, &mut view, part);
        }
        text_of(rt, view.finish().expect(rt, "memory"))
    }
}

#[test]
fn a_view_is_written_label_by_label(rt: HostRuntime) {
    hold::<JsonViews>(&rt, rt.alloc())
}

/// What the text of a view with one label has before the label's id.
const HEAD: &str = r#"{"labels":[{"at":[1,-2],"boxes":[[-10,-5,10,5]],"id":""#;

/// What stands there between its id and its text.
const MIDDLE: &str = r#"","text":""#;

/// What stands there after its text.
const TAIL: &str = r#"","until":"5/2"}],"scale":"1/1"}"#;

/// How the text of a view with one label writes both the label's id and its text.
fn quoted_in(view: &str) -> Option<&str> {
    let rest = view.strip_prefix(HEAD)?.strip_suffix(TAIL)?;
    let (id, text) = rest.split_once(MIDDLE)?;
    if id == text { Some(id) } else { None }
}

/// The text of a view of one label with this id and this text.
fn view_told(rt: &impl Abort, alloc: Global, text: &str) -> String {
    let until = fraction(rt, "5/2");
    let mut view = JsonView::new(alloc, fraction(rt, "1")).expect(rt, "memory");
    view.add(&label_of(rt, alloc, text, "1 -2 -10,-5,10,5", text), until)
        .expect(rt, "memory");
    text_of(rt, view.finish().expect(rt, "memory"))
}

/// Ids and texts, with a pilcrow for a line feed, and how JSON writes them.
struct Quoted;

impl Table for Quoted {
    const LINES: &'static str = "\
Zürich => Zürich
 => 
e\u{301} => e\u{301}
say \"a\" => say \\\"a\\\"
back\\slash => back\\\\slash
a|b => a|b
a\tb¶\r => a\\tb\\n\\r
\u{8}\u{c} => \\b\\f
\u{0}\u{1}\u{1f} => \\u0000\\u0001\\u001f
\u{7f}\u{1f30d} => \u{7f}\u{1f30d}";

    fn told(rt: &impl Abort, alloc: Global, input: &str) -> String {
        let raw = input.replace(alloc, "¶", "\n").expect(rt, "memory");
        let view = view_told(rt, alloc, &raw);
        quoted_in(&view)
            .expect(rt, "a quoted id")
            .to_string(alloc)
            .expect(rt, "memory")
    }
}

#[test]
fn ids_and_texts_are_quoted(rt: HostRuntime) {
    hold::<Quoted>(&rt, rt.alloc())
}
