//! Labels worked out by hand. A label is written as its id, class, rank, anchor, range of scales, and
//! its pieces, each with the left, bottom, right and top of its box.
use crate::cases::{Subject, each_holds};
use ml_cone::{BoxPx, Label, Order};
use ml_geojson::read_collection;
use ml_label::{label_of, labels_of};
use ml_pass::{assign, write_slots};
use ml_ratio::Feature;
use ml_style::{SAMPLE, Style, read_style};
use std::alloc::Global;
use std::process::Abort;

/// A style of points and lines, each letter one pixel wide and high.
const PIXELS: &str = r#"
version = 1
[fonts.f]
units = 1
default = 1

[[class]]
geometry = "point"
key = "moved"
value = "right"
font = "f"
size = 1
priority = 7
dx = 1
dy = -256
min = "1/2"
max = "3/2"

[[class]]
geometry = "point"
key = "moved"
value = "left"
font = "f"
size = 1
priority = 7
dx = -1
min = "0"
max = "1"

[[class]]
geometry = "point"
font = "f"
size = 1
priority = 7
min = "0"
max = "1"

[[class]]
geometry = "line"
font = "f"
size = 1
priority = 8
ref = 1
dx = 5
dy = 5
min = "0"
max = "1"
"#;

/// A map file of a city, two islands, a river, and a feature without geometry.
const MAP: &str = r#"{"type": "FeatureCollection", "features": [
{ "type": "Feature", "properties": { "name": "Zürich", "pop": 402762, "place": "city" }, "geometry": { "type": "Point", "coordinates": [ 8.5416942, 47.3768861, 408.0 ] } },
{ "type": "Feature", "properties": { "name": "Inseln" }, "geometry": { "type": "MultiPolygon", "coordinates": [ [ [ [ 0.0, 0.0 ], [ 1.0, 0.0 ], [ 1.0, 1.0 ], [ 0.0, 1.0 ], [ 0.0, 0.0 ] ] ], [ [ [ 2.0, 0.0 ], [ 4.0, 0.0 ], [ 4.0, 2.0 ], [ 2.0, 2.0 ], [ 2.0, 0.0 ] ] ] ] } },
{ "type": "Feature", "properties": { "name": "Sihl" }, "geometry": { "type": "LineString", "coordinates": [ [ 0.0, 0.0 ], [ 0.02, 0.01 ], [ 0.04, 0.0 ] ] } },
{ "type": "Feature", "properties": { "name": "leer", "pop": null }, "geometry": null }
]}"#;

const POINT: &str = r#"{"type":"Point","coordinates":[0.0000001,-0.0000002]}"#;

const LINE: &str = r#"{"type":"LineString","coordinates":[[0,0],[0.02,0.01],[0.04,0]]}"#;

/// A style of cities with a margin.
const WITH_MARGIN: &str = r#"
version = 2
fonts = { f = { units = 1, default = 1 } }
[[class]]
geometry = "point"
font = "f"
size = 1
priority = 7
min = "0"
max = "1"
margin = 5
"#;

/// The order of a label in words: its id, class and rank.
fn order_told(rt: &impl Abort, alloc: Global, order: &Order) -> String {
    let (id, class, rank) = (order.id.as_str(), order.class, order.rank);
    format!(in alloc; "{id} {class} {rank}").expect(rt, "memory")
}

/// The range of scales of a label in words.
fn range_told(rt: &impl Abort, alloc: Global, label: &Label) -> String {
    let min = label.min().text(alloc).expect(rt, "memory");
    let max = label.max().text(alloc).expect(rt, "memory");
    let (min, max) = (min.as_str(), max.as_str());
    format!(in alloc; "{min}..{max}").expect(rt, "memory")
}

/// A piece of a label in words, behind a space.
fn piece_told(rt: &impl Abort, alloc: Global, piece: &str, px: &BoxPx) -> String {
    let (l, b, r, t) = (px.l, px.b, px.r, px.t);
    format!(in alloc; " {piece}[{l},{b},{r},{t}]").expect(rt, "memory")
}

/// What stands before the pieces of a label.
fn head_told(rt: &impl Abort, alloc: Global, label: &Label) -> String {
    let order = order_told(rt, alloc, label.order());
    let range = range_told(rt, alloc, label);
    let (order, range) = (order.as_str(), range.as_str());
    let (x, y) = (label.x(), label.y());
    format!(in alloc; "{order} {x},{y} {range}").expect(rt, "memory")
}

/// The label in words.
fn written(rt: &impl Abort, alloc: Global, label: &Label) -> String {
    let mut text = head_told(rt, alloc, label);
    let pieces = label.pieces().as_slice();
    for (piece, px) in pieces.iter().zip(label.boxes().as_slice()) {
        text.push_str(piece_told(rt, alloc, piece.as_str(), px).as_str())
            .expect(rt, "memory");
    }
    text
}

/// The label of a feature, or why there is none.
fn label_told(rt: &impl Abort, alloc: Global, style: &Style, feature: &Feature) -> String {
    match label_of(alloc, style, feature).expect(rt, "memory") {
        Ok(label) => written(rt, alloc, &label),
        Err(reason) => format!(in alloc; "{reason:?}").expect(rt, "memory"),
    }
}

/// The labels of a map file, or why there are none, a line each.
fn labels_told(rt: &impl Abort, alloc: Global, style: &Style, map: &str) -> String {
    let features = read_collection(alloc, map.as_bytes()).expect(rt, "a map");
    let mut all = String::new(alloc);
    for feature in features.as_slice() {
        all.push_str(label_told(rt, alloc, style, feature).as_str())
            .expect(rt, "memory");
        all.push('\n').expect(rt, "memory");
    }
    all
}

/// The same under the style of this text.
fn map_told(rt: &impl Abort, alloc: Global, style: &str, map: &str) -> String {
    let style = read_style(alloc, style.as_bytes()).expect(rt, "a style");
    labels_told(rt, alloc, &style, map)
}

/// A map file of one feature with this geometry and these properties.
fn map_of(rt: &impl Abort, alloc: Global, geometry: &str, props: &str) -> String {
    format!(in alloc;
        r#"{{"type":"Feature","id":"f","geometry":{geometry},"properties":{{{props}}}}}"#
    ).expect(rt, "memory")
}

/// The label of one feature with this geometry and these properties under a style, or why it has none.
fn answer(rt: &impl Abort, alloc: Global, style: &str, geometry: &str, props: &str) -> String {
    let map = map_of(rt, alloc, geometry, props);
    let mut line = map_told(rt, alloc, style, map.as_str());
    line.pop();
    line
}

/// The labels of the sample.
const LABELS: &str = "\
#0 1 402762 85416942,473768861 0/1..1000/1 Zürich[-27,-10,28,10]
#1 4 0 30000000,10000000 0/1..100000/1 Inseln[-30,-10,30,10]
#2 3 0 200000,100000 0/1..2000/1 S[-17,-16,-7,4] i[-7,-13,-2,7] h[-2,-12,8,8] l[8,-17,18,3]
NoGeometry
";

#[test]
fn the_labels_of_a_map(rt: HostRuntime) {
    assert!(rt; map_told(&rt, rt.alloc(), SAMPLE, MAP).as_str() == LABELS);
}

/// The labels of a map under a style.
fn labels_under(rt: &impl Abort, alloc: Global, style: &Style, map: &str) -> Vec<Label> {
    let features = read_collection(alloc, map.as_bytes()).expect(rt, "a map");
    labels_of(alloc, style, features.as_slice()).expect(rt, "memory")
}

/// The labels of the map under the style of this text.
fn labels_by(rt: &impl Abort, alloc: Global, style: &str) -> Vec<Label> {
    let style = read_style(alloc, style.as_bytes()).expect(rt, "a style");
    labels_under(rt, alloc, &style, MAP)
}

/// Whether these are the ends of labels in their longest choice, a line each.
fn have_slots(rt: &impl Abort, alloc: Global, labels: &[Label], want: &str) -> bool {
    if labels.len() > 32_768 {
        panic!(rt; "at most 32768 labels");
    }
    let slots = assign(alloc, labels).expect(rt, "memory");
    write_slots(alloc, labels, slots.as_slice())
        .expect(rt, "memory")
        .as_slice()
        == want.as_bytes()
}

/// The ends of the sample's labels.
const SLOTS: &str = "#0 1000/1 -\n#2 2000/1 -\n#1 100000/1 -\n";

#[test]
fn the_labels_of_a_map_are_chosen_in_priority_order(rt: HostRuntime) {
    let labels = labels_by(&rt, rt.alloc(), SAMPLE);
    assert!(rt; have_slots(&rt, rt.alloc(), labels.as_slice(), SLOTS));
}

/// Shapes and properties, and the labels under the sample style.
const SHAPES: &str =
    r#"{"type":"MultiPoint","coordinates":[[3,2],[1,1]]} & "name":"ab" => f 2 0 30000000,20000000 0/1..1000/1 ab[-10,-10,10,10]
{"type":"Polygon","coordinates":[[[0,0],[6,0],[6,4],[4,4],[4,1],[1,1],[1,4],[0,4],[0,0]]]} & "name":"ab" => f 4 0 50000000,20000000 0/1..100000/1 ab[-10,-10,10,10]
line & "name":"e\u0301a" => f 3 0 200000,100000 0/1..2000/1 é[-10,-13,0,7] a[0,-13,10,7]
{"type":"LineString","coordinates":[[0,0],[0.0005,0]]} & "name":"Sihl" => f 3 0 2500,0 0/1..2000/1 Sihl[-17,-10,18,10]
point & "name":7.50,"pop":12.9 => f 2 12 1,-2 0/1..1000/1 7.50[-20,-10,20,10]
point & "name":" a","pop":-3 => f 2 0 1,-2 0/1..1000/1  a[-10,-10,10,10]
point & "name":"a\u0007b","pop":"5" => f 2 0 1,-2 0/1..1000/1 a b[-15,-10,15,10]
point & "name":"i","place":"city","pop":1e400 => f 1 9007199254740992 1,-2 0/1..1000/1 i[-2,-10,3,10]
point & "name":"i","place":"City","pop":null => f 2 0 1,-2 0/1..1000/1 i[-2,-10,3,10]
null &  => NoGeometry
point &  => NoName
point & "title":"a" => NoName
point & "name":null => NoName
point & "name":true => NoName
point & "name":["a"] => NoName
point & "name":"" => NoName
line & "name":"   " => NoName
point & "name":" \u0000\u009f\uffff" => NoName"#;

/// Shapes and properties, and why a style without classes gives no label.
const WITHOUT_CLASSES: &str = r#"null &  => NoGeometry
point &  => NoClass
point & "name":"a" => NoClass"#;

/// Shapes, how their labels are moved and so many letters, and the labels without these letters.
const LETTERS: &str = "point still 1024 => f 7 0 1,-2 0/1..1/1 [-512,0,512,1]
point still 1025 => TooWide
point right 1024 => TooWide
point right 1022 => f 7 0 1,-2 1/2..3/2 [-510,-256,512,-255]
point right 1023 => TooWide
point left 1024 => TooWide
point left 1023 => f 7 0 1,-2 0/1..1/1 [-512,0,511,1]
line still 1024 => f 8 0 200000,100000 0/1..1/1 [-512,0,512,1]
line still 1025 => TooWide
line still 5000 => TooWide";

/// The geometry that a word stands for, or that is written.
fn geometry(text: &str) -> &str {
    match text {
        "point" => POINT,
        "line" => LINE,
        _ => text,
    }
}

/// The label under a style of a feature with the geometry and the properties that are written.
fn label_under(rt: &impl Abort, alloc: Global, style: &str, text: &str) -> String {
    let (shape, props) = text.split_once(" & ").expect(rt, "properties");
    answer(rt, alloc, style, geometry(shape), props)
}

/// Labels under the sample style.
struct UnderSample;

impl Subject for UnderSample {
    fn holds(rt: &impl Abort, alloc: Global, input: &str, want: &str) -> bool {
        label_under(rt, alloc, SAMPLE, input).as_str() == want
    }
}

/// Labels under a style without classes.
struct UnderNone;

impl Subject for UnderNone {
    fn holds(rt: &impl Abort, alloc: Global, input: &str, want: &str) -> bool {
        label_under(rt, alloc, "version = 1", input).as_str() == want
    }
}

/// Properties with a name of so many letters x.
fn props_of(rt: &impl Abort, alloc: Global, moved: &str, count: &str) -> String {
    let name = "x"
        .repeat(alloc, count.parse::<usize>().expect(rt, "a number"))
        .expect(rt, "memory");
    let name = name.as_str();
    format!(in alloc; r#""moved":"{moved}","name":"{name}""#).expect(rt, "memory")
}

/// The label of a name of so many letters x, without them.
fn letters_told(rt: &impl Abort, alloc: Global, text: &str) -> String {
    let (shape, others) = text.split_once(' ').expect(rt, "a move");
    let (moved, count) = others.split_once(' ').expect(rt, "a count");
    let props = props_of(rt, alloc, moved, count);
    let label = answer(rt, alloc, PIXELS, geometry(shape), props.as_str());
    label.replace(alloc, "x", "").expect(rt, "memory")
}

/// Labels of many letters.
struct OfLetters;

impl Subject for OfLetters {
    fn holds(rt: &impl Abort, alloc: Global, input: &str, want: &str) -> bool {
        letters_told(rt, alloc, input).as_str() == want
    }
}

/// Whether there is one label, with this margin.
fn is_one_with(labels: &[Label], margin: u32) -> bool {
    labels.len() == 1 && labels[0].margin() == margin
}

#[test]
fn a_label_has_the_margin_of_its_class(rt: HostRuntime) {
    let labels = labels_by(&rt, rt.alloc(), WITH_MARGIN);
    assert!(rt; is_one_with(labels.as_slice(), 5));
}

#[test]
fn a_label_is_made_of_shape_and_properties(rt: HostRuntime) {
    let alloc = rt.alloc();
    each_holds::<UnderSample>(&rt, alloc, SHAPES);
    each_holds::<UnderNone>(&rt, alloc, WITHOUT_CLASSES);
    each_holds::<OfLetters>(&rt, alloc, LETTERS)
}
