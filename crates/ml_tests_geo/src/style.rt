//! Whole styles, and styles with one thing wrong, with the answers that the format gives them. A case
//! is a line, what is given before the arrow and what is wanted behind it; `|` stands for a new line.
ghost use Rattle.ml_ratio.specs.Feature.{IsScalar};
ghost use Rattle.ml_ratio.specs.Geometry.{IsSomeGeometry};

use crate::cases::{Subject, each_holds, feature_of};
use ml_ratio::{Feature, Geometry, Pos, Prop, Scalar, Seq, Text};
use ml_style::{Class, Font, Kind, SAMPLE, Style, StyleFault, class_of, read_style};
use std::alloc::Global;
use std::process::Abort;

/// The classes of the sample: kind, priority, reference, the end of the range, and whether they ask
/// for a city.
const CLASSES: [(Kind, u32, u32, u64, bool); 4] = [
    (Kind::PointKind, 1, 1, 1000, true),
    (Kind::PointKind, 2, 1, 1000, false),
    (Kind::LineKind, 3, 1000, 2000, false),
    (Kind::AreaKind, 4, 1, 100000, false),
];

/// A class of points that asks for a flag.
const FLAGGED: &str = r#"version = 1
fonts = { sans = { units = 1000, default = 500 } }
[[class]]
geometry = "point"
key = "river"
value = "yes"
font = "sans"
size = 20
priority = 1
min = "1/2"
max = "1000"
[[class]]
geometry = "point"
key = "river"
value = "true"
font = "sans"
size = 1
priority = 1
min = "0"
max = "1"
"#;

/// What stands before the fields of a class of lines, and these fields.
const FRONT: &str = "fonts = { sans = { units = 1000, default = 500 } }\n[[class]]\n";

const FIELDS: &str = r#"geometry = "line"
key = "river"
value = "yes"
font = "sans"
size = 20
priority = 1
ref = 1000
dx = 1
dy = -1
min = "1/2"
max = "1000"
margin = 3"#;

/// A field in place of the usual one, or the name of one that is left out, and the fault.
const LOOKS: &str = r#"geometry => BadClass 0 geometry
geometry = "polygon" => BadClass 0 geometry
geometry = "Line" => BadClass 0 geometry
geometry = 1 => BadClass 0 geometry
key => BadClass 0 key
key = 1 => BadClass 0 key
key = 1.5 => BadClass 0 key
value => BadClass 0 value
value = true => BadClass 0 value
font => BadClass 0 font
font = 7 => BadClass 0 font
font = "serif" => UnknownFont 0
size => BadClass 0 size
size = 20.0 => BadClass 0 size
size = "20" => BadClass 0 size
size = 0 => BadClass 0 size
size = -1 => BadClass 0 size
size = 257 => BadClass 0 size
size = 4294967297 => BadClass 0 size
size = 1 => ok
size = 256 => ok
priority => BadClass 0 priority
priority = 1.0 => BadClass 0 priority
priority = -1 => BadClass 0 priority
priority = 65536 => BadClass 0 priority
priority = 0 => ok
priority = 65535 => ok
ref => BadClass 0 ref
ref = 1000.0 => BadClass 0 ref
ref = 0 => BadClass 0 ref
ref = 268435456 => BadClass 0 ref
ref = 1 => ok
ref = 268435455 => ok
dx => ok
dx = 0.0 => BadClass 0 dx
dx = "1" => BadClass 0 dx
dx = 257 => BadClass 0 dx
dx = -257 => BadClass 0 dx
dx = 256 => ok
dx = -256 => ok
dy => ok
dy = 1.0 => BadClass 0 dy
dy = 257 => BadClass 0 dy
dy = -257 => BadClass 0 dy
min => BadClass 0 min
min = 0 => BadClass 0 min
min = "0.5" => BadClass 0 min
min = "1/0" => BadClass 0 min
min = "1/65537" => BadClass 0 min
min = "268435457" => BadClass 0 min
min = "268435456" => EmptyRange 0
min = "1000" => EmptyRange 0
min = "0" => ok
min = "65535999/65536" => ok
max => BadClass 0 max
max = 1000.5 => BadClass 0 max
max = "0" => BadClass 0 max
max = "-1" => BadClass 0 max
max = "268435457" => BadClass 0 max
max = "4294967297/65536" => BadClass 0 max
max = "2/4" => EmptyRange 0
max = "268435456" => ok
max = "4294967296/65536" => ok
margin => ok
margin = 0 => ok
margin = 64 => ok
margin = 65 => BadClass 0 margin
margin = -1 => BadClass 0 margin
margin = 1.0 => BadClass 0 margin
margin = "1" => BadClass 0 margin"#;

/// A version with a field in place of the usual one, and the margin of the class.
const MARGINS: &str = "1 margin = 5 => 0
1 margin = 65 => 0
1 margin = 1.5 => 0
1 margin => 0
2 margin = 5 => 5
2 margin => 0";

/// Styles, and the fault that refuses them.
const STYLES: &str = r#"version = 1 => ok
version = 2 => ok
version = 1|fonts = 7|other = 1.5 => ok
version = 1|name = 1|rank = 1.5 => ok
version = 1|class = [] => ok
 => Version
version = 3 => Version
version = 0 => Version
version = -1 => Version
version = 1.0 => Version
version = "1" => Version
version = 1|version = 1 => NotToml
version = => NotToml
{} => NotToml
version = 3|fonts = { a = 1 } => Version
version = 1|fonts = { a = 1 }|class = 1 => BadFont a
version = 1|fonts = { b = 1, a = 2, c = 3 } => BadFont a
version = 1|class = 1 => BadClass 0 class
version = 1|class = { size = 20 } => BadClass 0 class
version = 1|class = [1] => BadClass 0 class
version = 1|class = [{}, 1] => BadClass 0 geometry
version = 1|fonts = { f = { units = 1, default = 1 } }|class = [{ geometry = "area", font = "f", size = 1, priority = 1, min = "0", max = "1" }, 1] => BadClass 1 class
version = 2|class = [{ geometry = "area", font = "f", size = 1, priority = 1, min = "1", max = "1", margin = 65 }] => BadClass 0 margin
version = 1|fonts = { f = { units = 1, default = 0 } } => ok
version = 1|fonts = { f = { units = 65535, default = 65535, other = 1.5 } } => ok
version = 1|fonts = { f = { units = 0, default = 0 } } => BadFont f
version = 1|fonts = { f = { units = 65536, default = 0 } } => BadFont f
version = 1|fonts = { f = { units = 1.0, default = 0 } } => BadFont f
version = 1|fonts = { f = { default = 0 } } => BadFont f
version = 1|fonts = { f = { units = 1 } } => BadFont f
version = 1|fonts = { f = { units = 1, default = -1 } } => BadFont f
version = 1|fonts = { f = { units = 1, default = 65536 } } => BadFont f
version = 1|fonts = { f = { units = 1, default = 0, advances = {} } } => ok
version = 1|fonts = { f = { units = 1, default = 0, advances = 1 } } => BadFont f
version = 1|fonts = { f = { units = 1, default = 0, advances = [] } } => BadFont f
version = 1|fonts = { f = { units = 1, default = 0, advances = { a = 65535, "\U0010FFFF" = 0 } } } => ok
version = 1|fonts = { f = { units = 1, default = 0, advances = { a = 65536 } } } => BadFont f
version = 1|fonts = { f = { units = 1, default = 0, advances = { a = -1 } } } => BadFont f
version = 1|fonts = { f = { units = 1, default = 0, advances = { a = 1.0 } } } => BadFont f
version = 1|fonts = { f = { units = 1, default = 0, advances = { ab = 1 } } } => BadFont f
version = 1|fonts = { f = { units = 1, default = 0, advances = { "" = 1 } } } => BadFont f
version = 1|fonts = { f = { units = 1, default = 0, advances = { "e\u0301" = 1 } } } => BadFont f
version = 1|fonts = { f = "sans" } => BadFont f"#;

/// A field of the first class, a second class, and the fault.
const SECOND: &str = r#"size = 5 & [[class]]|size = 20.0 => BadClass 1 geometry
size = 5 & [[class]]|geometry = "area"|ref = "none" => BadClass 1 font
font = "serif" & [[class]]|size = 20.0 => UnknownFont 0
font = "serif" & [[class]]|geometry = "area"|ref = "none" => UnknownFont 0"#;

/// A property of a point, and its class in the sample.
const IN_SAMPLE: &str = "place city => 0
place town => 1
place City => 1
place  => 1
name city => 1
place null => 1";

/// A shape, and its class in the sample.
const SHAPES: &str = "\
Point [0,0] => 1
LineString [[0,0],[0,0]] => 2
Polygon [[[0,0],[0,0],[0,0],[0,0]]] => 3";

/// A property of a point, and its class where flags are asked for.
const IN_FLAGGED: &str = "river true => 1
river false => none
river yes => 0";

/// Whether a word is this number.
fn is_number(word: &str, number: usize) -> bool {
    word.parse::<usize>().ok() == Some(number)
}

/// Whether the fault of this name, of which this is told, is written so.
fn is_about(fault: &StyleFault, name: &str, about: &str) -> bool {
    match fault {
        StyleFault::BadFont(font) => name == "BadFont" && font.as_str() == about,
        StyleFault::UnknownFont(class) => name == "UnknownFont" && is_number(about, *class),
        StyleFault::EmptyRange(class) => name == "EmptyRange" && is_number(about, *class),
        StyleFault::BadClass(class, field) => match about.split_once(' ') {
            Some((place, text)) => {
                name == "BadClass" && is_number(place, *class) && field.as_str() == text
            }
            None => false,
        },
        _ => false,
    }
}

/// Whether the fault is written so.
fn is_fault(fault: &StyleFault, text: &str) -> bool {
    match text.split_once(' ') {
        Some((name, about)) => is_about(fault, name, about),
        None => match fault {
            StyleFault::NotToml => text == "NotToml",
            StyleFault::Version => text == "Version",
            _ => false,
        },
    }
}

/// Whether the bytes are refused by the fault that is written, or none where it says `ok`.
fn is_refused(alloc: Global, bytes: &[u8], want: &str) -> bool {
    match read_style(alloc, bytes) {
        Ok(_style) => want == "ok",
        Err(fault) => is_fault(&fault, want),
    }
}

/// Adds lines, which stand apart by `|`.
fn push_lines(rt: &impl Abort, text: &mut String, lines: &str) {
    for line in lines.split('|') {
        text.push_str(line).expect(rt, "memory");
        text.push('\n').expect(rt, "memory");
    }
}

/// Adds the usual line of a field, unless this field stands in its place.
fn push_usual(rt: &impl Abort, text: &mut String, usual: &str, field: &str) {
    let (name, _value) = usual.split_once(" = ").expect(rt, "a field");
    if field.starts_with(name) {
        return;
    }
    push_lines(rt, text, usual)
}

/// A style of this version with one class of lines, with this field in place of the usual one.
fn with_field(rt: &impl Abort, alloc: Global, version: &str, field: &str) -> String {
    let mut text = format!(in alloc; "version = {version}\n{FRONT}").expect(rt, "memory");
    for usual in FIELDS.lines() {
        push_usual(rt, &mut text, usual, field);
    }
    if field.contains('=') {
        push_lines(rt, &mut text, field);
    }
    text
}

/// Whether the class asks for a city.
fn asks_for_a_city(class: &Class) -> bool {
    match &class.rule {
        Some(
            Prop {
                key,
                value: Scalar::Str(value),
            },
        ) => key.as_str() == "place" && value.as_str() == "city",
        _ => false,
    }
}

/// The sample.
fn sample(rt: &impl Abort, alloc: Global) -> Style {
    read_style(alloc, SAMPLE.as_bytes()).expect(rt, "a style")
}

/// What [`CLASSES`] says of the class.
fn row_of(class: &Class) -> (Kind, u32, u32, u64, bool) {
    (
        class.kind,
        class.priority,
        class.scale_ref,
        class.max.num(),
        asks_for_a_city(class),
    )
}

/// Whether the class of this number, or none, is what [`CLASSES`] says.
fn is_as_told(style: &Style, number: usize) -> bool {
    match (style.classes().get(number), CLASSES.get(number)) {
        (Some(class), Some(row)) => row_of(class) == *row,
        (None, None) => true,
        _ => false,
    }
}

#[test]
fn the_sample_is_read(rt: HostRuntime) {
    let style = sample(&rt, rt.alloc());
    for number in 0..5 {
        assert!(rt; is_as_told(&style, number));
    }
}

/// Whether the class has the size, the font, the margin, the offset and the end of its range that all
/// classes of the sample have.
fn looks_usual(class: &Class) -> bool {
    let is_set = class.size == 20 && class.margin == 0 && class.font.as_str() == "sans";
    let is_there = class.dx == 0 && class.dy == 0;
    is_set && is_there && class.min.num() == 0 && class.max.den() == 1
}

#[test]
fn all_classes_of_the_sample_look_alike(rt: HostRuntime) {
    let style = sample(&rt, rt.alloc());
    for class in style.classes().as_slice() {
        assert!(rt; looks_usual(class));
    }
}

#[test]
fn the_sample_names_its_keys(rt: HostRuntime) {
    let style = sample(&rt, rt.alloc());
    assert!(rt; style.name_key().as_str() == "name" && style.rank_key().as_str() == "pop");
}

/// Whether the font has its own advances.
fn has_advances(font: &Font) -> bool {
    font.advance('i') == 250 && font.advance('\u{301}') == 0 && font.advance('j') == 500
}

#[test]
fn the_font_of_the_sample_has_advances(rt: HostRuntime) {
    let style = sample(&rt, rt.alloc());
    let classes = style.classes().as_slice();
    assert!(rt; classes.len() == 4);
    let font = style.font(&classes[3]);
    assert!(rt; font.units == 1000 && font.fallback == 500 && font.advances.len() == 2);
    assert!(rt; has_advances(font));
}

/// The faults of fields.
struct OfField;

impl Subject for OfField {
    fn holds(rt: &impl Abort, alloc: Global, input: &str, want: &str) -> bool {
        let text = with_field(rt, alloc, "2", input);
        is_refused(alloc, text.as_bytes(), want)
    }
}

/// The margin of the first class.
fn margin_of(style: &Style) -> Option<u32> {
    match style.classes().get(0) {
        Some(class) => Some(class.margin),
        None => None,
    }
}

/// The margin of the first class of the style that is written.
fn margin_in(rt: &impl Abort, alloc: Global, text: &str) -> Option<u32> {
    let style = read_style(alloc, text.as_bytes()).expect(rt, "a style");
    margin_of(&style)
}

/// The margins of versions.
struct OfVersion;

impl Subject for OfVersion {
    fn holds(rt: &impl Abort, alloc: Global, input: &str, want: &str) -> bool {
        let (version, field) = input.split_once(' ').expect(rt, "a version");
        let text = with_field(rt, alloc, version, field);
        margin_in(rt, alloc, text.as_str()) == want.parse::<u32>().ok()
    }
}

/// The faults of styles.
struct OfStyle;

impl Subject for OfStyle {
    fn holds(rt: &impl Abort, alloc: Global, input: &str, want: &str) -> bool {
        let mut text = String::new(alloc);
        push_lines(rt, &mut text, input);
        is_refused(alloc, text.as_bytes(), want)
    }
}

/// The faults of two classes.
struct OfTwo;

impl Subject for OfTwo {
    fn holds(rt: &impl Abort, alloc: Global, input: &str, want: &str) -> bool {
        let (field, second) = input.split_once(" & ").expect(rt, "a second class");
        let mut text = with_field(rt, alloc, "1", field);
        push_lines(rt, &mut text, second);
        is_refused(alloc, text.as_bytes(), want)
    }
}

#[test]
fn each_field_may_be_wrong(rt: HostRuntime) {
    let alloc = rt.alloc();
    each_holds::<OfField>(&rt, alloc, LOOKS);
    each_holds::<OfVersion>(&rt, alloc, MARGINS);
    each_holds::<OfTwo>(&rt, alloc, SECOND)
}

#[test]
fn styles_may_be_wrong(rt: HostRuntime) {
    assert!(rt; is_refused(rt.alloc(), b"version = 1 # \xff", "NotToml"));
    each_holds::<OfStyle>(&rt, rt.alloc(), STYLES)
}

/// The value that a word writes: null, a flag or a text.
fn scalar(rt: &impl Abort, alloc: Global, word: &str) -> Scalar
    ensures { IsScalar result }
{
    match word {
        "null" => Scalar::Null,
        "true" => Scalar::Flag(true),
        "false" => Scalar::Flag(false),
        _ => Scalar::Str(Text::of(alloc, word).expect(rt, "memory")),
    }
}

/// A feature at one point with one property.
fn point_with(rt: &impl Abort, alloc: Global, key: &str, value: Scalar) -> Feature
    requires { IsScalar value }
{
    let mut props = Seq::new(alloc);
    props
        .push(Prop {
            key: Text::of(alloc, key).expect(rt, "memory"),
            value,
        })
        .expect(rt, "memory");
    Feature {
        id: Text::of(alloc, "f").expect(rt, "memory"),
        geometry: Some(Geometry::Point(Pos { x: 0, y: 0 })),
        props,
    }
}

/// The feature at one point with the property that is written.
fn point_of(rt: &impl Abort, alloc: Global, text: &str) -> Feature {
    let (key, word) = text.split_once(' ').expect(rt, "a value");
    let value = scalar(rt, alloc, word);
    point_with(rt, alloc, key, value)
}

/// The class that the style gives the feature.
fn class_in(rt: &impl Abort, alloc: Global, style: &str, feature: &Feature) -> Option<usize> {
    let style = read_style(alloc, style.as_bytes()).expect(rt, "a style");
    class_of(&style, feature)
}

/// Whether the style gives the feature at one point with this property the class of this number.
fn has_class(rt: &impl Abort, alloc: Global, style: &str, prop: &str, want: &str) -> bool {
    let feature = point_of(rt, alloc, prop);
    class_in(rt, alloc, style, &feature) == want.parse::<usize>().ok()
}

/// Classes in the sample.
struct InSample;

impl Subject for InSample {
    fn holds(rt: &impl Abort, alloc: Global, input: &str, want: &str) -> bool {
        has_class(rt, alloc, SAMPLE, input, want)
    }
}

/// Classes where flags are asked for.
struct InFlagged;

impl Subject for InFlagged {
    fn holds(rt: &impl Abort, alloc: Global, input: &str, want: &str) -> bool {
        has_class(rt, alloc, FLAGGED, input, want)
    }
}

#[test]
fn points_have_the_first_class_that_applies(rt: HostRuntime) {
    let alloc = rt.alloc();
    each_holds::<InSample>(&rt, alloc, IN_SAMPLE);
    each_holds::<InFlagged>(&rt, alloc, IN_FLAGGED)
}

/// A feature of this shape without properties.
fn bare(rt: &impl Abort, alloc: Global, geometry: Option<Geometry>) -> Feature
    requires { IsSomeGeometry geometry }
{
    Feature {
        id: Text::of(alloc, "f").expect(rt, "memory"),
        geometry,
        props: Seq::new(alloc),
    }
}

/// Shapes without properties, and their classes in the sample.
struct OfShape;

impl Subject for OfShape {
    fn holds(rt: &impl Abort, alloc: Global, input: &str, want: &str) -> bool {
        let feature = feature_of(rt, alloc, input);
        class_in(rt, alloc, SAMPLE, &feature) == want.parse::<usize>().ok()
    }
}

#[test]
fn shapes_have_classes_of_their_kinds(rt: HostRuntime) {
    each_holds::<OfShape>(&rt, rt.alloc(), SHAPES)
}

#[test]
fn a_feature_without_a_shape_has_no_class(rt: HostRuntime) {
    let feature = bare(&rt, rt.alloc(), None);
    assert!(rt; class_in(&rt, rt.alloc(), SAMPLE, &feature).is_none());
}

// No map file writes such a line.
#[test]
fn a_line_of_one_position_has_its_class(rt: HostRuntime) {
    let mut line = Seq::new(rt.alloc());
    line.push(Pos { x: 0, y: 0 }).expect(&rt, "memory");
    let feature = bare(&rt, rt.alloc(), Some(Geometry::LineString(line)));
    let class = class_in(&rt, rt.alloc(), SAMPLE, &feature);
    assert!(rt; class == Some(2));
}
