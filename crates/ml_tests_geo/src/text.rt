//! Texts of labels, widths and clusters.
ghost use Rattle.std.specs.Prelude.{◌≤◌};

use crate::cases::{Subject, count, each_holds, lines_of};
use ml_ratio::Text;
use ml_style::{Font, Style, read_style};
use ml_text::{Cluster, clusters, label_text, width};
use std::alloc::Global;
use std::process::Abort;

/// A font of 1000 units in which every character is 500 wide, but `i` 250 and U+0301 nothing.
const STYLE: &str = r#"version = 1
[fonts.sans]
units = 1000
default = 500
advances = { "i" = 250, "\u0301" = 0 }
[[class]]
geometry = "point"
font = "sans"
size = 20
priority = 1
min = "0"
max = "1000"
"#;

/// A size and a text; its width in pixels, its clusters, each ended by a stroke, and the sum of their
/// advances. 250 and 750 units at 1 pixel are 1 each, rounded up. The last are two flags and half of
/// one, a family of three by two joiners, and a syllable of three parts before a syllable with a part.
const MEASURES: &str = "\
20 Zürich => 55 Z|ü|r|i|c|h| 2750
20 ii => 10 i|i| 500
20 e\u{301} => 10 e\u{301}| 500
20 \u{301} => 1 \u{301}| 0
20  => 1  0
20 i => 5 i| 250
20 Inseln => 60 I|n|s|e|l|n| 3000
20 Sihl => 35 S|i|h|l| 1750
1 i => 1 i| 250
1 iii => 1 i|i|i| 750
256 i => 64 i| 250
256 iii => 192 i|i|i| 750
3 i => 1 i| 250
3 ii => 2 i|i| 500
20 Bern => 40 B|e|r|n| 2000
20 e\u{301}a => 20 e\u{301}|a| 1000
20 \u{301}e => 10 \u{301}|e| 500
20 a\r / b => 40 a|\r / |b| 2000
20 \u{fffe} => 10 \u{fffe}| 500
20 \u{1f1e8}\u{1f1ed}\u{1f1eb}\u{1f1f7}\u{1f1e9} => 50 \u{1f1e8}\u{1f1ed}|\u{1f1eb}\u{1f1f7}|\u{1f1e9}| 2500
20 \u{1f469}\u{200d}\u{1f469}\u{200d}\u{1f467} => 50 \u{1f469}\u{200d}\u{1f469}\u{200d}\u{1f467}| 2500
20 \u{1112}\u{1161}\u{11ab}\u{ac00}\u{11a8} => 50 \u{1112}\u{1161}\u{11ab}|\u{ac00}\u{11a8}| 2500";

/// Clusters, each ended by a stroke.
fn clusters_told(rt: &impl Abort, alloc: Global, clusters: &[Cluster]) -> String {
    let mut told = String::new(alloc);
    for cluster in clusters {
        told.push_str(cluster.text.as_str()).expect(rt, "memory");
        told.push('|').expect(rt, "memory");
    }
    told
}

/// The sum of the advances of clusters.
fn advances_of(clusters: &[Cluster]) -> u64 {
    let mut sum: u64 = 0;
    for cluster in clusters {
        sum = sum.saturating_add(cluster.advance);
    }
    sum
}

/// The clusters of a text, and the sum of their advances.
fn parts_told(rt: &impl Abort, alloc: Global, font: &Font, text: &Text) -> String {
    let clusters = clusters(alloc, font, text).expect(rt, "memory");
    let told = clusters_told(rt, alloc, clusters.as_slice());
    let (told, sum) = (told.as_str(), advances_of(clusters.as_slice()));
    format!(in alloc; "{told} {sum}").expect(rt, "memory")
}

/// The size, which has to be 1 to 256.
fn good_size(rt: &impl Abort, size: u32) -> u32
    ensures { (1 ≤ result) × (result ≤ 256) }
{
    if 1 <= size && size <= 256 {
        size
    } else {
        panic!(rt; "a size")
    }
}

/// The width of a text at a size, and its clusters.
fn measure_told(rt: &impl Abort, alloc: Global, font: &Font, size: u32, text: &Text) -> String
    requires { (1 ≤ size) × (size ≤ 256) }
{
    let width = width(font, size, text);
    let told = parts_told(rt, alloc, font, text);
    let told = told.as_str();
    format!(in alloc; "{width} {told}").expect(rt, "memory")
}

/// The measures of the text that is written behind its size, in the font of the first class.
fn told_in_first_class(rt: &impl Abort, alloc: Global, style: &Style, input: &str) -> String {
    let (size, text) = input.split_once(' ').expect(rt, "a size");
    let size = good_size(rt, count(rt, size));
    let text = Text::of(alloc, text).expect(rt, "memory");
    match style.classes().get(0) {
        Some(class) => measure_told(rt, alloc, style.font(class), size, &text),
        None => panic!(rt; "a class"),
    }
}

/// The measures of texts. In a case ` / ` stands for a line feed.
struct Measured;

impl Subject for Measured {
    fn holds(rt: &impl Abort, alloc: Global, input: &str, want: &str) -> bool {
        let input = lines_of(rt, alloc, input);
        let want = lines_of(rt, alloc, want);
        let style = read_style(alloc, STYLE.as_bytes()).expect(rt, "a style");
        told_in_first_class(rt, alloc, &style, &input).as_str() == want.as_str()
    }
}

/// Names, and the text of their labels.
const NAMES: &str = "\
Zürich => Zürich
 => 
a\0b => a b
\u{1f}\u{20}\u{7e}\u{7f}\u{80}\u{9f}\u{a0} =>   ~   \u{a0}
\u{fffd}\u{fffe}\u{ffff}\u{10000} => \u{fffd}  \u{10000}
a\r / b => a  b
\u{1fffe} => \u{1fffe}";

/// The texts of labels. In a case ` / ` stands for a line feed.
struct Shown;

impl Subject for Shown {
    fn holds(rt: &impl Abort, alloc: Global, input: &str, want: &str) -> bool {
        let name = lines_of(rt, alloc, input);
        let name = Text::of(alloc, &name).expect(rt, "memory");
        label_text(alloc, &name).expect(rt, "memory").as_str() == want
    }
}

#[test]
fn texts_have_widths_and_labels(rt: HostRuntime) {
    let alloc = rt.alloc();
    each_holds::<Measured>(&rt, alloc, MEASURES);
    each_holds::<Shown>(&rt, alloc, NAMES)
}
