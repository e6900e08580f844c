//! Fractions, numbers, texts, sequences and features.
ghost use Rattle.std.specs.Prelude.{◌≡◌, ◌<◌};

use crate::cases::{Table, fraction, hold, is_rising, number, ratio_told};
use ml_geojson::{read_feature, write_feature};
use ml_ratio::lines::parts_of;
use ml_ratio::{Feature, Ratio, Seq, Steps, Text, read_whole};
use std::alloc::Global;
use std::collections::HashSet;
use std::marker::Brand;
use std::process::Abort;
use std::sync::ledger::{Blank, Ledger};

/// Numerators and denominators, and the fraction in lowest terms.
struct Fractions;

impl Table for Fractions {
    const LINES: &'static str = "\
38 4 => 19/2
0 7 => 0/1
20 1 => 20/1
4294967296 65536 => 65536/1
4294967296 1 => 4294967296/1
1 0 => -
1 65537 => -
4294967297 1 => -
4294967298 2 => -";

    fn told(rt: &impl Abort, alloc: Global, input: &str) -> String {
        let words = parts_of(alloc, input, ' ').expect(rt, "memory");
        ratio_told(
            rt,
            alloc,
            Ratio::of(number(rt, &words, 0), number(rt, &words, 1)),
        )
    }
}

#[test]
fn fractions_are_reduced_and_bounded(rt: HostRuntime) {
    hold::<Fractions>(&rt, rt.alloc())
}

/// Texts, and the fraction that each reads as.
struct FractionTexts;

impl Table for FractionTexts {
    const LINES: &'static str = "\
19 => 19/1
38/4 => 19/2
0 => 0/1
0000000020/0000000001 => 20/1
4294967296/65536 => 65536/1
 => -
/ => -
1/ => -
/1 => -
-1 => -
+1 => -
1  => -
 1 => -
1/2/3 => -
1.5 => -
5/0 => -
1/65537 => -
4294967297 => -
00000000001 => -
1/00000000001 => -
١ => -";

    fn told(rt: &impl Abort, alloc: Global, input: &str) -> String {
        ratio_told(rt, alloc, Ratio::read(input))
    }
}

#[test]
fn fractions_read_and_write_their_texts(rt: HostRuntime) {
    hold::<FractionTexts>(&rt, rt.alloc())
}

/// Fractions, and whether each is a scale.
struct Scales;

impl Table for Scales {
    const LINES: &'static str = "\
0 => false
1/65536 => true
268435455 => true
268435456 => false
4294967295/16 => true
4294967296/16 => false";

    fn told(rt: &impl Abort, alloc: Global, input: &str) -> String {
        fraction(rt, input)
            .is_scale()
            .to_string(alloc)
            .expect(rt, "memory")
    }
}

#[test]
fn scales_lie_above_zero_and_below_two_to_the_28(rt: HostRuntime) {
    hold::<Scales>(&rt, rt.alloc())
}

/// Fractions, each less than the next.
const ORDER: &str = "0 1/65536 1/3 1/2 2/3 1 65537/65536 4294967296";

/// The fractions that a text writes, with spaces between.
fn fractions_of(rt: &impl Abort, alloc: Global, text: &str) -> Vec<Ratio> {
    let mut fractions = Vec::new(alloc);
    for word in text.split(' ') {
        fractions.push(fraction(rt, word)).expect(rt, "memory");
    }
    fractions
}

/// Whether each of the fractions says that it is less than just those after it.
fn are_less(fractions: &[Ratio]) -> bool {
    for (i, one) in fractions.iter().enumerate() {
        for (j, other) in fractions.iter().enumerate() {
            if one.is_less(other) != (i < j) {
                return false;
            }
        }
    }
    true
}

#[test]
fn fractions_are_ordered_by_value(rt: HostRuntime) {
    let fractions = fractions_of(&rt, rt.alloc(), ORDER);
    assert!(rt; is_rising(&fractions) && are_less(&fractions));
}

/// Fractions that come into a set, and whether each is new there.
struct FractionSets;

impl Table for FractionSets {
    const LINES: &'static str = "\
1/2 2/4 1/3 => true, false, true, ";

    fn told(rt: &impl Abort, alloc: Global, input: &str) -> String {
        let mut set = HashSet::new(alloc);
        let mut told = String::new(alloc);
        for word in input.split(' ') {
            let new = set.insert(fraction(rt, word)).expect(rt, "memory");
            told.push_str(if new { "true, " } else { "false, " })
                .expect(rt, "memory");
        }
        told
    }
}

#[test]
fn equal_fractions_have_one_hash(rt: HostRuntime) {
    hold::<FractionSets>(&rt, rt.alloc())
}

/// Texts that come into a set, and whether each is new there.
struct TextSets;

impl Table for TextSets {
    const LINES: &'static str = "\
Zürich Zürich Z => true, false, true, ";

    fn told(rt: &impl Abort, alloc: Global, input: &str) -> String {
        let mut set = HashSet::new(alloc);
        let mut told = String::new(alloc);
        for word in input.split(' ') {
            let new = set
                .insert(Text::of(alloc, word).expect(rt, "memory"))
                .expect(rt, "memory");
            told.push_str(if new { "true, " } else { "false, " })
                .expect(rt, "memory");
        }
        told
    }
}

#[test]
fn equal_texts_have_one_hash(rt: HostRuntime) {
    hold::<TextSets>(&rt, rt.alloc())
}

/// Texts, and the whole number that each reads as.
struct WholeNumbers;

impl Table for WholeNumbers {
    const LINES: &'static str = "\
0 => 0
-0 => 0
12 => 12
-2000000000 => -2000000000
9999999999 => 9999999999
0000000007 => 7
 => none
- => none
+1 => none
--1 => none
1- => none
00000000001 => none
-00000000001 => none
1  => none
0x1 => none
1.0 => none
−1 => none";

    fn told(rt: &impl Abort, alloc: Global, input: &str) -> String {
        match read_whole(input) {
            Some(read) => read.to_string(alloc).expect(rt, "memory"),
            None => "none".to_string(alloc).expect(rt, "memory"),
        }
    }
}

#[test]
fn whole_numbers_have_an_optional_minus_and_ten_digits(rt: HostRuntime) {
    hold::<WholeNumbers>(&rt, rt.alloc())
}

/// Texts, each before the next.
const BYTES: &str = "A AA Z Zürich a";

/// The words of a text.
fn texts_of(rt: &impl Abort, alloc: Global, text: &str) -> Vec<Text> {
    let mut texts = Vec::new(alloc);
    for word in text.split(' ') {
        texts
            .push(Text::of(alloc, word).expect(rt, "memory"))
            .expect(rt, "memory");
    }
    texts
}

#[test]
fn texts_are_compared_by_bytes(rt: HostRuntime) {
    let texts = texts_of(&rt, rt.alloc(), BYTES);
    assert!(rt; is_rising(&texts));
}

#[test]
fn a_copy_of_a_text_has_its_bytes(rt: HostRuntime) {
    let text = Text::of_string("ab".to_string(rt.alloc()).expect(&rt, "memory"));
    assert!(rt; text.copy().expect(&rt, "memory").as_str() == "ab");
}

#[test]
fn sequences_keep_their_items_in_order(rt: HostRuntime) {
    let mut items: Seq<u8> = Seq::new(rt.alloc());
    items.push(5).expect(&rt, "memory");
    items.push(7).expect(&rt, "memory");
    assert!(rt; items.len() == 2 && items.as_slice() == [5, 7].as_slice());
    assert!(rt; items.get(1).copied() == Some(7) && items.get(2).is_none());
    let again = Seq::of_vec(items.into_vec());
    assert!(rt; again.len() == 2 && again.emptied().len() == 0);
}

/// One feature of each shape, with a property of each kind.
const FEATURES: &str =
    r#"{"type":"Feature","id":"a","geometry":{"type":"Point","coordinates":[1.0000000,-2.0000000]},"properties":{}}
{"type":"Feature","id":"b","geometry":{"type":"MultiPoint","coordinates":[[1.0000000,2.0000000],[3.0000000,4.0000000]]},"properties":{"n":null}}
{"type":"Feature","id":"c","geometry":{"type":"LineString","coordinates":[[1.0000000,2.0000000],[3.0000000,4.0000000]]},"properties":{"f":false,"t":true}}
{"type":"Feature","id":"d","geometry":{"type":"MultiLineString","coordinates":[[[1.0000000,2.0000000]],[[3.0000000,4.0000000],[5.0000000,6.0000000]]]},"properties":{"n":-1.50e3}}
{"type":"Feature","id":"e","geometry":{"type":"Polygon","coordinates":[[[0.0000000,0.0000000],[4.0000000,0.0000000],[4.0000000,4.0000000],[0.0000000,0.0000000]],[[1.0000000,1.0000000],[2.0000000,1.0000000],[2.0000000,2.0000000],[1.0000000,1.0000000]]]},"properties":{"s":"Zürich"}}
{"type":"Feature","id":"f","geometry":{"type":"MultiPolygon","coordinates":[[[[0.0000000,0.0000000],[4.0000000,0.0000000],[4.0000000,4.0000000],[0.0000000,0.0000000]]],[[[5.0000000,5.0000000],[6.0000000,5.0000000],[6.0000000,6.0000000],[5.0000000,5.0000000]]]]},"properties":{"a":"","b":7,"c":true,"d":null}}
{"type":"Feature","id":"","geometry":null,"properties":{"":""}}"#;

/// The text of a copy of a feature.
fn copy_told(rt: &impl Abort, alloc: Global, feature: &Feature) -> String {
    let copy = feature.copy().expect(rt, "memory");
    let text = write_feature(alloc, &copy).expect(rt, "memory");
    String::from_utf8(text.into_vec()).ok().expect(rt, "a text")
}

/// The text of a copy of the feature that a text writes.
fn copied(rt: &impl Abort, alloc: Global, text: &str) -> String {
    let feature = read_feature(alloc, text.as_bytes()).expect(rt, "a feature");
    copy_told(rt, alloc, &feature)
}

#[test]
fn a_copy_of_a_feature_has_its_text(rt: HostRuntime) {
    for line in FEATURES.lines() {
        assert!(rt; copied(&rt, rt.alloc(), line).as_str() == line, "{line}");
    }
}

fn three_steps<L: Ledger>(blank: Blank)
    requires name { blank.name ≡ L.name }
    requires parts { blank.parts ≡ L.parts }
    requires some { 0 < blank.parts }
{
    let mut steps: Steps<L> = Steps::new(blank);
    for _step in 0..3u8 {
        steps.tick();
    }
}

#[test]
fn a_counter_takes_steps() {
    three_steps::<Brand>(Blank::new(1));
}
