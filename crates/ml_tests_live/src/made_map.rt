//! Generated maps: where groups lie, and what the edits of a map come to.
use crate::cases::{Table, hold, text_of, whole};
use ml_gen::group::groups_of;
use ml_gen::{make_totals, totals_line};
use ml_ratio::lines::parts_of;
use ml_style::{SAMPLE, read_style};
use std::alloc::Global;
use std::process::Abort;

/// The number of 32 bits that a word writes.
fn number(rt: &impl Abort, words: &[&str], place: usize) -> u32 {
    u32::try_from(whole(rt, words, place))
        .ok()
        .expect(rt, "a number")
}

/// The line of totals of a map of so many groups.
fn totals_of(rt: &impl Abort, alloc: Global, groups: u32, seed: u32) -> String {
    if groups < 1 || groups > 6000 {
        panic!(rt; "so many groups");
    }
    let style = read_style(alloc, SAMPLE.as_bytes()).expect(rt, "a style");
    let totals = make_totals(alloc, style, groups, seed).expect(rt, "memory");
    text_of(rt, totals_line(alloc, &totals).expect(rt, "memory"))
}

/// So many groups and a seed, and the line of totals. Each removal leaves one town of the group shown
/// and each addition two; either changes three labels; a removal evaluates two, an addition three.
struct Totals;

impl Table for Totals {
    const LINES: &'static str = "\
20 7 => groups 20 features 100 labels 100 edits 40 shown 60 changes 120 evaluated 100 rev 40
1 0 => groups 1 features 5 labels 5 edits 2 shown 3 changes 6 evaluated 5 rev 2
3 4294967295 => groups 3 features 15 labels 15 edits 6 shown 9 changes 18 evaluated 15 rev 6
83 82 => groups 83 features 415 labels 415 edits 166 shown 249 changes 498 evaluated 415 rev 166";

    fn told(rt: &impl Abort, alloc: Global, input: &str) -> String {
        let words = parts_of(alloc, input, ' ').expect(rt, "memory");
        let groups = number(rt, &words, 0);
        let seed = number(rt, &words, 1);
        let line = totals_of(rt, alloc, groups, seed);
        line.trim_end().to_string(alloc).expect(rt, "memory")
    }
}

#[test]
fn edits_come_to_totals(rt: HostRuntime) {
    hold::<Totals>(&rt, rt.alloc())
}

/// The place of a group.
fn place_of(rt: &impl Abort, alloc: Global, seed: u32, number: u32) -> String {
    if number >= 6000 {
        panic!(rt; "a group");
    }
    let groups = groups_of(alloc, number + 1, seed).expect(rt, "memory");
    let group = groups.get(number as usize).expect(rt, "a group");
    let (x, y) = (group.x, group.y);
    format!(in alloc; "{x} {y}").expect(rt, "memory")
}

/// A seed and the number of a group, and its place.
struct Places;

impl Table for Places {
    const LINES: &'static str = "\
0 0 => -399996386 -399936593
7 0 => -399969444 -399988790
7 1 => -389973537 -399982095
7 79 => 390075468 -399920169
7 80 => -399936335 -389965766
7 161 => -389998279 -379974895
4294967295 0 => -399996482 -399962846
4294967295 5999 => 390073103 340006319";

    fn told(rt: &impl Abort, alloc: Global, input: &str) -> String {
        let words = parts_of(alloc, input, ' ').expect(rt, "memory");
        let seed = number(rt, &words, 0);
        place_of(rt, alloc, seed, number(rt, &words, 1))
    }
}

#[test]
fn groups_have_places(rt: HostRuntime) {
    hold::<Places>(&rt, rt.alloc())
}
