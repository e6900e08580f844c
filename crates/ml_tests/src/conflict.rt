//! Intervals, limits and slots among rivals.
ghost use Rattle.std.specs.Prelude.{◌≡◌, ◌<◌};

use crate::cases::{
    OfPair, Table, both_told, count, first, fraction, fraction_at, good_label, hold, ratio_told,
    told_of_pair, word,
};
use ml_cone::{Label, Slot};
use ml_conflict::{RivalList, are_rivals, evaluate, first_block, interval, limit_up_to};
use ml_ratio::lines::parts_of;
use ml_ratio::{Ratio, Steps};
use std::alloc::Global;
use std::marker::Brand;
use std::process::Abort;
use std::sync::ledger::{Blank, Ledger};

/// The ends of an interval, with `-` where it has no end.
fn ends_told(rt: &impl Abort, alloc: Global, low: Ratio, end: Option<Ratio>) -> String {
    let low = ratio_told(rt, alloc, Some(low));
    let end = ratio_told(rt, alloc, end);
    format!(in alloc; "{low} {end}").expect(rt, "memory")
}

/// Two labels of one box, and the ends of the interval of scales at which the boxes overlap. The
/// first pair covers 10s..30s and 100 - 5s..100 + 5s, which meet where 100 < 35s and 5s < 100.
struct Intervals;

impl Table for Intervals {
    const LINES: &'static str = "\
0 0 0 1 0 1 10,-5,30,5 | 100 0 0 1 0 1 -5,-5,5,5 => 20/7 20/1
0 0 0 1 0 1 10,-5,30,5 | 100 30 0 1 0 1 -5,-5,5,5 => 3/1 20/1
0 0 0 1 0 1 10,-5,30,5 | 100 200 0 1 0 1 -5,-5,5,5 => none
0 0 0 1 0 1 10,-5,30,5 | -100 0 0 1 0 1 -5,-5,5,5 => none
0 0 0 1 0 1 -10,-5,10,5 | 400 0 0 1 0 1 -10,-5,10,5 => 20/1 -
0 0 0 1 0 1 -10,-5,10,5 | 0 -400 0 1 0 1 -10,-5,10,5 => 40/1 -
0 0 0 1 0 1 -10,-5,10,5 | 0 0 0 1 0 1 -10,-5,10,5 => 0/1 -
0 0 0 1 0 1 -10,-5,0,5 | 0 0 0 1 0 1 0,-5,10,5 => none
0 0 0 1 0 1 -10,-5,10,0 | 0 0 0 1 0 1 -10,0,10,5 => none
0 0 0 1 0 1 2,-5,3,5 | 100 0 0 1 0 1 -5,-5,5,5 => 25/2 -
0 0 0 1 0 1 -512,-1,512,1 | 2000000000 0 0 1 0 1 -512,-1,512,1 => 1953125/1 -
0 0 0 1 0 1 510,-1,511,1 | 2000000000 0 0 1 0 1 -512,-1,509,1 => 2000000000/1023 2000000000/1
0 0 0 1 5 1 -10,-5,10,5 | 400 0 0 1 0 1 -10,-5,10,5 => 16/1 -
0 0 0 1 0 1 -10,-5,10,5 | 400 0 0 1 5 1 -10,-5,10,5 => 16/1 -
0 0 0 1 5 1 -10,-5,10,5 | 0 400 0 1 5 1 -10,-5,10,5 => 20/1 -
0 0 0 1 1 1 -10,-5,0,5 | 0 0 0 1 0 1 0,-5,10,5 => 0/1 -
-2000000000 0 0 1 64 1 -512,-512,512,512 | 2000000000 0 0 1 64 1 -512,-512,512,512 => 31250000/9 -
-2000000000 0 0 1 64 1 -512,-1,512,1 | 1999999999 0 0 1 63 1 -512,-1,512,1 => 3999999999/1151 -";

    fn told(rt: &impl Abort, alloc: Global, input: &str) -> String {
        told_of_pair::<Intervals>(rt, alloc, input)
    }
}

impl OfPair for Intervals {
    fn told_of(rt: &impl Abort, alloc: Global, a: &Label, b: &Label, _rest: &str) -> String {
        match interval(a, 0, b, 0) {
            Some((low, end)) => ends_told(rt, alloc, low, end),
            None => "none".to_string(alloc).expect(rt, "memory"),
        }
    }
}

#[test]
fn boxes_overlap_in_these_intervals(rt: HostRuntime) {
    hold::<Intervals>(&rt, rt.alloc())
}

/// A label, an earlier one, until where that is active, and the limit that it sets.
struct Limits;

impl Table for Limits {
    const LINES: &'static str = "\
100 0 0 1000 0 1 -5,-5,5,5 | 0 0 0 1000 0 1 10,-5,30,5 | 1000 => 20/7
100 0 20/7 1000 0 1 -5,-5,5,5 | 0 0 0 1000 0 1 10,-5,30,5 | 1000 => 20/7
100 0 10 1000 0 1 -5,-5,5,5 | 0 0 0 1000 0 1 10,-5,30,5 | 1000 => 10/1
100 0 1999/100 1000 0 1 -5,-5,5,5 | 0 0 0 1000 0 1 10,-5,30,5 | 1000 => 1999/100
100 0 20 1000 0 1 -5,-5,5,5 | 0 0 0 1000 0 1 10,-5,30,5 | 1000 => -
100 0 25 1000 0 1 -5,-5,5,5 | 0 0 0 1000 0 1 10,-5,30,5 | 1000 => -
100 0 0 20/7 0 1 -5,-5,5,5 | 0 0 0 1000 0 1 10,-5,30,5 | 1000 => -
100 0 0 3 0 1 -5,-5,5,5 | 0 0 0 1000 0 1 10,-5,30,5 | 1000 => 20/7
100 0 0 1000 0 1 -5,-5,5,5 | 0 0 0 1000 0 1 10,-5,30,5 | 0 => -
100 0 0 1000 0 1 -5,-5,5,5 | 0 0 0 1000 0 1 10,-5,30,5 | 2 => -
100 0 0 1000 0 1 -5,-5,5,5 | 0 0 0 1000 0 1 10,-5,30,5 | 20/7 => -
100 0 0 1000 0 1 -5,-5,5,5 | 0 0 0 1000 0 1 10,-5,30,5 | 3 => 20/7
100 0 10 1000 0 1 -5,-5,5,5 | 0 0 0 1000 0 1 10,-5,30,5 | 10 => -
100 0 10 1000 0 1 -5,-5,5,5 | 0 0 0 1000 0 1 10,-5,30,5 | 21/2 => 10/1
400 0 0 1000 0 1 -10,-5,10,5 | 0 0 0 1000 0 1 -10,-5,10,5 | 1000 => 20/1
400 0 0 1000 0 1 -10,-5,10,5 | 0 0 0 1000 0 1 -10,-5,10,5 | 20 => -
400 0 0 20 0 1 -10,-5,10,5 | 0 0 0 1000 0 1 -10,-5,10,5 | 1000 => -
400 0 0 1000 0 1 -10,-5,10,5 | 0 0 50 1000 0 1 -10,-5,10,5 | 1000 => 50/1
400 0 0 1000 0 1 -10,-5,10,5 | 0 0 50 1000 0 1 -10,-5,10,5 | 50 => -
400 0 0 50 0 1 -10,-5,10,5 | 0 0 50 1000 0 1 -10,-5,10,5 | 1000 => -
7 0 0 1000 0 1 -10,-5,10,5 | 7 0 0 1000 0 1 -10,-5,10,5 | 1000 => 0/1
1800000000 0 0 268435456 0 1 -10,-5,10,5 | -1800000000 0 0 268435456 0 1 -10,-5,10,5 | 268435456 => 180000000/1
1800000000 0 0 268435456 0 1 -10,-5,10,5 | -1800000000 0 0 268435456 0 1 -10,-5,10,5 | 180000000 => -
1800000000 0 180000001 268435456 0 1 -10,-5,10,5 | -1800000000 0 0 268435456 0 1 -10,-5,10,5 | 268435456 => 180000001/1
100 0 0 1000 0 1 -5,-5,5,5 | 0 0 0 1000 0 2 10,-5,30,5 45,-5,55,5 | 1000 => 5/3
100 0 2 1000 0 1 -5,-5,5,5 | 0 0 0 1000 0 2 10,-5,30,5 45,-5,55,5 | 1000 => 2/1
100 0 5/2 1000 0 1 -5,-5,5,5 | 0 0 0 1000 0 2 10,-5,30,5 45,-5,55,5 | 1000 => 20/7
100 0 14/5 1000 0 1 -5,-5,5,5 | 0 0 0 1000 0 2 10,-5,30,5 45,-5,55,5 | 1000 => 20/7
100 0 20 1000 0 1 -5,-5,5,5 | 0 0 0 1000 0 2 10,-5,30,5 45,-5,55,5 | 1000 => -
100 0 0 1000 0 1 -5,-5,5,5 | 0 0 0 1000 0 2 10,-5,30,5 45,-5,55,5 | 5/3 => -
100 0 0 1000 0 1 -5,-5,5,5 | 0 0 0 1000 0 2 10,-5,30,5 45,-5,55,5 | 2 => 5/3
100 0 5/2 1000 0 1 -5,-5,5,5 | 0 0 0 1000 0 2 10,-5,30,5 45,-5,55,5 | 20/7 => -
100 0 0 1000 0 1 -5,-5,5,5 | 0 0 0 1000 0 3 -5,-5,0,5 10,-5,30,5 45,-5,55,5 | 1000 => 5/3
100 0 5/2 1000 0 1 -5,-5,5,5 | 0 0 0 1000 0 3 -5,-5,0,5 10,-5,30,5 45,-5,55,5 | 1000 => 20/7
100 0 20 1000 0 1 -5,-5,5,5 | 0 0 0 1000 0 3 -5,-5,0,5 10,-5,30,5 45,-5,55,5 | 1000 => 20/1
100 0 20 1000 0 1 -5,-5,5,5 | 0 0 0 1000 0 3 -5,-5,0,5 10,-5,30,5 45,-5,55,5 | 20 => -
0 0 5/2 1000 0 3 -5,-5,0,5 10,-5,30,5 45,-5,55,5 | 100 0 0 1000 0 1 -5,-5,5,5 | 1000 => 20/7
400 0 0 1000 5 1 -10,-5,10,5 | 0 0 0 1000 0 1 -10,-5,10,5 | 1000 => 16/1
400 0 0 1000 0 1 -10,-5,10,5 | 0 0 0 1000 5 1 -10,-5,10,5 | 1000 => 16/1";

    fn told(rt: &impl Abort, alloc: Global, input: &str) -> String {
        told_of_pair::<Limits>(rt, alloc, input)
    }
}

impl OfPair for Limits {
    fn told_of(rt: &impl Abort, alloc: Global, low: &Label, high: &Label, until: &str) -> String {
        let until = fraction(rt, until);
        ratio_told(rt, alloc, first_block(low, high, &until))
    }
}

#[test]
fn a_limit_is_where_overlap_begins_in_both_ranges(rt: HostRuntime) {
    hold::<Limits>(&rt, rt.alloc())
}

/// A label, an earlier one, until where that is active and a bound, and the limit that it sets up to there.
struct Bounded;

impl Table for Bounded {
    const LINES: &'static str = "\
100 0 0 1000 0 1 -5,-5,5,5 | 0 0 0 1000 0 1 10,-5,30,5 | 1000 1000 => 20/7
100 0 0 1000 0 1 -5,-5,5,5 | 0 0 0 1000 0 1 10,-5,30,5 | 1000 20/7 => 20/7
100 0 0 1000 0 1 -5,-5,5,5 | 0 0 0 1000 0 1 10,-5,30,5 | 1000 2 => -
100 0 0 1000 0 1 -5,-5,5,5 | 0 0 0 1000 0 1 10,-5,30,5 | 20/7 1000 => -
100 0 10 1000 0 1 -5,-5,5,5 | 0 0 0 1000 0 1 10,-5,30,5 | 1000 10 => 10/1
400 0 0 1000 0 1 -10,-5,10,5 | 0 0 0 1000 0 1 -10,-5,10,5 | 1000 20 => 20/1
400 0 0 1000 0 1 -10,-5,10,5 | 0 0 0 1000 0 1 -10,-5,10,5 | 1000 1999/100 => -
400 0 0 20 0 1 -10,-5,10,5 | 0 0 0 1000 0 1 -10,-5,10,5 | 1000 1000 => -
4000000 0 0 1000 0 1 -10,-5,10,5 | 0 0 0 1000 0 1 -10,-5,10,5 | 1000 1000 => -";

    fn told(rt: &impl Abort, alloc: Global, input: &str) -> String {
        told_of_pair::<Bounded>(rt, alloc, input)
    }
}

impl OfPair for Bounded {
    fn told_of(rt: &impl Abort, alloc: Global, low: &Label, high: &Label, rest: &str) -> String {
        let (until, bound) = rest.split_once(" ").expect(rt, "two scales");
        let (until, bound) = (fraction(rt, until), fraction(rt, bound));
        ratio_told(rt, alloc, limit_up_to(low, high, &until, &bound))
    }
}

#[test]
fn a_limit_above_the_bound_is_none(rt: HostRuntime) {
    hold::<Bounded>(&rt, rt.alloc())
}

/// Two labels, and whether they are rivals.
struct Rivals;

impl Table for Rivals {
    const LINES: &'static str = "\
400 0 0 1000 0 1 -10,-5,10,5 | 0 0 0 1000 0 1 -10,-5,10,5 => true
400 0 0 20 0 1 -10,-5,10,5 | 0 0 0 1000 0 1 -10,-5,10,5 => false
400 0 0 41/2 0 1 -10,-5,10,5 | 0 0 0 1000 0 1 -10,-5,10,5 => true
400 0 500 501 0 1 -10,-5,10,5 | 0 0 0 1000 0 1 -10,-5,10,5 => true
400 0 1000 2000 0 1 -10,-5,10,5 | 0 0 0 1000 0 1 -10,-5,10,5 => false
20000 0 0 2000 0 1 -10,-5,10,5 | 0 0 0 1000 0 1 -10,-5,10,5 => false
19999 0 0 2000 0 1 -10,-5,10,5 | 0 0 0 1000 0 1 -10,-5,10,5 => true
20000 0 0 2000 0 1 -10,-5,10,5 | 0 0 0 1000 1 1 -10,-5,10,5 => true";

    fn told(rt: &impl Abort, alloc: Global, input: &str) -> String {
        told_of_pair::<Rivals>(rt, alloc, input)
    }
}

impl OfPair for Rivals {
    fn told_of(rt: &impl Abort, alloc: Global, a: &Label, b: &Label, _rest: &str) -> String {
        both_told(rt, alloc, are_rivals(a, b), are_rivals(b, a))
    }
}

#[test]
fn rivals_overlap_at_a_scale_in_both_ranges(rt: HostRuntime) {
    hold::<Rivals>(&rt, rt.alloc())
}

/// A rival: its number, its label and its end.
#[derive(Drop)]
struct Other {
    number: u32,
    label: Label,
    until: Ratio,
}

#[derive(Drop)]
struct Others {
    list: Vec<Other>,
}

impl RivalList for Others {
    ghost use Rattle.std.specs.Prelude.{map};

    ghost rivals = { λ o. map (λ r. record { number = r.number; label = r.label; until = r.until }) o.list.items };

    fn count(&self) -> usize {
        self.list.len()
    }

    fn number(&self, k: usize) -> u32 {
        self.list[k].number
    }

    fn label(&self, k: usize) -> &Label {
        &self.list[k].label
    }

    fn until(&self, k: usize) -> Ratio {
        self.list[k].until
    }
}

fn slot_counted<L: Ledger>(low: &Label, rivals: &Others, blank: Blank) -> Slot
    requires name { blank.name ≡ L.name }
    requires parts { blank.parts ≡ L.parts }
    requires some { 0 < blank.parts }
{
    let mut steps: Steps<L> = Steps::new(blank);
    evaluate(low, rivals, &mut steps)
}

/// A label with a box of 20 by 10 pixels that may be shown from `min` until 1000.
fn usual(rt: &impl Abort, alloc: Global, x: &str, min: &str) -> Label {
    let text = format!(in alloc; "{x} 0 {min} 1000 0 1 -10,-5,10,5").expect(rt, "memory");
    good_label(rt, alloc, &text)
}

/// The rival that a text writes, as `NUMBER X END`.
fn rival_of(rt: &impl Abort, alloc: Global, text: &str) -> Other {
    let words = parts_of(alloc, text, ' ').expect(rt, "memory");
    let number = count(rt, &words, 0);
    let label = usual(rt, alloc, word(rt, &words, 1), "0");
    let until = fraction_at(rt, &words, 2);
    Other {
        number,
        label,
        until,
    }
}

/// The rivals that a text writes, or none.
fn rivals_of(rt: &impl Abort, alloc: Global, text: &str) -> Others {
    let mut list = Vec::new(alloc);
    if text != "none" {
        for part in text.split(';') {
            list.push(rival_of(rt, alloc, part)).expect(rt, "memory");
        }
    }
    Others { list }
}

/// The end and the blocker of a slot.
fn slot_told(rt: &impl Abort, alloc: Global, slot: &Slot) -> String {
    let until = ratio_told(rt, alloc, Some(slot.until));
    match slot.blocker {
        Some(number) => format!(in alloc; "{until} {number}").expect(rt, "memory"),
        None => format!(in alloc; "{until} -").expect(rt, "memory"),
    }
}

/// The slot of a label among rivals.
fn slot_of(low: &Label, rivals: &Others) -> Slot {
    slot_counted::<Brand>(low, rivals, Blank::new(1))
}

/// The end of a label at 0, shown from a scale on, among rivals, and the number of its blocker. A
/// rival at x overlaps the label from x/20 on, to either side.
struct Slots;

impl Table for Slots {
    const LINES: &'static str = "\
0 | none => 1000/1 -
0 | 7 400 1000 => 20/1 7
0 | 7 0 1000 => 0/1 7
0 | 7 20000 1000 => 1000/1 -
0 | 7 400 1000;3 -400 1000 => 20/1 7
0 | 3 -400 1000;7 400 1000 => 20/1 3
0 | 0 800 1000;3 -400 1000;7 400 1000;0 800 1000 => 20/1 3
0 | 0 800 1000;5 210 1000 => 21/2 5
0 | 0 400 19;5 800 1000 => 40/1 5
0 | 0 400 20;5 800 1000 => 40/1 5
0 | 0 400 21;5 800 1000 => 20/1 0
25 | 0 400 1000;5 800 1000 => 25/1 0
30 | 0 400 30;5 800 40 => 1000/1 -";

    fn told(rt: &impl Abort, alloc: Global, input: &str) -> String {
        let (min, rivals) = first(rt, input);
        let low = usual(rt, alloc, "0", min);
        let rivals = rivals_of(rt, alloc, rivals);
        slot_told(rt, alloc, &slot_of(&low, &rivals))
    }
}

#[test]
fn the_first_rival_that_sets_the_least_limit_blocks(rt: HostRuntime) {
    hold::<Slots>(&rt, rt.alloc())
}
