//! A slow program that knows the definitions alone, against the one pass.
ghost use Rattle.std.specs.Prelude.{◌<◌};

use ml_cone::{BoxPx, Label};
use ml_pass::{assign, read_table};
use ml_ratio::Ratio;
use std::alloc::Global;
use std::process::Abort;

/// A fraction, not reduced.
type Part = (i128, i128);

fn part_of(ratio: Ratio) -> Part {
    (ratio.num() as i128, ratio.den() as i128)
}

// No product here comes near 2^127.
fn times(a: i128, b: i128) -> i128 {
    a.wrapping_mul(b)
}

fn less(a: Part, b: Part) -> bool {
    times(a.0, b.1) < times(b.0, a.1)
}

/// The fraction halfway.
fn middle(a: Part, b: Part) -> Part {
    let sum = times(a.0, b.1).wrapping_add(times(b.0, a.1));
    (sum, times(2, times(a.1, b.1)))
}

/// Where the edge lies at the scale, times the scale's denominator.
fn edge(x: i64, u: i32, s: Part) -> i128 {
    times(x as i128, s.1).wrapping_add(times(u as i128, s.0))
}

/// The open overlap of two boxes at the scale, side by side.
fn boxes_cross(a: &Label, p: &BoxPx, b: &Label, q: &BoxPx, s: Part) -> bool {
    let left = edge(a.x(), p.l, s).max(edge(b.x(), q.l, s));
    let right = edge(a.x(), p.r, s).min(edge(b.x(), q.r, s));
    let bottom = edge(a.y(), p.b, s).max(edge(b.y(), q.b, s));
    let top = edge(a.y(), p.t, s).min(edge(b.y(), q.t, s));
    left < right && bottom < top
}

fn cross(a: &Label, b: &Label, s: Part) -> bool {
    for p in a.boxes().as_slice() {
        for q in b.boxes().as_slice() {
            if boxes_cross(a, p, b, q, s) {
                return true;
            }
        }
    }
    false
}

/// A label that has its end.
#[derive(Clone, Copy)]
struct Done<'a> {
    label: &'a Label,
    end: Part,
    blocker: Option<u32>,
}

/// Adds the scale above 0 at which an edge of the one side passes an edge of the other.
fn add_meeting(rt: &impl Abort, found: &mut Vec<Part>, x: i64, u: i32, y: i64, v: i32) {
    let far = (y as i128).wrapping_sub(x as i128);
    let wide = (u as i128).wrapping_sub(v as i128);
    if far > 0 && wide > 0 {
        found.push((far, wide)).expect(rt, "memory");
    } else if far < 0 && wide < 0 {
        found
            .push((far.wrapping_neg(), wide.wrapping_neg()))
            .expect(rt, "memory");
    }
}

/// Adds each scale at which the overlap of the two may begin or end.
fn add_meetings(rt: &impl Abort, found: &mut Vec<Part>, a: &Label, b: &Label) {
    for p in a.boxes().as_slice() {
        for q in b.boxes().as_slice() {
            add_meeting(rt, found, a.x(), p.l, b.x(), q.r);
            add_meeting(rt, found, a.x(), p.r, b.x(), q.l);
            add_meeting(rt, found, a.y(), p.b, b.y(), q.t);
            add_meeting(rt, found, a.y(), p.t, b.y(), q.b);
        }
    }
}

/// Every scale at which something may change for the label.
fn changes(rt: &impl Abort, alloc: Global, low: &Label, done: &[Done<'_>]) -> Vec<Part> {
    let mut found = Vec::new(alloc);
    found.push(part_of(low.max())).expect(rt, "memory");
    for one in done {
        found.push(part_of(one.label.min())).expect(rt, "memory");
        found.push(one.end).expect(rt, "memory");
        add_meetings(rt, &mut found, low, one.label);
    }
    found
}

/// The least of the scales above one.
fn next_above(found: &[Part], at: Part) -> Part {
    let mut next = (268435456, 1);
    for one in found {
        if less(at, *one) && less(*one, next) {
            next = *one;
        }
    }
    next
}

/// The place of the first that is active and overlaps the label at the scale.
fn first_across(low: &Label, done: &[Done<'_>], s: Part) -> Option<u32> {
    let mut place = 0u32;
    for one in done {
        let active = !less(s, part_of(one.label.min())) && less(s, one.end);
        if active && cross(low, one.label, s) {
            return Some(place);
        }
        place = place.wrapping_add(1);
    }
    None
}

/// The label's end: upwards from its minimum, the first change above which another is in its way.
fn walk<'a>(rt: &impl Abort, alloc: Global, low: &'a Label, done: &[Done<'_>]) -> Done<'a> {
    let found = changes(rt, alloc, low, done);
    let max = part_of(low.max());
    let mut at = part_of(low.min());
    let mut blocker = None;
    for _change in 0..found.len() {
        if blocker.is_none() && less(at, max) {
            let next = next_above(&found, at);
            blocker = first_across(low, done, middle(at, next));
            if blocker.is_none() {
                at = next;
            }
        }
    }
    Done {
        label: low,
        end: at,
        blocker,
    }
}

/// Numbers that look like chance and are the same each time.
#[derive(Drop)]
struct Dice {
    state: u64,
}

impl Dice {
    fn roll(&mut self, low: i64, high: i64) -> i64 {
        let next = self.state.wrapping_mul(6364136223846793005);
        self.state = next.wrapping_add(1442695040888963407);
        let sides = high.wrapping_sub(low).unsigned_abs().wrapping_add(1);
        let side = (self.state >> 33).checked_rem(sides).unwrap_or(0);
        low.wrapping_add_unsigned(side)
    }
}

/// A table of a few labels close to one another.
fn some_table(rt: &impl Abort, alloc: Global, dice: &mut Dice) -> String {
    let mut table = String::new(alloc);
    let count = dice.roll(2, 7);
    for i in 0..count {
        let (x, y) = (dice.roll(-200, 200), dice.roll(-30, 30));
        let (n, d) = (dice.roll(0, 6), dice.roll(1, 3));
        let m = n.wrapping_add(dice.roll(1, 90));
        table
            .push_str(&format!(in alloc; "L{i} {x} {y} {n}/{d} {m}/{d}").expect(rt, "memory"))
            .expect(rt, "memory");
        for _one in 0..dice.roll(1, 3) {
            let (l, b) = (dice.roll(-20, 15), dice.roll(-9, 6));
            let r = l.wrapping_add(dice.roll(1, 15));
            let t = b.wrapping_add(dice.roll(1, 9));
            table
                .push_str(&format!(in alloc; " {l},{b},{r},{t}").expect(rt, "memory"))
                .expect(rt, "memory");
        }
        table.push_str("\n").expect(rt, "memory");
    }
    table
}

/// Whether the one pass gives a table's labels the ends and blockers that the slow walk finds.
/// Counts the blockers.
fn agrees(rt: &impl Abort, alloc: Global, table: &str, blocked: &mut u32) -> bool {
    let labels = read_table(alloc, table.as_bytes()).expect(rt, "a table");
    let slots = assign(alloc, labels.as_slice()).expect(rt, "memory");
    let mut done: Vec<Done<'_>> = Vec::new(alloc);
    let mut same = slots.len() == labels.len();
    for (label, slot) in labels.as_slice().iter().zip(slots.as_slice()) {
        let one = walk(rt, alloc, label, &done);
        let end = part_of(slot.until);
        same = same && !less(one.end, end) && !less(end, one.end) && one.blocker == slot.blocker;
        if slot.blocker.is_some() {
            *blocked = blocked.wrapping_add(1);
        }
        done.push(one).expect(rt, "memory");
    }
    same
}

#[test]
fn a_slow_walk_finds_the_same_choices(rt: HostRuntime) {
    let mut dice = Dice { state: 7 };
    let mut blocked = 0;
    for _table in 0..400 {
        let table = some_table(&rt, rt.alloc(), &mut dice);
        assert!(rt; agrees(&rt, rt.alloc(), &table, &mut blocked), "{table}");
    }
    assert!(rt; blocked > 300, "the tables have conflicts: {blocked}");
}
