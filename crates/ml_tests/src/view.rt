//! Views from words, and the labels that they show.
use crate::cases::{Table, fraction, hold, numbers_told, view_told, word};
use ml_cone::{Label, Slot, View};
use ml_pass::read_table;
use ml_ratio::lines::parts_of;
use ml_view::{read_view, shown};
use std::alloc::Global;
use std::process::Abort;

/// Two labels, the one active until 1000, the other until 20.
const TABLE: &str = "A 0 0 0 1000 -10,-5,10,5\nB 400 0 0 1000 -10,-5,10,5\n";

/// The view of five words, or the place of the wrong word.
fn view_of(rt: &impl Abort, alloc: Global, text: &str) -> Result<View, usize> {
    let words = parts_of(alloc, text, ' ').expect(rt, "memory");
    let cx = word(rt, &words, 0);
    let cy = word(rt, &words, 1);
    let w = word(rt, &words, 2);
    let h = word(rt, &words, 3);
    read_view(cx, cy, w, h, word(rt, &words, 4))
}

/// The slot until a scale.
fn slot_until(rt: &impl Abort, scale: &str, blocker: Option<u32>) -> Slot {
    let until = fraction(rt, scale);
    Slot { until, blocker }
}

/// The places of the two labels that a view shows.
fn places_told(rt: &impl Abort, alloc: Global, labels: &[Label], view: &View) -> String {
    let slots = [slot_until(rt, "1000", None), slot_until(rt, "20", Some(0))];
    if labels.len() != 2 {
        panic!(rt; "two labels");
    }
    let places = shown(alloc, labels, &slots, view).expect(rt, "memory");
    numbers_told(rt, alloc, places.as_slice())
}

/// Five words, and the places of the labels that the view shows, or the place of the wrong word.
struct Views;

impl Table for Views {
    const LINES: &'static str = "\
200 0 1024 768 19/1 => 0 1
200 0 1024 768 39/2 => 0 1
200 0 1024 768 20/1 => 0
200 0 1024 768 1000 => none
10 0 2 768 1 => 0
11 0 2 768 1 => none
-11 0 2 768 1 => none
400 0 2 768 1 => 1
x x x x x => wrong 0
2000000001 0 2 2 1 => wrong 0
0 +1 1 2 1 => wrong 1
0 -2000000001 2 2 1 => wrong 1
0 0 1023 3 1 => wrong 2
0 0 0 2 1 => wrong 2
0 0 2 4098 0 => wrong 3
0 0 2 -2 1 => wrong 3
0 0 2 2 0 => wrong 4
0 0 2 2 5/0 => wrong 4
0 0 2 2 268435456 => wrong 4
0 0 2 2  => wrong 4";

    fn told(rt: &impl Abort, alloc: Global, input: &str) -> String {
        match view_of(rt, alloc, input) {
            Ok(view) => {
                let labels = read_table(alloc, TABLE.as_bytes()).expect(rt, "a table");
                places_told(rt, alloc, labels.as_slice(), &view)
            }
            Err(place) => format!(in alloc; "wrong {place}").expect(rt, "memory"),
        }
    }
}

#[test]
fn a_view_shows_what_is_active_and_meets_its_window(rt: HostRuntime) {
    hold::<Views>(&rt, rt.alloc())
}

/// Five words, and the parts of the view.
struct ViewParts;

impl Table for ViewParts {
    const LINES: &'static str = "\
-7 2000000000 4096 2 38/4 => -7 2000000000 4096 2 19/2";

    fn told(rt: &impl Abort, alloc: Global, input: &str) -> String {
        view_told(
            rt,
            alloc,
            &view_of(rt, alloc, input).ok().expect(rt, "a view"),
        )
    }
}

#[test]
fn a_view_has_the_parts_that_its_words_write(rt: HostRuntime) {
    hold::<ViewParts>(&rt, rt.alloc())
}
