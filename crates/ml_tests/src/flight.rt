//! Stays in a window, and peaks.
ghost use Rattle.std.specs.Prelude.{All};
ghost use Rattle.ml_flight.specs.Stay.{AreApart};

use crate::cases::{Table, count, first, hold, rows_of, whole};
use ml_cone::{Label, Span};
use ml_flight::{Peak, Stay, Window, peak, stays};
use ml_pass::read_table;
use ml_ratio::Seq;
use ml_ratio::lines::parts_of;
use std::alloc::Global;
use std::process::Abort;

/// The window that a text writes, as `CX CY W H`, if it makes one.
fn window_of(rt: &impl Abort, alloc: Global, text: &str) -> Option<Window> {
    let words = parts_of(alloc, text, ' ').expect(rt, "memory");
    let cx = whole(rt, &words, 0);
    let cy = whole(rt, &words, 1);
    Window::of(cx, cy, count(rt, &words, 2), count(rt, &words, 3))
}

/// Four words, and whether they make a window.
struct Windows;

impl Table for Windows {
    const LINES: &'static str = "\
0 0 2 2 => yes
2000000000 -2000000000 4096 4096 => yes
2000000001 0 2 2 => no
0 -2000000001 2 2 => no
0 0 1 2 => no
0 0 2 3 => no
0 0 0 2 => no
0 0 2 4098 => no";

    fn told(rt: &impl Abort, alloc: Global, input: &str) -> String {
        let made = window_of(rt, alloc, input).is_some();
        if made { "yes" } else { "no" }
            .to_string(alloc)
            .expect(rt, "memory")
    }
}

#[test]
fn a_window_is_a_view_without_its_scale(rt: HostRuntime) {
    hold::<Windows>(&rt, rt.alloc())
}

/// The stays of each label.
fn timelines(rt: &impl Abort, alloc: Global, labels: &[Label], at: &Window) -> Seq<Seq<Stay>>
    ensures { All AreApart result }
{
    let mut all = Seq::new(alloc);
    for label in labels {
        let span = Span {
            min: label.min(),
            until: label.max(),
        };
        all.push(stays(alloc, label, &span, at).expect(rt, "memory"))
            .expect(rt, "memory");
    }
    all
}

/// A stay as it is printed.
fn stay_told(rt: &impl Abort, alloc: Global, stay: &Stay) -> String {
    let open = if stay.from_in { "[" } else { "(" };
    let from = stay.from.text(alloc).expect(rt, "memory");
    let to = stay.to.text(alloc).expect(rt, "memory");
    format!(in alloc; "{open}{},{})", from.as_str(), to.as_str()).expect(rt, "memory")
}

/// The stays of a label as they are printed, each with a space before it.
fn stays_told(rt: &impl Abort, alloc: Global, stays: &Seq<Stay>) -> String {
    let mut told = String::new(alloc);
    for stay in stays.as_slice() {
        told.push_str(" ").expect(rt, "memory");
        told.push_str(&stay_told(rt, alloc, stay))
            .expect(rt, "memory");
    }
    told
}

/// A peak as it is printed.
fn peak_told(rt: &impl Abort, alloc: Global, peak: &Peak) -> String {
    let place = if peak.after { "after" } else { "at" };
    let mark = peak.mark.text(alloc).expect(rt, "memory");
    let many = peak.count;
    format!(in alloc; "peak {many} {place} {}", mark.as_str()).expect(rt, "memory")
}

/// The peak of the stays of a few labels.
fn peak_of(rt: &impl Abort, alloc: Global, all: &Seq<Seq<Stay>>) -> String
    requires { All AreApart all.now }
{
    if all.len() > 32768 {
        panic!(rt; "at most 32768 labels");
    }
    peak_told(rt, alloc, &peak(alloc, all).expect(rt, "memory"))
}

/// The stays of the labels that have some, and the peak.
fn timeline_told(rt: &impl Abort, alloc: Global, labels: &[Label], at: &Window) -> String {
    let all = timelines(rt, alloc, labels, at);
    let mut told = String::new(alloc);
    for (label, stays) in labels.iter().zip(all.as_slice()) {
        if stays.len() > 0 {
            told.push_str(label.id().as_str()).expect(rt, "memory");
            told.push_str(&stays_told(rt, alloc, stays))
                .expect(rt, "memory");
            told.push_str(", ").expect(rt, "memory");
        }
    }
    told.push_str(&peak_of(rt, alloc, &all))
        .expect(rt, "memory");
    told
}

/// A window, and labels as lines of a table, each active from its minimum to its maximum; then the
/// stays of each label that has some, and the peak.
struct LabelStays;

impl Table for LabelStays {
    const LINES: &'static str = "\
0 0 100 100 | A 0 0 0/1 1000/1 -10,-5,10,5 / B 400 0 0/1 20/1 -10,-5,10,5 / C 800 0 0/1 40/1 -10,-5,10,5 => A (0/1,1000/1), B (20/3,20/1), C (40/3,40/1), peak 3 after 40/3
0 0 2 2 | A 0 0 0/1 1000/1 -10,-5,10,5 / B 400 0 0/1 20/1 -10,-5,10,5 / C 800 0 0/1 40/1 -10,-5,10,5 => A (0/1,1000/1), peak 1 after 0/1
0 0 2 2 | A 0 0 10/1 1000/1 -10,-5,10,5 => A [10/1,1000/1), peak 1 at 10/1
0 0 2 2 | A -1000 0 0/1 1000/1 90,-5,110,5 => A (1000/111,1000/89), peak 1 after 1000/111
0 0 2 2 |  => peak 0 after 0/1
0 0 2 2 | A -100 0 0/1 1000/1 2,-5,5,5 5,-5,9,5 => A (10/1,100/1), peak 1 after 10/1
0 0 2 2 | A -100 0 0/1 1000/1 2,-5,5,5 3,-5,9,5 => A (10/1,100/1), peak 1 after 10/1
0 0 2 2 | A -120 0 0/1 1000/1 3,-5,5,5 7,-5,11,5 => A (10/1,20/1) (20/1,60/1), peak 1 after 10/1
0 0 2 2 | A -120 0 0/1 1000/1 3,-5,5,5 7,-5,11,5 4,-5,8,5 => A (10/1,60/1), peak 1 after 10/1
0 0 2 2 | A -120 0 20/1 40/1 3,-5,5,5 -3,-5,11,5 => A [20/1,40/1), peak 1 at 20/1
0 0 2 2 | A 0 0 5/1 10/1 -10,-5,10,5 / B 0 0 10/1 20/1 -10,-5,10,5 => A [5/1,10/1), B [10/1,20/1), peak 1 at 5/1
0 0 2 2 | A 0 0 5/1 10/1 -10,-5,10,5 / B 0 0 7/1 20/1 -10,-5,10,5 / C 0 0 12/1 30/1 -10,-5,10,5 => A [5/1,10/1), B [7/1,20/1), C [12/1,30/1), peak 2 at 7/1
-24 0 2 10 | A -10 0 0/1 1/7 3,-3,12,3 -1,-16,2,-3 / B 2 0 0/1 55997/1 -149,-512,-91,512 -9,-20,2,20 => B (13/75,13/45) (13/5,55997/1), peak 1 after 13/75
0 0 2 4096 | A -7 -42 1/2 367/2 -4,-2,1,0 / B 53 -79 0/1 145/1 -2,-4,4,4 20,-401,115,362 -6,8,14,10 / C 76 0 0/1 74189/1 -20,-20,-14,20 => A (7/2,367/2), B (53/7,145/1), C (76/21,76/13), peak 2 after 76/21
-15 0 2 100 | A -187 158 19/2 278/7 -485,-209,-282,285 / B 272 0 0/1 302/7 -16,-69,510,403 16,-20,20,20 -363,-512,-74,512 / C -264 -55 1/1 7842/1 -499,-512,-277,512 4,-512,281,512 => B (41/52,287/73) (287/17,302/7), C [1/1,83/1), peak 2 at 1/1
0 0 100 4096 | A 18 0 0/1 19/3 -2,-2,3,3 1,-4,4,4 8,-20,10,20 -8,-20,-3,20 -378,238,-214,433 => A (9/214,9/82) (9/29,19/3), peak 1 after 9/214
0 0 100 10 | A 1 0 0/1 251/1 -1,-4,1,3 -143,-512,286,512 -160,-512,430,512 / B -25 17 0/1 16/3 3,-4,4,4 / C -23 24 0/1 17/1 -13,-20,16,20 => A (1/210,251/1), B (17/9,16/3), C (24/25,17/1), peak 3 after 17/9
1761 0 10 4096 | A -1930 0 0/1 1/3 117,-422,458,322 / B 2678 0 0/1 356/1 -10,-14,17,9 1,0,4,1 -19,-20,-13,20 -4,2,-2,4 -380,-266,-51,455 => B (131/55,917/46) (917/24,356/1), peak 1 after 131/55
-1660 2167 100 2 | A 2000 804 0/1 83822/7 -316,-512,-313,512 -9,-20,3,20 => A (10/1,3660/263) (1363/21,83822/7), peak 1 after 10/1
13 0 4096 10 | A 10 0 1/1 107254/1 8,-20,17,20 10,-20,17,20 / B -12 5 0/1 56/1 -384,-512,137,512 1,-4,2,4 -16,-20,6,20 / C 12 0 2/3 118306/7 -423,-512,41,512 => A [1/1,107254/1), B (5/437,56/1), C [2/3,118306/7), peak 3 at 1/1
0 0 100 100 | A 13 4 35/2 5418/1 0,-4,1,4 / B -30 9 0/1 43880/3 -16,-19,-10,-3 -3,-3,-2,-2 1,-4,3,4 -368,-512,198,512 -2,-4,-1,4 / C -24 0 0/1 212/1 -4,-4,3,4 => A [35/2,5418/1), B (15/124,43880/3), C (24/53,212/1), peak 3 at 35/2
0 -22 4096 4096 | A -26 0 0/1 81435/2 -16,-14,2,4 / B -4 0 3/1 143783/7 -17,-20,-7,20 / C 22 -10 1/3 36303/7 -9,1,16,16 -3,-4,-2,4 -4,-4,2,4 => A (13/1025,81435/2), B [3/1,143783/7), C [1/3,36303/7), peak 3 at 3/1
2285 0 10 10 | A -818 0 1/1 161565/2 1,-4,4,4 -17,-20,-5,20 / B -883 0 0/1 16/1 -4,-4,0,4 / C 90 0 1/3 77236/1 -226,-512,74,512 268,-512,415,512 => A (3103/9,161565/2), C (439/84,2195/263) (2195/79,77236/1), peak 2 after 3103/9
-29 29 100 10 | A 2 -20 0/1 23/7 -350,-512,-99,512 -4,-4,0,4 -2,-1,1,4 -17,-6,-13,5 -9,11,-1,17 => A (49/517,31/49) (49/22,23/7), peak 1 after 49/517
0 0 10 10 | A -794 0 10/1 153/1 -15,-20,9,20 -11,-20,-10,20 32,-512,89,512 4,-20,20,20 -16,-20,-6,20 / B 293 354 1/1 34/7 0,-4,1,4 / C -1753 0 22/1 9770/1 -4,-4,0,4 => A [10/1,794/27) (794/25,153/1), C (1753/5,9770/1), peak 1 at 10/1
-29 0 4 10 | A 21 -9 363/2 79725/1 9,-6,16,20 / B 7 0 0/1 1/1 -2,-20,15,20 / C 3 20 0/1 18/7 -2,-4,3,4 / D 5 7 1/1 284/3 -2,-3,1,0 -3,-4,3,4 -4,-4,-1,4 -5,-20,-2,20 -15,-20,-9,20 => D (2/1,34/7) (34/7,284/3), peak 1 after 2/1";

    fn told(rt: &impl Abort, alloc: Global, input: &str) -> String {
        let (words, rows) = first(rt, input);
        let at = window_of(rt, alloc, words).expect(rt, "a window");
        let table = rows_of(rt, alloc, rows);
        let labels = read_table(alloc, table.as_bytes()).expect(rt, "a table");
        timeline_told(rt, alloc, labels.as_slice(), &at)
    }
}

#[test]
fn stays_are_the_intervals_in_which_a_label_is_shown(rt: HostRuntime) {
    hold::<LabelStays>(&rt, rt.alloc())
}
