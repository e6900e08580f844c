//! Labels, views and their tests at a scale.
use crate::cases::{
    OfLabel, OfPair, Table, both_told, count, fraction, fraction_at, good_label, good_view, hold,
    is_rising, label_of, label_told, number, pieces_of, told_of_label, told_of_pair, view_of,
    view_told, word,
};
use ml_cone::{
    BoxPx, Label, Order, Outline, Span, active, are_alike, last_band, meets, overlaps, same_labels,
};
use ml_ratio::lines::parts_of;
use ml_ratio::{Seq, Text};
use std::alloc::Global;
use std::process::Abort;

/// Parts of a label, and whether they make one.
struct Parts;

impl Table for Parts {
    const LINES: &'static str = "\
2000000000 -2000000000 0 1000 0 1 -10,-5,10,5 => true
-2000000000 2000000000 0 1000 0 1 -10,-5,10,5 => true
2000000001 0 0 1000 0 1 -10,-5,10,5 => false
-2000000001 0 0 1000 0 1 -10,-5,10,5 => false
0 2000000001 0 1000 0 1 -10,-5,10,5 => false
0 -2000000001 0 1000 0 1 -10,-5,10,5 => false
9999999999 0 0 1000 0 1 -10,-5,10,5 => false
0 -9999999999 0 1000 0 1 -10,-5,10,5 => false
0 0 0 1000 0 1 -512,-512,512,512 => true
0 0 0 1000 0 1 511,511,512,512 => true
0 0 0 1000 0 1 -512,-512,-511,-511 => true
0 0 0 1000 0 1 -513,0,1,1 => false
0 0 0 1000 0 1 0,-513,1,1 => false
0 0 0 1000 0 1 0,0,513,1 => false
0 0 0 1000 0 1 0,0,1,513 => false
0 0 0 1000 0 1 0,0,0,1 => false
0 0 0 1000 0 1 0,0,1,0 => false
0 0 0 1000 0 1 1,0,0,1 => false
0 0 0 1000 0 1 0,1,1,0 => false
0 0 0 1000 0 0 => false
0 0 0 1000 0 0 -10,-5,10,5 => false
0 0 0 1000 0 2 -10,-5,10,5 => false
0 0 0 1000 0 3 -10,-5,10,5 -10,-5,10,5 -10,5,10,5 => false
0 0 0 1000 0 3 -10,-5,10,5 -10,-5,10,5 -10,4,10,5 => true
0 0 0 1/65536 0 1 -10,-5,10,5 => true
0 0 1/2 1/2 0 1 -10,-5,10,5 => false
0 0 2/3 1/2 0 1 -10,-5,10,5 => false
0 0 1/2 2/3 0 1 -10,-5,10,5 => true
0 0 0 0 0 1 -10,-5,10,5 => false
0 0 268435455 268435456 0 1 -10,-5,10,5 => true
0 0 0 268435457 0 1 -10,-5,10,5 => false
0 0 0 4294967295/16 0 1 -10,-5,10,5 => true
0 0 0 4294967295/15 0 1 -10,-5,10,5 => false
0 0 0 1000 64 1 -512,-512,512,512 => true
0 0 0 1000 65 1 -512,-512,512,512 => false
0 0 0 1000 4294967295 1 -10,-5,10,5 => false";

    fn told(rt: &impl Abort, alloc: Global, input: &str) -> String {
        label_of(rt, alloc, input)
            .is_some()
            .to_string(alloc)
            .expect(rt, "memory")
    }
}

#[test]
fn labels_have_parts_within_bounds(rt: HostRuntime) {
    hold::<Parts>(&rt, rt.alloc())
}

/// A label with so many boxes and pieces, if there is one.
fn label_with(rt: &impl Abort, alloc: Global, boxes: u32, pieces: u32) -> Option<Label> {
    let usual = BoxPx {
        l: -10,
        b: -5,
        r: 10,
        t: 5,
    };
    let boxes = Seq::of_vec(vec![in alloc; usual; boxes as usize].expect(rt, "memory"));
    let pieces = pieces_of(rt, alloc, pieces);
    let order = order_of(rt, alloc, "0 0 A");
    let min = fraction(rt, "0");
    let max = fraction(rt, "1000");
    Label::of(order, 0, 0, boxes, pieces, min, max, 0)
}

/// Numbers of boxes and of pieces, and whether a label may have so many.
struct Counts;

impl Table for Counts {
    const LINES: &'static str = "\
64 64 => true
65 65 => false
64 63 => false
64 65 => false";

    fn told(rt: &impl Abort, alloc: Global, input: &str) -> String {
        let words = parts_of(alloc, input, ' ').expect(rt, "memory");
        let label = label_with(rt, alloc, count(rt, &words, 0), count(rt, &words, 1));
        label.is_some().to_string(alloc).expect(rt, "memory")
    }
}

#[test]
fn labels_have_1_to_64_boxes_with_a_piece_each(rt: HostRuntime) {
    hold::<Counts>(&rt, rt.alloc())
}

/// The parts of a copy of a label.
fn copy_told(rt: &impl Abort, alloc: Global, label: &Label) -> String {
    label_told(rt, alloc, &label.copy().expect(rt, "memory"))
}

/// Parts of a label, and the parts of the label and of a copy.
struct Copies;

impl Table for Copies {
    const LINES: &'static str = "\
-7 9 1/2 7/3 5 2 -30,-7,4,8 4,-6,33,9 => 0 0 A -7 9 1/2 7/3 5 -30,-7,4,8:a 4,-6,33,9:a, copied 0 0 A -7 9 1/2 7/3 5 -30,-7,4,8:a 4,-6,33,9:a";

    fn told(rt: &impl Abort, alloc: Global, input: &str) -> String {
        let mut told = label_told(rt, alloc, &good_label(rt, alloc, input));
        told.push_str(", copied ").expect(rt, "memory");
        told.push_str(&copy_told(rt, alloc, &good_label(rt, alloc, input)))
            .expect(rt, "memory");
        told
    }
}

#[test]
fn a_label_and_its_copy_have_its_parts(rt: HostRuntime) {
    hold::<Copies>(&rt, rt.alloc())
}

/// Two labels with one order, and whether they are the same.
struct Likes;

impl Table for Likes {
    const LINES: &'static str = "\
7 9 1/2 7/3 5 2 -30,-7,4,8 4,-6,33,9 | 7 9 1/2 7/3 5 2 -30,-7,4,8 4,-6,33,9 | - => true
7 9 1/2 7/3 5 2 -30,-7,4,8 4,-6,33,9 | 7 9 2/4 14/6 5 2 -30,-7,4,8 4,-6,33,9 | - => true
7 9 1/2 7/3 5 2 -30,-7,4,8 4,-6,33,9 | 8 9 1/2 7/3 5 2 -30,-7,4,8 4,-6,33,9 | - => false
7 9 1/2 7/3 5 2 -30,-7,4,8 4,-6,33,9 | 7 8 1/2 7/3 5 2 -30,-7,4,8 4,-6,33,9 | - => false
7 9 1/2 7/3 5 2 -30,-7,4,8 4,-6,33,9 | 7 9 1/3 7/3 5 2 -30,-7,4,8 4,-6,33,9 | - => false
7 9 1/2 7/3 5 2 -30,-7,4,8 4,-6,33,9 | 7 9 1/2 7/4 5 2 -30,-7,4,8 4,-6,33,9 | - => false
7 9 1/2 7/3 5 2 -30,-7,4,8 4,-6,33,9 | 7 9 1/2 7/3 4 2 -30,-7,4,8 4,-6,33,9 | - => false
7 9 1/2 7/3 5 2 -30,-7,4,8 4,-6,33,9 | 7 9 1/2 7/3 5 1 -30,-7,4,8 | - => false
7 9 1/2 7/3 5 2 -30,-7,4,8 4,-6,33,9 | 7 9 1/2 7/3 5 2 -30,-7,4,8 5,-6,33,9 | - => false
7 9 1/2 7/3 5 2 -30,-7,4,8 4,-6,33,9 | 7 9 1/2 7/3 5 2 -30,-7,4,8 4,-5,33,9 | - => false
7 9 1/2 7/3 5 2 -30,-7,4,8 4,-6,33,9 | 7 9 1/2 7/3 5 2 -30,-7,4,8 4,-6,34,9 | - => false
7 9 1/2 7/3 5 2 -30,-7,4,8 4,-6,33,9 | 7 9 1/2 7/3 5 2 -30,-7,4,8 4,-6,33,8 | - => false";

    fn told(rt: &impl Abort, alloc: Global, input: &str) -> String {
        told_of_pair::<Likes>(rt, alloc, input)
    }
}

impl OfPair for Likes {
    fn told_of(rt: &impl Abort, alloc: Global, a: &Label, b: &Label, _rest: &str) -> String {
        both_told(rt, alloc, same_labels(a, b), are_alike(b, a))
    }
}

#[test]
fn labels_with_one_order_are_the_same_where_they_are_alike(rt: HostRuntime) {
    hold::<Likes>(&rt, rt.alloc())
}

/// The order that a text writes, as `CLASS RANK ID`.
fn order_of(rt: &impl Abort, alloc: Global, text: &str) -> Order {
    let words = parts_of(alloc, text, ' ').expect(rt, "memory");
    let class = count(rt, &words, 0);
    let rank = number(rt, &words, 1);
    let id = Text::of(alloc, word(rt, &words, 2)).expect(rt, "memory");
    Order { class, rank, id }
}

/// Each stands before the next.
const ORDERS: &str = "\
0 0 z
1 18446744073709551615 z
1 8 A
1 8 AA
1 8 a
1 8 ä
1 7 -
4294967295 9 A";

#[test]
fn priority_goes_by_class_then_rank_downwards_then_id(rt: HostRuntime) {
    let mut orders = Vec::new(rt.alloc());
    for line in ORDERS.lines() {
        let order = order_of(&rt, rt.alloc(), line);
        assert!(rt; order.copy().expect(&rt, "memory") == order, "{line}");
        orders.push(order).expect(&rt, "memory");
    }
    assert!(rt; is_rising(&orders));
}

/// Parts of a view, and whether they make one.
struct Views;

impl Table for Views {
    const LINES: &'static str = "\
2000000000 -2000000000 2 2 1 => true
2000000001 0 2 2 1 => false
0 -2000000001 2 2 1 => false
5 -6 2 4096 19/2 => true
5 -6 4096 2 1/65536 => true
5 -6 0 2 1 => false
5 -6 2 0 1 => false
5 -6 3 2 1 => false
5 -6 2 1023 1 => false
5 -6 4098 2 1 => false
5 -6 2 4098 1 => false
5 -6 2 2 0 => false
5 -6 2 2 268435455 => true
5 -6 2 2 268435456 => false
5 -6 2 2 4294967295/16 => true";

    fn told(rt: &impl Abort, alloc: Global, input: &str) -> String {
        view_of(rt, alloc, input)
            .is_some()
            .to_string(alloc)
            .expect(rt, "memory")
    }
}

#[test]
fn views_have_even_sides_and_a_scale(rt: HostRuntime) {
    hold::<Views>(&rt, rt.alloc())
}

/// Parts of a view, and the words of the view.
struct ViewParts;

impl Table for ViewParts {
    const LINES: &'static str = "\
5 -6 4096 2 38/4 => 5 -6 4096 2 19/2";

    fn told(rt: &impl Abort, alloc: Global, input: &str) -> String {
        view_told(rt, alloc, &good_view(rt, alloc, input))
    }
}

#[test]
fn a_view_has_its_parts(rt: HostRuntime) {
    hold::<ViewParts>(&rt, rt.alloc())
}

/// A range, a scale, and whether a label with the range is active there.
struct Ranges;

impl Table for Ranges {
    const LINES: &'static str = "\
1/2 7/3 1/65536 => false
1/2 7/3 499/1000 => false
1/2 7/3 1/2 => true
1/2 7/3 1 => true
1/2 7/3 6999/3000 => true
1/2 7/3 7/3 => false
1/2 7/3 8/3 => false
5 5 5 => false";

    fn told(rt: &impl Abort, alloc: Global, input: &str) -> String {
        let words = parts_of(alloc, input, ' ').expect(rt, "memory");
        let min = fraction_at(rt, &words, 0);
        let until = fraction_at(rt, &words, 1);
        let scale = fraction_at(rt, &words, 2);
        active(&Span { min, until }, &scale)
            .to_string(alloc)
            .expect(rt, "memory")
    }
}

#[test]
fn a_range_has_its_beginning_and_not_its_end(rt: HostRuntime) {
    hold::<Ranges>(&rt, rt.alloc())
}

/// Two labels, a scale, and whether they overlap there. The first pair covers 10s..30s and
/// 100 - 5s..100 + 5s, which meet where 100 < 35s and 5s < 100.
struct Meetings;

impl Table for Meetings {
    const LINES: &'static str = "\
0 0 0 1000 0 1 10,-5,30,5 | 100 0 0 1000 0 1 -5,-5,5,5 | 1 => false
0 0 0 1000 0 1 10,-5,30,5 | 100 0 0 1000 0 1 -5,-5,5,5 | 20/7 => false
0 0 0 1000 0 1 10,-5,30,5 | 100 0 0 1000 0 1 -5,-5,5,5 | 2857/1000 => false
0 0 0 1000 0 1 10,-5,30,5 | 100 0 0 1000 0 1 -5,-5,5,5 | 2858/1000 => true
0 0 0 1000 0 1 10,-5,30,5 | 100 0 0 1000 0 1 -5,-5,5,5 | 10 => true
0 0 0 1000 0 1 10,-5,30,5 | 100 0 0 1000 0 1 -5,-5,5,5 | 1999/100 => true
0 0 0 1000 0 1 10,-5,30,5 | 100 0 0 1000 0 1 -5,-5,5,5 | 20 => false
0 0 0 1000 0 1 10,-5,30,5 | 100 0 0 1000 0 1 -5,-5,5,5 | 2001/100 => false
0 0 0 1000 0 1 10,-5,30,5 | 100 0 0 1000 0 1 -5,-5,5,5 | 268435455 => false
0 0 0 1000 0 1 -5,10,5,30 | 0 100 0 1000 0 1 -5,-5,5,5 | 20/7 => false
0 0 0 1000 0 1 -5,10,5,30 | 0 100 0 1000 0 1 -5,-5,5,5 | 2858/1000 => true
0 0 0 1000 0 1 -5,10,5,30 | 0 100 0 1000 0 1 -5,-5,5,5 | 1999/100 => true
0 0 0 1000 0 1 -5,10,5,30 | 0 100 0 1000 0 1 -5,-5,5,5 | 20 => false
7 7 0 1000 0 1 -10,-5,0,5 | 7 7 0 1000 0 1 0,-5,10,5 | 1/65536 => false
7 7 0 1000 0 1 -10,-5,0,5 | 7 7 0 1000 0 1 0,-5,10,5 | 1 => false
7 7 0 1000 0 1 -10,-5,0,5 | 7 7 0 1000 0 1 0,-5,10,5 | 268435455 => false
7 7 0 1000 0 1 -10,-5,10,0 | 7 7 0 1000 0 1 -10,0,10,5 | 1/65536 => false
7 7 0 1000 0 1 -10,-5,10,0 | 7 7 0 1000 0 1 -10,0,10,5 | 1000 => false
7 7 0 1000 0 1 -10,-5,10,0 | 7 7 0 1000 0 1 -10,0,10,5 | 268435455 => false
0 0 0 1000 0 1 -10,-5,10,5 | 400 0 0 1000 0 1 -10,-5,10,5 | 20 => false
0 0 0 1000 0 1 -10,-5,10,5 | 400 0 0 1000 0 1 -10,-5,10,5 | 2001/100 => true
0 0 0 1000 0 1 -10,-5,10,5 | 0 400 0 1000 0 1 -10,-5,10,5 | 40 => false
0 0 0 1000 0 1 -10,-5,10,5 | 0 400 0 1000 0 1 -10,-5,10,5 | 4001/100 => true
0 0 0 1000 0 2 -10,-5,10,5 100,-5,110,5 | 0 0 0 1000 0 2 200,-5,210,5 109,4,115,9 | 1 => true
0 0 0 1000 0 2 -10,-5,10,5 100,-5,110,5 | 0 0 0 1000 0 2 200,-5,210,5 109,5,115,9 | 1 => false
-2000000000 2000000000 0 1 0 1 -512,-512,512,512 | 2000000000 -2000000000 0 1 0 1 -512,-512,512,512 | 1/65536 => false
-2000000000 2000000000 0 1 0 1 -512,-512,512,512 | 2000000000 -2000000000 0 1 0 1 -512,-512,512,512 | 7812499/2 => false
-2000000000 2000000000 0 1 0 1 -512,-512,512,512 | 2000000000 -2000000000 0 1 0 1 -512,-512,512,512 | 3906250 => false
-2000000000 2000000000 0 1 0 1 -512,-512,512,512 | 2000000000 -2000000000 0 1 0 1 -512,-512,512,512 | 7812501/2 => true
-2000000000 2000000000 0 1 0 1 -512,-512,512,512 | 2000000000 -2000000000 0 1 0 1 -512,-512,512,512 | 268435455 => true
1999999999 0 0 1 0 1 511,-1,512,1 | 2000000000 0 0 1 0 1 -512,-1,-511,1 | 1/1024 => false
1999999999 0 0 1 0 1 511,-1,512,1 | 2000000000 0 0 1 0 1 -512,-1,-511,1 | 1/1023 => true
1999999999 0 0 1 0 1 511,-1,512,1 | 2000000000 0 0 1 0 1 -512,-1,-511,1 | 1/1022 => false
0 0 0 1000 5 1 -10,-5,10,5 | 400 0 0 1000 0 1 -10,-5,10,5 | 16 => false
0 0 0 1000 5 1 -10,-5,10,5 | 400 0 0 1000 0 1 -10,-5,10,5 | 1601/100 => true
0 0 0 1000 5 1 -10,-5,10,5 | 400 0 0 1000 3 1 -10,-5,10,5 | 100/7 => false
0 0 0 1000 5 1 -10,-5,10,5 | 400 0 0 1000 3 1 -10,-5,10,5 | 143/10 => true
0 0 0 1000 5 1 -10,-5,10,5 | 0 400 0 1000 3 1 -10,-5,10,5 | 200/9 => false
0 0 0 1000 5 1 -10,-5,10,5 | 0 400 0 1000 3 1 -10,-5,10,5 | 223/10 => true
7 7 0 1000 0 1 -10,-5,0,5 | 7 7 0 1000 1 1 0,-5,10,5 | 1/65536 => true
-2000000000 0 0 1 64 1 -512,-512,512,512 | 2000000000 0 0 1 64 1 -512,-512,512,512 | 31250000/9 => false
-2000000000 0 0 1 64 1 -512,-512,512,512 | 2000000000 0 0 1 64 1 -512,-512,512,512 | 31250001/9 => true";

    fn told(rt: &impl Abort, alloc: Global, input: &str) -> String {
        told_of_pair::<Meetings>(rt, alloc, input)
    }
}

impl OfPair for Meetings {
    fn told_of(rt: &impl Abort, alloc: Global, a: &Label, b: &Label, scale: &str) -> String {
        let scale = fraction(rt, scale);
        both_told(rt, alloc, overlaps(a, b, &scale), overlaps(b, a, &scale))
    }
}

#[test]
fn boxes_overlap_in_an_open_interval_of_scales(rt: HostRuntime) {
    hold::<Meetings>(&rt, rt.alloc())
}

/// A label, a view, and whether a box of the label meets it. At scale 1 the first box covers -10..10
/// by -5..5, and a window of 2 reaches one unit to either hand; a margin widens no box here.
struct Windows;

impl Table for Windows {
    const LINES: &'static str = "\
0 0 0 1000 0 1 -10,-5,10,5 | 10 0 2 2 1 => true
0 0 0 1000 0 1 -10,-5,10,5 | 11 0 2 2 1 => false
0 0 0 1000 5 1 -10,-5,10,5 | 10 0 2 2 1 => true
0 0 0 1000 5 1 -10,-5,10,5 | 11 0 2 2 1 => false
0 0 0 1000 0 1 -10,-5,10,5 | -10 0 2 2 1 => true
0 0 0 1000 0 1 -10,-5,10,5 | -11 0 2 2 1 => false
0 0 0 1000 0 1 -10,-5,10,5 | 0 5 2 2 1 => true
0 0 0 1000 0 1 -10,-5,10,5 | 0 6 2 2 1 => false
0 0 0 1000 0 1 -10,-5,10,5 | 0 -5 2 2 1 => true
0 0 0 1000 0 1 -10,-5,10,5 | 0 -6 2 2 1 => false
0 0 0 1000 0 1 -10,-5,10,5 | 10 6 2 2 1 => false
0 0 0 1000 0 1 -10,-5,10,5 | 9917 0 1024 768 19 => true
0 0 0 1000 0 1 -10,-5,10,5 | 9918 0 1024 768 19 => false
0 0 0 1000 0 1 -10,-5,10,5 | 0 7390 1024 768 19 => true
0 0 0 1000 0 1 -10,-5,10,5 | 0 7391 1024 768 19 => false
1000 0 0 1000 0 2 -512,-5,-500,5 500,-5,512,5 | 1000 0 2 2 3 => false
1000 0 0 1000 0 2 -512,-5,-500,5 500,-5,512,5 | 2497 0 2 2 3 => false
1000 0 0 1000 0 2 -512,-5,-500,5 500,-5,512,5 | 2498 0 2 2 3 => true
1000 0 0 1000 0 2 -512,-5,-500,5 500,-5,512,5 | 2520 0 2 2 3 => true
1000 0 0 1000 0 2 -512,-5,-500,5 500,-5,512,5 | 2538 0 2 2 3 => true
1000 0 0 1000 0 2 -512,-5,-500,5 500,-5,512,5 | 2539 0 2 2 3 => false
-2000000000 0 0 1000 0 1 -512,-5,512,5 | 2000000000 0 4096 4096 1562500 => false
-2000000000 0 0 1000 0 1 -512,-5,512,5 | 2000000000 0 4096 4096 3125001/2 => true
-2000000000 0 0 1000 0 1 -512,-5,512,5 | 2000000000 0 4096 4096 268435455 => true
-2000000000 0 0 1000 0 1 -512,-5,512,5 | 2000000000 0 4096 4096 1/65536 => false
-2000000000 0 0 1000 0 1 -512,-5,512,5 | -2000000000 0 4096 4096 1/65536 => true";

    fn told(rt: &impl Abort, alloc: Global, input: &str) -> String {
        told_of_label::<Windows>(rt, alloc, input)
    }
}

impl OfLabel for Windows {
    fn told_of(rt: &impl Abort, alloc: Global, label: &Label, view: &str) -> String {
        let view = good_view(rt, alloc, view);
        meets(label, &view).to_string(alloc).expect(rt, "memory")
    }
}

#[test]
fn a_label_that_touches_the_window_is_outside(rt: HostRuntime) {
    hold::<Windows>(&rt, rt.alloc())
}

/// The band and the cells for four bands from 0 on about a label at (0, 0), among labels like it, if there are such.
fn cells_across(
    rt: &impl Abort,
    alloc: Global,
    max: &str,
    reach: &str,
) -> Option<(u8, i32, i32, i32, i32)> {
    let text = format!(in alloc; "0 0 0 {max} 0 1 {reach}").expect(rt, "memory");
    let label = good_label(rt, alloc, text.as_str());
    let cells = Outline::none().with(&label).across(&label, 0, 3)?;
    Some((cells.band, cells.x0, cells.y0, cells.x1, cells.y1))
}

// In band 3 a pixel is 16 units at most: two such labels overlap up to 320 units from one another. Two of 200
// pixels do up to 3,200 units, and cells of band 2, of 4,096 units, are enough for them if no range ends before it.
#[test]
fn labels_that_do_not_reach_far_have_cells_for_four_bands(rt: HostRuntime) {
    let near = cells_across(&rt, rt.alloc(), "1", "-10,-5,10,5");
    assert!(rt; near == Some((0, -1, -1, 0, 0)));
    let far = cells_across(&rt, rt.alloc(), "1000", "-100,-5,100,5");
    assert!(rt; far == Some((2, -1, -1, 0, 0)));
    let ended = cells_across(&rt, rt.alloc(), "1", "-100,-5,100,5");
    assert!(rt; ended.is_none());
}

/// The band and the cells that are searched in band 3 about a label at (0, 0), among labels like it.
fn cells_around(rt: &impl Abort, alloc: Global, reach: &str) -> (u8, i32, i32, i32, i32) {
    let text = format!(in alloc; "0 0 0 1000 0 1 {reach}").expect(rt, "memory");
    let label = good_label(rt, alloc, text.as_str());
    let cells = Outline::none().with(&label).around(&label, 3);
    (cells.band, cells.x0, cells.y0, cells.x1, cells.y1)
}

// In band 3 a pixel is 16 units at most. Two labels of 20 pixels are found in cells of band 0, of 1,024
// units; those of 600 pixels in cells of band 3.
#[test]
fn labels_that_do_not_reach_far_are_searched_for_in_small_cells(rt: HostRuntime) {
    let near = cells_around(&rt, rt.alloc(), "-10,-5,10,5");
    assert!(rt; near == (0, -1, -1, 0, 0));
    let far = cells_around(&rt, rt.alloc(), "-300,-5,300,5");
    assert!(rt; far == (3, -1, -1, 0, 0));
}

/// A label whose selectable range ends at `max`.
fn label_up_to(rt: &impl Abort, alloc: Global, max: &str) -> Label {
    let text = format!(in alloc; "0 0 0 {max} 0 1 -10,-5,10,5").expect(rt, "memory");
    good_label(rt, alloc, text.as_str())
}

/// The first band in which a range ends, of two labels whose ranges end at these scales.
fn first_end(rt: &impl Abort, alloc: Global, one: &str, other: &str) -> u8 {
    let outline = Outline::none().with(&label_up_to(rt, alloc, one));
    outline.with(&label_up_to(rt, alloc, other)).first_end()
}

// 1,000 lies from 2^9 up to 2^10, and 5 from 2^2 up to 2^3; the greatest maximum, 2^28, counts to the last band.
#[test]
fn ranges_end_in_their_last_band(rt: HostRuntime) {
    assert!(rt; last_band(&label_up_to(&rt, rt.alloc(), "1")) == 0);
    assert!(rt; last_band(&label_up_to(&rt, rt.alloc(), "1000")) == 9);
    assert!(rt; last_band(&label_up_to(&rt, rt.alloc(), "268435456")) == 27);
    assert!(rt; first_end(&rt, rt.alloc(), "1000", "5") == 2);
    assert!(rt; first_end(&rt, rt.alloc(), "5", "1000") == 2);
    assert!(rt; first_end(&rt, rt.alloc(), "268435456", "1000") == 9);
    assert!(rt; Outline::none().first_end() == 27);
}
