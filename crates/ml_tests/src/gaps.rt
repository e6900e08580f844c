//! Longest free gaps, and the views that they give.
use crate::cases::{Table, first, fraction_at, good_view, hold, numbers_told, range_told, rows_of};
use ml_cone::{Label, View};
use ml_gaps::{Gap, Piece, blocked, gaps, shown_gaps};
use ml_pass::read_table;
use ml_ratio::Seq;
use ml_ratio::lines::parts_of;
use std::alloc::Global;
use std::process::Abort;

/// A label with its gap.
fn gap_told(rt: &impl Abort, alloc: Global, label: &Label, gap: &Gap) -> String {
    let range = range_told(rt, alloc, &gap.from, &gap.until);
    format!(in alloc; "{} {range}", label.id().as_str()).expect(rt, "memory")
}

/// Each label with its gap.
fn gaps_told(rt: &impl Abort, alloc: Global, labels: &[Label], gaps: &[Gap]) -> String {
    let mut told = String::new(alloc);
    for (label, gap) in labels.iter().zip(gaps) {
        if !told.is_empty() {
            told.push_str(", ").expect(rt, "memory");
        }
        told.push_str(&gap_told(rt, alloc, label, gap))
            .expect(rt, "memory");
    }
    told
}

/// Labels as lines of a table, and the gap of each.
struct LongestGaps;

impl Table for LongestGaps {
    const LINES: &'static str = "\
A 0 0 0/1 1000/1 -10,-5,10,5 / B 400 0 0/1 1000/1 -10,-5,10,5 => A 0/1 1000/1, B 0/1 20/1
A 0 0 0/1 1000/1 -10,-5,10,5 / B 400 0 0/1 2000/1 -10,-5,10,5 => A 0/1 1000/1, B 1000/1 2000/1
A 0 0 0/1 1000/1 10,-5,30,5 / B 100 0 0/1 1000/1 -5,-5,5,5 => A 0/1 1000/1, B 20/1 1000/1
A 0 0 0/1 1000/1 10,-5,30,5 / B 100 0 0/1 160/7 -5,-5,5,5 => A 0/1 1000/1, B 0/1 20/7
A 0 0 5/1 1000/1 10,-5,30,5 / B 100 0 0/1 1000/1 -5,-5,5,5 => A 5/1 1000/1, B 20/1 1000/1
A 0 0 0/1 1000/1 -10,-5,10,5 / B 0 0 0/1 1000/1 -10,-5,10,5 => A 0/1 1000/1, B 0/1 0/1
A 0 0 0/1 10/1 -10,-5,10,5 / B 0 0 20/1 30/1 -10,-5,10,5 / C 0 0 0/1 30/1 -10,-5,10,5 => A 0/1 10/1, B 20/1 30/1, C 10/1 20/1
A 0 0 10/1 20/1 -10,-5,10,5 / B 0 0 0/1 30/1 -10,-5,10,5 => A 10/1 20/1, B 0/1 10/1
A 0 0 10/1 21/1 -10,-5,10,5 / B 0 0 0/1 30/1 -10,-5,10,5 => A 10/1 21/1, B 0/1 10/1
A 20 0 0/1 62/3 14,-5,15,-3 / B 16 0 0/1 18/7 -2,0,0,1 / C 18 0 1/7 739/7 -73,-100,75,100 16,10,18,20 5,-20,10,20 / D 4 0 0/1 9/1 3,-4,4,4 => A 0/1 62/3, B 0/1 18/7, C 62/3 739/7, D 18/7 9/1
A -164 0 0/1 11/1 3,-20,10,20 -2,-4,0,4 / B -174 79 0/1 258/1 -1,-4,4,2 0,-4,4,4 / C 98 -200 0/1 141/7 -86,-100,14,100 => A 0/1 11/1, B 11/1 258/1, C 0/1 131/48
A -6 3 0/1 1/1 -20,-20,5,20 / B -7 0 0/1 1/3 27,-100,48,100 / C 0 0 0/1 173/2 10,-18,13,-7 / D -2 0 0/1 1/1 -3,-4,1,4 => A 0/1 1/1, B 1/22 1/3, C 1/3 173/2, D 5/26 1/2
A -21 0 131/7 301/1 -3,-2,1,0 -41,-100,91,100 -3,-1,3,3 / B -262 0 0/1 341/3 -13,-20,-6,20 11,-19,18,-12 -3,-20,20,20 / C -158 0 0/1 22/3 -13,-19,7,14 -95,-100,-51,100 => A 131/7 301/1, B 0/1 131/7, C 0/1 104/115
A 24 0 0/1 440/3 -2,2,0,4 39,-100,98,100 / B -23 -17 1/1 1789/1 -4,-4,0,4 -17,-20,-5,20 -9,-20,11,20 / C -17 -28 0/1 1/1 57,65,84,82 => A 0/1 440/3, B 440/3 1789/1, C 0/1 41/45
A -6 0 1/1 553/1 -19,-20,20,20 -2,-4,0,4 25,-100,44,100 / B -6 4 0/1 33/1 -18,-100,88,100 -1,-4,2,4 0,-4,1,4 / C -8 10 1/1 1840/3 -3,-4,2,4 2,-20,14,20 => A 1/1 553/1, B 0/1 1/1, C 553/1 1840/3
A -9 9 0/1 33/7 -4,-2,3,4 / B 10 10 1/7 399/1 -9,-20,-2,20 -4,-4,-3,4 / C 0 0 0/1 1/1 -60,-100,-50,100 2,-2,4,0 => A 0/1 33/7, B 33/7 399/1, C 9/46 1/1
A -26 0 13/3 71/2 -1,-4,0,4 / B -10 0 0/1 32/3 -12,-20,10,20 -64,-46,-47,45 2,-20,17,20 / C -12 0 0/1 578/1 -2,-4,0,4 => A 13/3 71/2, B 0/1 13/3, C 71/2 578/1
A -129 260 597/7 514/3 -2,-4,0,4 -20,-20,14,20 0,-1,3,1 / B 154 107 0/1 1837/1 -8,-20,12,20 / C 223 0 29/7 781/1 -4,-4,-1,4 => A 597/7 514/3, B 514/3 1837/1, C 29/7 597/7
A 12 0 370/7 1761/1 -4,-3,-1,4 0,-2,4,1 19,-100,61,100 / B -3 0 1/1 217/1 -1,-1,0,2 / C -13 0 0/1 14/1 3,-4,4,4 => A 370/7 1761/1, B 1/1 370/7, C 10/3 14/1";

    fn told(rt: &impl Abort, alloc: Global, input: &str) -> String {
        let table = rows_of(rt, alloc, input);
        let labels = read_table(alloc, table.as_bytes()).expect(rt, "a table");
        let found = gaps(alloc, labels.as_slice()).expect(rt, "memory");
        gaps_told(rt, alloc, labels.as_slice(), found.as_slice())
    }
}

#[test]
fn each_label_has_its_longest_free_gap(rt: HostRuntime) {
    hold::<LongestGaps>(&rt, rt.alloc())
}

/// The places of the labels that a view shows under their gaps, or `none`.
fn places_told(rt: &impl Abort, alloc: Global, labels: &[Label], view: &View) -> String {
    let found = gaps(alloc, labels).expect(rt, "memory");
    if found.len() != labels.len() || labels.len() > 9 {
        panic!(rt; "a gap for each of a few labels");
    }
    let places = shown_gaps(alloc, labels, found.as_slice(), view).expect(rt, "memory");
    numbers_told(rt, alloc, places.as_slice())
}

/// The words of a view and labels as lines of a table, and the places of the labels that the view
/// shows under their gaps.
struct GapViews;

impl Table for GapViews {
    const LINES: &'static str = "\
100 0 100 100 10/1 | A 0 0 0/1 1000/1 10,-5,30,5 / B 100 0 0/1 1000/1 -5,-5,5,5 => 0
100 0 100 100 20/1 | A 0 0 0/1 1000/1 10,-5,30,5 / B 100 0 0/1 1000/1 -5,-5,5,5 => 0 1
54 0 4096 2 665/1 | A 23 0 1/1 190/3 18,-20,19,20 / B 10 0 87/1 665/1 -4,-4,-3,4 -15,-20,4,20 -1,-4,2,4 / C -16 0 1/1 1462/1 -11,-20,20,20 / D 27 0 12/1 392/1 -12,-20,-2,20 => 2
-140 0 2 2 667/7 | A 19 0 26/1 667/7 -10,-20,10,20 -17,-20,-7,20 / B 20 28 0/1 1219/1 -13,-7,-2,9 -2,-4,0,4 / C -29 0 0/1 451/1 1,-2,2,3 -20,-18,4,-9 -13,-100,26,100 / D 25 0 0/1 28/3 -92,-100,85,100 -11,-20,2,20 => 1
-258 0 4096 4096 16/1 | A -20 0 16/1 258/1 -1,-3,16,9 -10,-20,17,20 / B 29 -1 22/1 323/1 -12,-3,20,15 => 0
132 0 2 100 383/2 | A -24 0 0/1 16/1 3,-20,20,20 / B -16 0 1/1 934/3 1,0,4,3 9,-20,20,20 -4,-2,-1,-1 / C -5 0 0/1 10/7 -3,-4,1,4 1,-20,5,8 => 1
-166 0 4096 4096 176/1 | A 75 0 376/3 176/1 -4,-4,4,4 -97,-85,-27,-6 3,-4,4,4 / B 221 134 335/7 261/1 -1,-2,4,4 => 1
1 0 100 100 7/1 | A 125 0 0/1 6/1 6,-20,17,20 -3,1,1,4 -55,-100,19,100 / B 155 -120 7/1 515/7 -22,-100,4,100 -4,-20,-2,20 -74,-82,9,-11 / C 21 200 1/7 22/1 -4,-3,-3,3 -14,-20,-13,20 => 1
-256 0 100 2 308/1 | A 13 -30 0/1 1314/1 -18,-19,-9,16 / B 25 -9 0/1 1/7 20,-100,38,100 -74,57,-29,95 => 0
179 0 2 2 147/1 | A -3 0 147/1 193/1 1,-4,2,4 -3,-4,0,2 -32,-100,67,100 / B -10 5 28/3 397/1 -4,-3,2,-1 / C 8 8 0/1 316/7 -46,-100,88,100 -2,-2,4,4 -2,-2,0,0 / D 5 0 1/1 629/1 -18,-19,5,-4 -4,-4,0,4 => 0";

    fn told(rt: &impl Abort, alloc: Global, input: &str) -> String {
        let (words, rows) = first(rt, input);
        let view = good_view(rt, alloc, words);
        let table = rows_of(rt, alloc, rows);
        let labels = read_table(alloc, table.as_bytes()).expect(rt, "a table");
        places_told(rt, alloc, labels.as_slice(), &view)
    }
}

#[test]
fn a_view_shows_labels_under_their_gaps(rt: HostRuntime) {
    hold::<GapViews>(&rt, rt.alloc())
}

/// A piece as it is printed.
fn piece_told(rt: &impl Abort, alloc: Global, piece: &Piece) -> String {
    let open = if piece.from_in { "[" } else { "(" };
    let range = range_told(rt, alloc, &piece.from, &piece.to);
    format!(in alloc; "{open}{range})").expect(rt, "memory")
}

/// Pieces as they are printed, or `none`.
fn pieces_told(rt: &impl Abort, alloc: Global, pieces: &[Piece]) -> String {
    if pieces.is_empty() {
        return "none".to_string(alloc).expect(rt, "memory");
    }
    let mut told = String::new(alloc);
    for piece in pieces {
        told.push_str(&piece_told(rt, alloc, piece))
            .expect(rt, "memory");
    }
    told
}

/// The gap that a text writes, as `FROM UNTIL`.
fn gap_of(rt: &impl Abort, alloc: Global, text: &str) -> Gap {
    let words = parts_of(alloc, text, ' ').expect(rt, "memory");
    let from = fraction_at(rt, &words, 0);
    let until = fraction_at(rt, &words, 1);
    Gap { from, until }
}

/// The pieces at which the second of two labels, with this gap, blocks the first.
fn blocked_told(rt: &impl Abort, alloc: Global, labels: &[Label], gap: &Gap) -> String {
    let low = labels.first().expect(rt, "a label");
    let high = labels.get(1).expect(rt, "two labels");
    let mut pieces = Seq::new(alloc);
    blocked(low, high, gap, &mut pieces).expect(rt, "memory");
    pieces_told(rt, alloc, pieces.as_slice())
}

/// The gap of the second label, and two labels as lines of a table; the pieces at which the second
/// blocks the first.
struct BlockedPieces;

impl Table for BlockedPieces {
    const LINES: &'static str = "\
0/1 1000/1 | B 100 0 0/1 1000/1 -5,-5,5,5 / A 0 0 0/1 1000/1 10,-5,30,5 => (20/7 20/1)
5/1 15/1 | B 100 0 0/1 1000/1 -5,-5,5,5 / A 0 0 0/1 1000/1 10,-5,30,5 => [5/1 15/1)
0/1 0/1 | B 100 0 0/1 1000/1 -5,-5,5,5 / A 0 0 0/1 1000/1 10,-5,30,5 => none
20/1 1000/1 | B 100 0 0/1 1000/1 -5,-5,5,5 / A 0 0 0/1 1000/1 10,-5,30,5 => none
20/7 3/1 | B 100 0 0/1 1000/1 -5,-5,5,5 / A 0 0 0/1 1000/1 10,-5,30,5 => (20/7 3/1)
0/1 1000/1 | A 0 0 0/1 1000/1 -10,-5,10,5 / B 0 0 0/1 1000/1 -10,-5,10,5 => (0/1 1000/1)
0/1 1000/1 | A 0 0 3/1 7/1 -10,-5,10,5 / B 0 0 0/1 1000/1 -10,-5,10,5 => [3/1 7/1)";

    fn told(rt: &impl Abort, alloc: Global, input: &str) -> String {
        let (gap, rows) = first(rt, input);
        let gap = gap_of(rt, alloc, gap);
        let table = rows_of(rt, alloc, rows);
        let labels = read_table(alloc, table.as_bytes()).expect(rt, "a table");
        blocked_told(rt, alloc, labels.as_slice(), &gap)
    }
}

#[test]
fn pieces_are_where_one_label_blocks_another(rt: HostRuntime) {
    hold::<BlockedPieces>(&rt, rt.alloc())
}
