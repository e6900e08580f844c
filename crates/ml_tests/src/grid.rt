//! Bands of scales, hulls of labels, and labels found by their cells.
ghost use Rattle.std.specs.Prelude.{◌≡◌, ◌<◌};

use crate::cases::{
    OfLabel, Table, count, first, fraction, good_label, good_view, hold, told_of_label,
};
use ml_cone::{Label, Span, View, hull};
use ml_grid::Grid;
use ml_grid::laws::added_are_its;
use ml_ratio::{Seq, Steps};
use std::alloc::Global;
use std::marker::Brand;
use std::process::Abort;
use std::sync::ledger::{Blank, Ledger};

/// A fraction and its band.
struct Bands;

impl Table for Bands {
    const LINES: &'static str = "\
0 => 0
1/65536 => 0
131071/65536 => 0
2 => 1
65535/16384 => 1
4 => 2
268435455 => 27
268435456 => 28
4294967296 => 32";

    fn told(rt: &impl Abort, alloc: Global, input: &str) -> String {
        fraction(rt, input)
            .band()
            .to_string(alloc)
            .expect(rt, "memory")
    }
}

#[test]
fn fractions_have_bands(rt: HostRuntime) {
    hold::<Bands>(&rt, rt.alloc())
}

/// The first and the last cell of the hull of a label in a band.
fn hull_told(rt: &impl Abort, alloc: Global, label: &Label, band: u8) -> String {
    if band > 27 {
        panic!(rt; "a band of scales");
    }
    let cells = hull(label, band);
    let (x0, y0, x1, y1) = (cells.x0, cells.y0, cells.x1, cells.y1);
    format!(in alloc; "{x0} {y0} {x1} {y1}").expect(rt, "memory")
}

/// A label and a band, and the first and the last cell of its hull there.
struct Hulls;

impl Table for Hulls {
    const LINES: &'static str = "\
0 -1 0 1000 0 1 -10,-5,10,5 | 0 => -1 -1 0 0
0 -1 0 1000 0 1 -10,-5,10,5 | 27 => -1 -1 0 0
20 10 0 1000 0 1 -10,-5,10,5 | 0 => 0 0 0 0
20 10 0 1000 1 1 -10,-5,10,5 | 0 => -1 -1 0 0
1000 0 0 1000 0 1 500,-5,512,5 | 1 => 0 -1 1 0
1023 -1024 0 1000 0 2 1,1,2,2 -3,-2,-1,-1 | 0 => 0 -2 1 -1
2000000000 -2000000000 0 1000 64 1 -512,-512,512,512 | 0 => 1953123 -1953127 1953126 -1953124
-2000000000 2000000000 0 1000 64 1 -512,-512,512,512 | 10 => -1909 1906 -1907 1908
2000000000 -2000000000 0 1000 64 1 -512,-512,512,512 | 27 => -2 -2 1 1";

    fn told(rt: &impl Abort, alloc: Global, input: &str) -> String {
        told_of_label::<Hulls>(rt, alloc, input)
    }
}

impl OfLabel for Hulls {
    fn told_of(rt: &impl Abort, alloc: Global, label: &Label, band: &str) -> String {
        let band = u8::try_from(count(rt, &[band], 0))
            .ok()
            .expect(rt, "a band");
        hull_told(rt, alloc, label, band)
    }
}

#[test]
fn labels_have_hulls(rt: HostRuntime) {
    hold::<Hulls>(&rt, rt.alloc())
}

/// Appends what a search in the window of a view finds.
fn look<L: Ledger>(rt: &impl Abort, grid: &Grid, view: &View, numbers: &mut Seq<u32>, blank: Blank)
    requires name { blank.name ≡ L.name }
    requires parts { blank.parts ≡ L.parts }
    requires some { 0 < blank.parts }
{
    let mut looks: Steps<L> = Steps::new(blank);
    grid.in_window(view, numbers, &mut looks)
        .expect(rt, "memory")
}

/// Whether the numbers are those of a search that finds one label.
fn found(numbers: &[u32]) -> &'static str {
    if numbers == [7].as_slice() {
        "found"
    } else {
        "none"
    }
}

/// What a search in the window of a view tells of a grid with one label, and what is left of the grid.
fn window_told(rt: &impl Abort, alloc: Global, label: &Label, span: &Span, view: &View) -> String
    requires { span.now.min ≡ label.now.min }
{
    let mut grid = Grid::new(alloc);
    let room = Grid::entries(label, span);
    grid.reserve(room).expect(rt, "memory");
    grid.add(7, label, span);
    added_are_its();
    let mut numbers = Seq::new(alloc);
    look::<Brand>(rt, &grid, view, &mut numbers, Blank::new(1));
    grid.drop_label(7, label, span);
    let (found, left) = (found(numbers.as_slice()), grid.len());
    format!(in alloc; "{room} {found} {left}").expect(rt, "memory")
}

/// A label, the end of its span and a view, and how many entries the label has, whether a search in
/// the window finds it, and how many entries are left when it goes.
struct Windows;

impl Table for Windows {
    const LINES: &'static str = "\
1000 0 0 1000 0 1 500,-5,512,5 | 1000 | 2520 0 2 2 3 => 40 found 0
1000 0 0 1000 0 1 500,-5,512,5 | 3 | 2520 0 2 2 3 => 40 found 0
1000 0 0 1000 0 1 500,-5,512,5 | 5/2 | 2520 0 2 2 3 => 40 none 0
20 10 0 1 0 1 -10,-5,10,5 | 1 | 0 512 2 2 1 => 1 found 0
20 10 0 3/2 0 1 -10,-5,10,5 | 1 | -1 512 2 2 1 => 1 none 0
20 10 0 2 0 1 -10,-5,10,5 | 1 | 1024 512 2 2 1 => 5 found 0
20 10 0 2 0 1 -10,-5,10,5 | 1 | 1025 512 2 2 1 => 5 none 0
0 0 0 1023 0 1 -10,-5,10,5 | 1023 | 0 0 2 2 1023 => 40 found 0
0 0 0 1024 0 1 -10,-5,10,5 | 1024 | 0 0 2 2 1024 => 44 found 0
0 0 4 8 0 1 -10,-5,10,5 | 8 | 0 0 2 2 2 => 8 none 0
0 0 3 8 0 1 -10,-5,10,5 | 8 | 0 0 2 2 2 => 12 found 0
512 512 0 268435456 64 1 -512,-512,512,512 | 268435456 | 2000000000 -2000000000 4096 4096 268435455 => 427 found 0";

    fn told(rt: &impl Abort, alloc: Global, input: &str) -> String {
        told_of_label::<Windows>(rt, alloc, input)
    }
}

impl OfLabel for Windows {
    fn told_of(rt: &impl Abort, alloc: Global, label: &Label, rest: &str) -> String {
        let (until, view) = first(rt, rest);
        let until = fraction(rt, until);
        let min = label.min();
        window_told(
            rt,
            alloc,
            label,
            &Span { min, until },
            &good_view(rt, alloc, view),
        )
    }
}

#[test]
fn a_label_is_found_by_windows(rt: HostRuntime) {
    hold::<Windows>(&rt, rt.alloc())
}

/// A grid with one label, whose number is 7, until its maximum.
fn grid_with(rt: &impl Abort, alloc: Global, label: &Label) -> Grid {
    let (min, until) = (label.min(), label.max());
    let span = Span { min, until };
    let mut grid = Grid::new(alloc);
    grid.reserve(Grid::entries(label, &span))
        .expect(rt, "memory");
    grid.add(7, label, &span);
    grid
}

/// Whether a search in band 1 finds the label of a grid, and whether one does in the same cells for labels
/// that last until a scale.
fn near_told(rt: &impl Abort, alloc: Global, grid: &Grid, other: &Label, scale: &str) -> String {
    let mut numbers = Seq::new(alloc);
    grid.near(other, 1, &mut numbers).expect(rt, "memory");
    let lasting = grid
        .in_cells(alloc, &hull(other, 1), &fraction(rt, scale))
        .expect(rt, "memory");
    let near = numbers.as_slice() == [7].as_slice();
    let has = grid.has_in_cells(&hull(other, 1), &fraction(rt, scale));
    let found = lasting.as_slice().contains(&7);
    format!(in alloc; "{near} {found} {has}").expect(rt, "memory")
}

/// Labels that are near a label at (1000, 0), which ends at 1000, in band 1, and those that are not, with
/// a scale.
struct Near;

impl Table for Near {
    const LINES: &'static str = "\
2100 0 0 1000 0 1 -10,-5,10,5 | 1000 => true true true
2100 0 0 1000 0 1 -10,-5,10,5 | 1001 => true false false
4200 0 0 1000 0 1 -10,-5,10,5 | 1000 => false false false";

    fn told(rt: &impl Abort, alloc: Global, input: &str) -> String {
        told_of_label::<Near>(rt, alloc, input)
    }
}

impl OfLabel for Near {
    fn told_of(rt: &impl Abort, alloc: Global, other: &Label, scale: &str) -> String {
        let label = good_label(rt, alloc, "1000 0 0 1000 0 1 500,-5,512,5");
        let grid = grid_with(rt, alloc, &label);
        near_told(rt, alloc, &grid, other, scale)
    }
}

#[test]
fn labels_are_near_by_their_cells(rt: HostRuntime) {
    hold::<Near>(&rt, rt.alloc())
}
