//! Labels that are searched for about another one.
use crate::cases::{Table, first, fraction, hold, label_of};
use ml_cone::{Label, Slot, Span};
use ml_grid::Grid;
use ml_ratio::Ratio;
use ml_store::{Row, Store};
use std::alloc::Global;
use std::process::Abort;

/// A store of one label, which is active up to its maximum.
fn store_of(rt: &impl Abort, alloc: Global, label: Label) -> Store {
    let mut store = Store::new(alloc).expect(rt, "memory");
    let until = label.max();
    let min = label.min();
    let cells = Grid::entries(&label, &Span { min, until });
    store.reserve(1, cells, 0).expect(rt, "memory");
    let slot = Slot {
        until,
        blocker: None,
    };
    let row = Row {
        number: 0,
        label,
        slot,
    };
    store.put(0, Box::new(alloc, row).expect(rt, "memory"));
    store
}

/// Whether a search about a label in band 3 finds one that lasts up to the scale, and whether there are
/// none in the bands 0 to 3.
fn search_told(
    rt: &impl Abort,
    alloc: Global,
    store: &Store,
    label: &Label,
    scale: &Ratio,
) -> String {
    let found = store
        .overlapping(alloc, label, 3, scale)
        .expect(rt, "memory");
    let some = found.len() > 0;
    let clear = store.is_clear(label, 0, 3, scale);
    format!(in alloc; "found {some} clear {clear}").expect(rt, "memory")
}

/// A label, another one that it is searched for about, and a scale up to which it has to last. In band 3 a
/// pixel is 16 units at most: labels of 20 by 10 pixels overlap there up to 320 units from one another, and
/// are searched for in cells of 1,024 units. Wider ones want cells of a later band, which tell of four bands at
/// once only if no range ends before that band.
struct Searches;

impl Table for Searches {
    const LINES: &'static str = "\
A 0 0 0 1000 -10,-5,10,5 | B 0 0 0 1000 -10,-5,10,5 | 0 => found true clear false
A 0 0 0 1000 -10,-5,10,5 | B 319 0 0 1000 -10,-5,10,5 | 1000 => found true clear false
A 0 0 0 1000 -10,-5,10,5 | B 319 0 0 1000 -10,-5,10,5 | 1001 => found false clear true
A 0 0 0 1000 -10,-5,10,5 | B 5000 0 0 1000 -10,-5,10,5 | 0 => found false clear true
A 0 0 0 1000 -10,-5,10,5 | B 0 -5000 0 1000 -10,-5,10,5 | 0 => found false clear true
A 0 0 0 1000 -100,-5,100,5 | B 0 0 0 1000 -10,-5,10,5 | 0 => found true clear false
A 0 0 0 1000 -100,-5,100,5 | B 500000 0 0 1000 -10,-5,10,5 | 0 => found false clear true
A 0 0 0 1 -100,-5,100,5 | B 500000 0 0 1000 -10,-5,10,5 | 0 => found false clear false";

    fn told(rt: &impl Abort, alloc: Global, input: &str) -> String {
        let (one, rest) = first(rt, input);
        let (other, scale) = first(rt, rest);
        let store = store_of(rt, alloc, label_of(rt, alloc, one));
        let label = label_of(rt, alloc, other);
        search_told(rt, alloc, &store, &label, &fraction(rt, scale))
    }
}

#[test]
fn only_labels_that_are_near_and_last_are_found(rt: HostRuntime) {
    hold::<Searches>(&rt, rt.alloc())
}
