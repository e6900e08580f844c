//! The index over small numbers, as many keys as memory counts in, and fractions as ends.
ghost use Rattle.std.specs.Prelude.{◌≡◌};

use ml_ratio::{Ratio, Seq};
use ml_spans::sorting::in_order;
use ml_spans::{Entry, Key, SpanTree};
use std::alloc::Global;
use std::process::Abort;

/// Puts an entry in, whether it is there or not, if there is room.
fn put<K: Key, E: Key, V: Key>(tree: &mut SpanTree<K, E, V>, key: K, end: E, value: V) -> bool {
    let _was = tree.remove(&key, &end, &value);
    if tree.spare() == 0 {
        return false;
    }
    tree.insert(key, end, value);
    true
}

/// An index of three entries, and room for as many.
fn three(rt: &impl Abort, alloc: Global) -> SpanTree<u8, u32, u64> {
    let mut tree = SpanTree::new(alloc);
    tree.reserve(3).expect(rt, "memory");
    if tree.height() != 0 || tree.spare() != 3 {
        panic!(rt; "an empty index with room for three");
    }
    let both = put(&mut tree, 1, 5, 10) && put(&mut tree, 2, 9, 11);
    if !both || !put(&mut tree, 3, 4, 12) {
        panic!(rt; "three entries");
    }
    tree
}

/// The values of the keys 1 to 3 whose span has 5, and then those of the keys 2 and 3.
fn values(rt: &impl Abort, alloc: Global, tree: &SpanTree<u8, u32, u64>) -> Seq<u64> {
    let mut found = Seq::new(alloc);
    tree.stab(&1, &3, &5, &mut found).expect(rt, "memory");
    tree.range(&2, &3, &mut found).expect(rt, "memory");
    found
}

#[test]
fn three_entries_are_found(rt: HostRuntime) {
    let tree = three(&rt, rt.alloc());
    assert!(rt; tree.len() == 3 && tree.height() == 2 && tree.spare() == 0);
    let found = values(&rt, rt.alloc(), &tree);
    assert!(rt; found.as_slice() == [10, 11, 11, 12].as_slice());
}

#[test]
fn an_entry_is_removed_once(rt: HostRuntime) {
    let mut tree = three(&rt, rt.alloc());
    assert!(rt; tree.remove(&2, &9, &11));
    assert!(rt; tree.spare() == 1);
    assert!(rt; !tree.remove(&2, &9, &11));
    assert!(rt; tree.len() == 2 && tree.spare() == 1);
}

#[test]
fn a_test_tells_whether_a_search_finds(rt: HostRuntime) {
    let tree = three(&rt, rt.alloc());
    assert!(rt; tree.is_stabbed(&1, &3, &9) && !tree.is_stabbed(&1, &3, &10));
    assert!(rt; tree.is_stabbed(&3, &3, &4) && !tree.is_stabbed(&3, &3, &5));
    assert!(rt; !tree.is_stabbed(&4, &9, &0) && !tree.is_stabbed(&3, &1, &0));
}

/// The index of the keys from 1 to `count` in this order, each with the end 0 and the value 0.
fn rising(rt: &impl Abort, alloc: Global, count: u32) -> SpanTree<u32, u8, u8> {
    let mut tree = SpanTree::new(alloc);
    tree.reserve(count as usize).expect(rt, "memory");
    for key in 0..count {
        if !put(&mut tree, key + 1, 0, 0) {
            panic!(rt; "as many entries");
        }
    }
    tree
}

/// How many of the keys from 1 to `count` have a span with 1, and how many there are.
fn found(
    rt: &impl Abort,
    alloc: Global,
    tree: &SpanTree<u32, u8, u8>,
    count: u32,
) -> (usize, usize) {
    let mut found = Seq::new(alloc);
    tree.stab(&1, &count, &1, &mut found).expect(rt, "memory");
    let long = found.len();
    tree.range(&1, &count, &mut found).expect(rt, "memory");
    (long, found.len())
}

/// Whether an index of rising keys is of this height at most, and all of its keys are found.
fn is_found(rt: &impl Abort, alloc: Global, count: u32, greatest_height: u32) -> bool {
    let tree = rising(rt, alloc, count);
    let (len, height) = (tree.len(), tree.height());
    let is_low = len == count as usize && height <= greatest_height;
    is_low && found(rt, alloc, &tree, count) == (0, len)
}

// 1001 has ten binary digits, 1,000,001 has twenty. The larger index also goes out of use here, with
// all its nodes at once.
#[test]
fn keys_that_rise_are_found(rt: HostRuntime) {
    assert!(rt; is_found(&rt, rt.alloc(), 1000, 20));
    assert!(rt; is_found(&rt, rt.alloc(), 1_000_000, 40));
}

/// The values of the key -1 whose span has 1/2, and then of those whose span has 20.
fn values_of_fractions(rt: &impl Abort, alloc: Global) -> Seq<u32> {
    let twenty = Ratio::of(20, 1).expect(rt, "20/1");
    let half = Ratio::of(1, 2).expect(rt, "1/2");
    let mut tree: SpanTree<i64, Ratio, u32> = SpanTree::new(alloc);
    tree.reserve(2).expect(rt, "memory");
    if !put(&mut tree, -1, half, 7) || !put(&mut tree, -1, twenty, 3) {
        panic!(rt; "two entries");
    }
    let mut found = Seq::new(alloc);
    tree.stab(&-1, &-1, &half, &mut found).expect(rt, "memory");
    tree.stab(&-1, &-1, &twenty, &mut found)
        .expect(rt, "memory");
    found
}

#[test]
fn ends_may_be_fractions(rt: HostRuntime) {
    let found = values_of_fractions(&rt, rt.alloc());
    assert!(rt; found.as_slice() == [3, 7, 3].as_slice());
}

/// An entry of these tests.
fn entry(key: u8) -> Entry<u8, u32, u64>
    ensures { result ≡ record { key = key; end = 7; value = 10 } }
{
    Entry {
        key,
        end: 7,
        value: 10,
    }
}

/// An index made at once of three entries.
fn at_once(rt: &impl Abort, alloc: Global) -> SpanTree<u8, u32, u64> {
    let sorted = [entry(1), entry(4), entry(5)];
    SpanTree::of_sorted(alloc, &sorted).expect(rt, "memory")
}

/// How many spans of the keys 1 to 5 have this end.
fn count_at(rt: &impl Abort, alloc: Global, tree: &SpanTree<u8, u32, u64>, at: u32) -> usize {
    let mut found = Seq::new(alloc);
    tree.stab(&1, &5, &at, &mut found).expect(rt, "memory");
    found.len()
}

#[test]
fn an_index_is_made_at_once(rt: HostRuntime) {
    let tree = at_once(&rt, rt.alloc());
    assert!(rt; tree.len() == 3 && tree.height() == 2 && tree.spare() == 0);
    assert!(rt;
        count_at(&rt, rt.alloc(), &tree, 7) == 3 && count_at(&rt, rt.alloc(), &tree, 8) == 0
    );
}

/// The key at a place of a list of entries.
fn key_at(rt: &impl Abort, entries: &[Entry<u8, u32, u64>], place: usize) -> u8 {
    entries.get(place).expect(rt, "an entry").key
}

#[test]
fn entries_are_put_in_order(rt: HostRuntime) {
    let entries = vec![in rt.alloc(); entry(3), entry(1), entry(2)].expect(&rt, "memory");
    let sorted = in_order(entries);
    for place in 0..3 {
        assert!(rt; key_at(&rt, sorted.as_slice(), place) == place as u8 + 1);
    }
}
