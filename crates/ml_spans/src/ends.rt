//! The greatest end of a node and of all below it.
ghost use Rattle.std.specs.Prelude.{◌≡◌, ◌++◌, ◌⊎◌, MatchBool};
ghost use Rattle.std.specs.Option.{IsSome};
ghost use Rattle.ml_spans.specs.Order.{IsUpTo};
ghost use Rattle.ml_spans.specs.Sound.{entries, entries_in, IsSound, HoldsGreatest, HoldsGreatestBut, HoldsEnd, HoldsOther, IsGreatestWith};

use crate::key::Key;
use crate::shape::{Content, Tree};
use std::cmp::Ordering;

// The greater of the two.
fn greater_of<E: Key>(a: E, b: E) -> E
    ensures first { IsUpTo E.order a result }
    ensures second { IsUpTo E.order b result }
    ensures own { (a ≡ result) ⊎ (b ≡ result) }
{
    match a.compare(&b) {
        Ordering::Less => b,
        _ => a,
    }
}

// The greater of an end and of all ends in a tree.
fn greatest_with<K: Key, E: Key, V: Key>(end: E, tree: &Tree<K, E, V>) -> E
    requires { IsSound E.order tree.now }
    ensures { IsGreatestWith E.order end (entries tree.now) result }
{
    match tree {
        Tree::Leaf => end,
        Tree::Fork(_, node) => match &node.content {
            Some(content) => greater_of(end, content.greatest),
            None => unreachable!(),
        },
    }
}

// Keeps in a node that will stand over two sides the greatest end of all three.
pub(crate) fn keep_greatest<K: Key, E: Key, V: Key>(
    content: &mut Option<Content<K, E, V>>,
    left: &Tree<K, E, V>,
    right: &Tree<K, E, V>,
)
    requires held { IsSome content.old }
    requires left { IsSound E.order left.now }
    requires right { IsSound E.order right.now }
    ensures entry { entries_in content.new ≡ entries_in content.old }
    ensures greatest { HoldsGreatest E.order
        (entries left.now ++ (entries_in content.old ++ entries right.now)) content.new }
{
    match content {
        Some(content) => content.greatest = greatest_with(
            greatest_with(content.entry.end, left),
            right,
        ),
        None => unreachable!(),
    }
}

// Keeps in a node over two sides, which have one entry more, the greater of its greatest end and that entry's.
pub(crate) fn raise<K: Key, E: Key, V: Key>(
    content: &mut Option<Content<K, E, V>>,
    end: &E,
    left: &Tree<K, E, V>,
    right: &Tree<K, E, V>,
)
    requires held { IsSome content.old }
    requires greatest { HoldsGreatestBut E.order end.now
        (entries left.now ++ (entries_in content.old ++ entries right.now)) content.old }
    ensures entry { entries_in content.new ≡ entries_in content.old }
    ensures greatest { HoldsGreatest E.order
        (entries left.now ++ (entries_in content.old ++ entries right.now)) content.new }
{
    match content {
        Some(content) => match content.greatest.compare(end) {
            Ordering::Less => content.greatest = *end,
            _ => {}
        },
        None => unreachable!(),
    }
}

// Whether an end is the greatest one that a node holds.
pub(crate) fn is_greatest<K: Key, E: Key, V: Key>(
    content: &Option<Content<K, E, V>>,
    end: &E,
) -> bool
    requires { IsSome content.now }
    ensures { MatchBool result (HoldsEnd end.now content.now) (HoldsOther end.now content.now) }
{
    match content {
        Some(content) => match content.greatest.compare(end) {
            Ordering::Equal => true,
            _ => false,
        },
        None => unreachable!(),
    }
}
