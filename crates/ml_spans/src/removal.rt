//! An entry taken out of a tree.
ghost use Rattle.std.specs.Prelude.{◌≡◌, ℕ, ◌+◌, ◌≤◌, ◌^◌, ◌++◌, max, MatchOption};
ghost use Rattle.std.specs.Option.{IsSome};
ghost use Rattle.ml_spans.specs.Order.{entry_order, IsRising, IsNew};
ghost use Rattle.ml_ratio.specs.Lists.{IsAdded};
ghost use Rattle.ml_spans.specs.Sound.{entries, entries_of, entries_in, depth, depth_of, IsSound, IsSoundNode, AreNear};

use crate::balance::balanced;
use crate::change::shrunk;
use crate::entry::Entry;
use crate::key::Key;
use crate::node::{opened, place_of};
use crate::shape::{Node, Tree};
use std::cmp::Ordering;

// The first node of a tree, and the tree without it.
fn take_first<K: Key, E: Key, V: Key>(
    top: Box<Node<K, E, V>>,
) -> (Box<Node<K, E, V>>, Tree<K, E, V>)
    requires sound { IsSoundNode E.order top.value }
    requires low { depth_of top.value ≤ 2 ^ 8 }
    ensures held { IsSome result.0.value.content }
    ensures entries { entries_of top.value ≡ entries_in result.0.value.content ++ entries result.1 }
    ensures not_higher { depth result.1 ≤ depth_of top.value }
    ensures one_lower { depth_of top.value ≤ depth result.1 + 1 }
    ensures sound { IsSound E.order result.1 }
{
    let (top, left, right) = opened(top);
    match left {
        Tree::Leaf => (top, right),
        Tree::Fork(_, next) => {
            let (first, rest) = take_first(next);
            (first, balanced(top, rest, right))
        }
    }
}

// Two sides, one after the other.
fn joined<K: Key, E: Key, V: Key>(left: Tree<K, E, V>, right: Tree<K, E, V>) -> Tree<K, E, V>
    requires left { IsSound E.order left }
    requires right { IsSound E.order right }
    requires near { AreNear 1 (depth left) (depth right) }
    requires low { depth right ≤ 2 ^ 8 }
    ensures entries { entries result ≡ entries left ++ entries right }
    ensures not_lower { max (depth left) (depth right) ≤ depth result }
    ensures one_higher { depth result ≤ max (depth left) (depth right) + 1 }
    ensures sound { IsSound E.order result }
{
    match right {
        Tree::Leaf => left,
        Tree::Fork(_, top) => {
            let (first, rest) = take_first(top);
            balanced(first, left, rest)
        }
    }
}

// The tree without the entry, and the node that held it.
pub(crate) fn take<K: Key, E: Key, V: Key>(
    tree: Tree<K, E, V>,
    entry: &Entry<K, E, V>,
) -> (Tree<K, E, V>, Option<Box<Node<K, E, V>>>)
    requires sound { IsSound E.order tree }
    requires rising { IsRising (entry_order K.order E.order V.order) (entries tree) }
    requires low { depth tree ≤ 2 ^ 8 }
    ensures found { MatchOption result.1
        ((entries result.0 ≡ entries tree)
        × IsNew (entry_order K.order E.order V.order) entry.now (entries tree))
        (λ _. IsAdded entry.now (entries result.0) (entries tree)) }
    ensures not_higher { depth result.0 ≤ depth tree }
    ensures one_lower { depth tree ≤ depth result.0 + 1 }
    ensures sound { IsSound E.order result.0 }
{
    match tree {
        Tree::Leaf => (Tree::Leaf, None),
        Tree::Fork(_, top) => {
            let (top, left, right) = opened(top);
            match place_of(entry, &top) {
                Ordering::Less => {
                    let (left, gone) = take(left, entry);
                    (shrunk(top, left, right, &entry.end), gone)
                }
                Ordering::Greater => {
                    let (right, gone) = take(right, entry);
                    (shrunk(top, left, right, &entry.end), gone)
                }
                Ordering::Equal => (joined(left, right), Some(top)),
            }
        }
    }
}
