//! A node alone, over two sides, and with the sides that it had.
ghost use Rattle.std.specs.Prelude.{◌≡◌, ◌+◌, ◌≤◌, ◌^◌, ◌∷◌, [], max, ◌++◌};
ghost use Rattle.std.specs.Option.{IsSome};
ghost use Rattle.std.specs.List.{AllByRecursion};
ghost use Rattle.ml_spans.specs.Order.{entry_order};
ghost use Rattle.ml_spans.specs.Sound.{entries, entries_in, depth, IsSound, IsSoundNode, AreNear, HoldsGreatest, IsOpened};

use crate::ends::keep_greatest;
use crate::entry::{Entry, compare_entries};
use crate::key::Key;
use crate::shape::{Content, Node, Tree};
use std::cmp::Ordering;
use std::mem;

// How many nodes the longest path down has.
pub(crate) fn height_of<K: Key, E: Key, V: Key>(tree: &Tree<K, E, V>) -> u32
    requires { IsSound E.order tree.now }
    ensures { result ≡ depth tree.now }
{
    match tree {
        Tree::Leaf => 0,
        Tree::Fork(height, _) => *height,
    }
}

// A tree of one node, which holds the entry.
pub(crate) fn single<K: Key, E: Key, V: Key>(
    mut node: Box<Node<K, E, V>>,
    entry: Entry<K, E, V>,
) -> Tree<K, E, V>
    ensures entries { entries result ≡ entry ∷ [] }
    ensures depth { depth result ≡ 1 }
    ensures sound { IsSound E.order result }
{
    node.content = Some(Content {
        entry,
        greatest: entry.end,
    });
    node.left = Tree::Leaf;
    node.right = Tree::Leaf;
    Tree::Fork(1, node)
}

// The node over its two sides, with the greatest end that it holds.
pub(crate) fn kept<K: Key, E: Key, V: Key>(
    mut node: Box<Node<K, E, V>>,
    left: Tree<K, E, V>,
    right: Tree<K, E, V>,
) -> Tree<K, E, V>
    requires left { IsSound E.order left }
    requires right { IsSound E.order right }
    requires near { AreNear 1 (depth left) (depth right) }
    requires low { depth left ≤ 2 ^ 16 }
    requires greatest { HoldsGreatest E.order
        (entries left ++ (entries_in node.value.content ++ entries right)) node.value.content }
    ensures entries { entries result
        ≡ entries left ++ (entries_in node.value.content ++ entries right) }
    ensures depth { depth result ≡ max (depth left) (depth right) + 1 }
    ensures sound { IsSound E.order result }
{
    let height = height_of(&left).max(height_of(&right)) + 1;
    node.left = left;
    node.right = right;
    Tree::Fork(height, node)
}

// The node over its two sides, with its greatest end set right.
pub(crate) fn settled<K: Key, E: Key, V: Key>(
    mut node: Box<Node<K, E, V>>,
    left: Tree<K, E, V>,
    right: Tree<K, E, V>,
) -> Tree<K, E, V>
    requires held { IsSome node.value.content }
    requires left { IsSound E.order left }
    requires right { IsSound E.order right }
    requires near { AreNear 1 (depth left) (depth right) }
    requires low { depth left ≤ 2 ^ 16 }
    ensures entries { entries result
        ≡ entries left ++ (entries_in node.value.content ++ entries right) }
    ensures depth { depth result ≡ max (depth left) (depth right) + 1 }
    ensures sound { IsSound E.order result }
{
    keep_greatest(&mut node.content, &left, &right);
    kept(node, left, right)
}

// A node and the two sides that it had.
pub(crate) fn opened<K: Key, E: Key, V: Key>(
    mut node: Box<Node<K, E, V>>,
) -> (Box<Node<K, E, V>>, Tree<K, E, V>, Tree<K, E, V>)
    requires { IsSoundNode E.order node.value }
    ensures sides { IsOpened E.order node.value result.0.value result.1 result.2 }
    ensures content { result.0.value.content ≡ node.value.content }
{
    let left = mem::replace(&mut node.left, Tree::Leaf);
    let right = mem::replace(&mut node.right, Tree::Leaf);
    (node, left, right)
}

// Where an entry stands to the one that a node holds.
pub(crate) fn place_of<K: Key, E: Key, V: Key>(
    entry: &Entry<K, E, V>,
    node: &Node<K, E, V>,
) -> Ordering
    requires { IsSome node.now.content }
    ensures { AllByRecursion (λ other. entry_order K.order E.order V.order entry.now other ≡ result)
        (entries_in node.now.content) }
{
    match &node.content {
        Some(content) => compare_entries(entry, &content.entry),
        None => unreachable!(),
    }
}
