//! A node over its two sides, after one of them gained or lost an entry.
//!
//! Mostly no turn is due. Then the greatest end is found without a look at the nodes of both sides,
//! and a gain moves none of them.
ghost use Rattle.std.specs.Prelude.{◌≡◌, ◌+◌, ◌≤◌, ◌^◌, max, ◌++◌, ◌↔◌, IsTrue};
ghost use Rattle.std.specs.Option.{IsSome};
ghost use Rattle.ml_spans.specs.Sound.{entries, entries_in, depth, IsSound, AreNear, HoldsGreatestUnless, IsDepthOver, IsTurnable, IsGrown, IsDepthOfSides};

use crate::balance::balanced;
use crate::ends::{is_greatest, raise};
use crate::key::Key;
use crate::node::{height_of, kept};
use crate::shape::{Node, Tree};
use std::mem;

// Whether the heights differ by one at most.
fn are_near<K: Key, E: Key, V: Key>(left: &Tree<K, E, V>, right: &Tree<K, E, V>) -> bool
    requires left { IsSound E.order left.now }
    requires right { IsSound E.order right.now }
    requires low_left { depth left.now ≤ 2 ^ 16 }
    requires low_right { depth right.now ≤ 2 ^ 16 }
    ensures { IsTrue result ↔ AreNear 1 (depth left.now) (depth right.now) }
{
    let (left_height, right_height) = (height_of(left), height_of(right));
    left_height <= right_height + 1 && right_height <= left_height + 1
}

// Keeps at a node how high it is over its two sides, and writes only another height than it had.
fn keep_height<K: Key, E: Key, V: Key>(
    height: &mut u32,
    left: &Tree<K, E, V>,
    right: &Tree<K, E, V>,
)
    requires left { IsSound E.order left.now }
    requires right { IsSound E.order right.now }
    requires low_left { depth left.now ≤ 2 ^ 16 }
    requires low_right { depth right.now ≤ 2 ^ 16 }
    ensures { height.new ≡ max (depth left.now) (depth right.now) + 1 }
{
    let now = height_of(left).max(height_of(right)) + 1;
    if now != *height {
        *height = now;
    }
}

// Balances the tree anew, one side of which is two levels higher.
fn turn<K: Key, E: Key, V: Key>(tree: &mut Tree<K, E, V>)
    requires { IsTurnable E.order tree.old }
    ensures entries { entries tree.new ≡ entries tree.old }
    ensures depth { IsDepthOfSides tree.old (depth tree.new) }
    ensures sound { IsSound E.order tree.new }
{
    let Tree::Fork(_, mut top) = mem::replace(tree, Tree::Leaf) else {
        unreachable!()
    };
    let left = mem::replace(&mut top.left, Tree::Leaf);
    let right = mem::replace(&mut top.right, Tree::Leaf);
    *tree = balanced(top, left, right);
}

// Sets right the top of a tree, one side of which gained an entry of this end. Where no turn is due,
// it writes only what changes.
pub(crate) fn grow<K: Key, E: Key, V: Key>(tree: &mut Tree<K, E, V>, end: &E)
    requires { IsGrown E.order end.now tree.old }
    ensures entries { entries tree.new ≡ entries tree.old }
    ensures depth { IsDepthOfSides tree.old (depth tree.new) }
    ensures sound { IsSound E.order tree.new }
{
    match tree {
        Tree::Leaf => unreachable!(),
        Tree::Fork(height, top) => {
            let node = top.as_mut();
            if are_near(&node.left, &node.right) {
                raise(&mut node.content, end, &node.left, &node.right);
                keep_height(height, &node.left, &node.right);
            } else {
                turn(tree);
            }
        }
    }
}

// The node over its two sides, of which one lost an entry of this end, or none did.
pub(crate) fn shrunk<K: Key, E: Key, V: Key>(
    node: Box<Node<K, E, V>>,
    left: Tree<K, E, V>,
    right: Tree<K, E, V>,
    end: &E,
) -> Tree<K, E, V>
    requires held { IsSome node.value.content }
    requires left { IsSound E.order left }
    requires right { IsSound E.order right }
    requires near { AreNear 2 (depth left) (depth right) }
    requires low { depth left ≤ 2 ^ 10 }
    requires greatest { HoldsGreatestUnless E.order end.now
        (entries left ++ (entries_in node.value.content ++ entries right)) node.value.content }
    ensures entries { entries result
        ≡ entries left ++ (entries_in node.value.content ++ entries right) }
    ensures depth { IsDepthOver (depth left) (depth right) (depth result) }
    ensures sound { IsSound E.order result }
{
    if are_near(&left, &right) && !is_greatest(&node.content, end) {
        kept(node, left, right)
    } else {
        balanced(node, left, right)
    }
}
