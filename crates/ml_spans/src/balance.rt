//! A node over two sides whose heights differ by at most two.
ghost use Rattle.std.specs.Prelude.{◌≡◌, ◌+◌, ◌≤◌, ◌^◌, ◌++◌};
ghost use Rattle.std.specs.Option.{IsSome};
ghost use Rattle.ml_spans.specs.Sound.{entries, entries_in, depth, IsSound, AreNear, IsDepthOver};

use crate::key::Key;
use crate::node::{height_of, opened, settled};
use crate::shape::{Node, Tree};

// The node over its two sides, turned where one side is two levels higher.
pub(crate) fn balanced<K: Key, E: Key, V: Key>(
    node: Box<Node<K, E, V>>,
    left: Tree<K, E, V>,
    right: Tree<K, E, V>,
) -> Tree<K, E, V>
    requires held { IsSome node.value.content }
    requires left { IsSound E.order left }
    requires right { IsSound E.order right }
    requires near { AreNear 2 (depth left) (depth right) }
    requires low { depth left ≤ 2 ^ 10 }
    ensures entries { entries result
        ≡ entries left ++ (entries_in node.value.content ++ entries right) }
    ensures depth { IsDepthOver (depth left) (depth right) (depth result) }
    ensures sound { IsSound E.order result }
{
    let left_height = height_of(&left);
    let right_height = height_of(&right);
    if left_height > right_height + 1 {
        turned_right(node, left, right)
    } else if right_height > left_height + 1 {
        turned_left(node, left, right)
    } else {
        settled(node, left, right)
    }
}

// The node over its two sides, of which the left one is two levels higher.
fn turned_right<K: Key, E: Key, V: Key>(
    node: Box<Node<K, E, V>>,
    left: Tree<K, E, V>,
    right: Tree<K, E, V>,
) -> Tree<K, E, V>
    requires held { IsSome node.value.content }
    requires left { IsSound E.order left }
    requires right { IsSound E.order right }
    requires two_higher { depth left ≡ depth right + 2 }
    requires low { depth left ≤ 2 ^ 10 }
    ensures entries { entries result
        ≡ entries left ++ (entries_in node.value.content ++ entries right) }
    ensures depth { IsDepthOver (depth left) (depth right) (depth result) }
    ensures sound { IsSound E.order result }
{
    let Tree::Fork(_, top) = left else {
        unreachable!()
    };
    let (top, outer, inner) = opened(top);
    if height_of(&outer) >= height_of(&inner) {
        let lowered = settled(node, inner, right);
        return settled(top, outer, lowered);
    }
    let Tree::Fork(_, middle) = inner else {
        unreachable!()
    };
    let (middle, before, after) = opened(middle);
    let first = settled(top, outer, before);
    let second = settled(node, after, right);
    settled(middle, first, second)
}

// The node over its two sides, of which the right one is two levels higher.
fn turned_left<K: Key, E: Key, V: Key>(
    node: Box<Node<K, E, V>>,
    left: Tree<K, E, V>,
    right: Tree<K, E, V>,
) -> Tree<K, E, V>
    requires held { IsSome node.value.content }
    requires left { IsSound E.order left }
    requires right { IsSound E.order right }
    requires two_higher { depth right ≡ depth left + 2 }
    requires low { depth left ≤ 2 ^ 10 }
    ensures entries { entries result
        ≡ entries left ++ (entries_in node.value.content ++ entries right) }
    ensures depth { IsDepthOver (depth left) (depth right) (depth result) }
    ensures sound { IsSound E.order result }
{
    let Tree::Fork(_, top) = right else {
        unreachable!()
    };
    let (top, inner, outer) = opened(top);
    if height_of(&outer) >= height_of(&inner) {
        let lowered = settled(node, left, inner);
        return settled(top, lowered, outer);
    }
    let Tree::Fork(_, middle) = inner else {
        unreachable!()
    };
    let (middle, before, after) = opened(middle);
    let first = settled(node, left, before);
    let second = settled(top, after, outer);
    settled(middle, first, second)
}
