//! An entry put into a tree.
ghost use Rattle.std.specs.Prelude.{ℕ, ◌+◌, ◌≤◌, ◌^◌};
ghost use Rattle.ml_spans.specs.Order.{entry_order, IsRising, IsNew};
ghost use Rattle.ml_ratio.specs.Lists.{IsAdded};
ghost use Rattle.ml_spans.specs.Sound.{entries, depth, IsSound};

use crate::change::grow;
use crate::entry::Entry;
use crate::key::Key;
use crate::node::{place_of, single};
use crate::shape::{Node, Tree};
use std::cmp::Ordering;

// Puts the entry in its place in the tree, in the spare node.
pub(crate) fn put<K: Key, E: Key, V: Key>(
    tree: &mut Tree<K, E, V>,
    spare: Box<Node<K, E, V>>,
    entry: &Entry<K, E, V>,
)
    requires sound { IsSound E.order tree.old }
    requires rising { IsRising (entry_order K.order E.order V.order) (entries tree.old) }
    requires new { IsNew (entry_order K.order E.order V.order) entry.now (entries tree.old) }
    requires low { depth tree.old ≤ 2 ^ 8 }
    ensures added { IsAdded entry.now (entries tree.old) (entries tree.new) }
    ensures rising { IsRising (entry_order K.order E.order V.order) (entries tree.new) }
    ensures not_lower { depth tree.old ≤ depth tree.new }
    ensures one_higher { depth tree.new ≤ depth tree.old + 1 }
    ensures sound { IsSound E.order tree.new }
{
    match tree {
        Tree::Leaf => *tree = single(spare, *entry),
        Tree::Fork(_, top) => match place_of(entry, top) {
            Ordering::Less => {
                put(&mut top.left, spare, entry);
                grow(tree, &entry.end);
            }
            _ => {
                put(&mut top.right, spare, entry);
                grow(tree, &entry.end);
            }
        },
    }
}
