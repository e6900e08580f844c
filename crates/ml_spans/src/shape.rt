//! The nodes of a tree and how they hang together.
use crate::entry::Entry;

/// What a node of a tree holds.
#[derive(Clone, Copy)]
pub struct Content<K, E, V> {
    /// The node's entry.
    pub entry: Entry<K, E, V>,
    /// The greatest end among the node's and all below it.
    pub greatest: E,
}

/// A node; a spare one may have no content.
#[cycle(tree)]
#[derive(Drop)]
pub struct Node<K, E, V> {
    pub content: Option<Content<K, E, V>>,
    pub left: Tree<K, E, V>,
    pub right: Tree<K, E, V>,
}

/// No node, or how many nodes the longest path down has and the top node. The height stands here and
/// not in the node, so that a node's sides can be compared without a look at theirs.
#[cycle(tree)]
#[derive(Drop)]
pub enum Tree<K, E, V> {
    Leaf,
    Fork(u32, Box<Node<K, E, V>>),
}

impl<K, E, V> Node<K, E, V> {
    /// A node that holds nothing.
    pub(crate) fn spare() -> Node<K, E, V> {
        Node {
            content: None,
            left: Tree::Leaf,
            right: Tree::Leaf,
        }
    }
}
