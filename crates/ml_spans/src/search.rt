//! The values of the entries in a range of keys, in order.
ghost use Rattle.std.specs.Prelude.{◌≡◌, ◌≢◌, ℕ, ◌+◌, ◌≤◌, ◌^◌, ◌++◌, ◌∷◌, [], true, Some, OnOk, OnErr, MatchBool};
ghost use Rattle.std.specs.Ordering.{MatchOrdering, is_le};
ghost use Rattle.std.specs.Option.{IsSome};
ghost use Rattle.ml_spans.specs.Order.{entry_order, IsRising};
ghost use Rattle.ml_spans.specs.Sound.{entries, IsSound};
ghost use Rattle.ml_spans.specs.Search.{is_within, IsPart};
ghost use Rattle.ml_spans.specs.Query.{IsSide, reaches, wanted};

use crate::key::Key;
use crate::query::Query;
use crate::shape::{Content, Node, Tree};
use ml_ratio::Seq;
use std::alloc::AllocError;
use std::cmp::Ordering;

// Where a key lies: `Less` before the range, `Equal` in it, `Greater` behind it.
fn side_of<K: Key, E: Key>(query: &Query<K, E>, key: &K) -> Ordering
    ensures { IsSide K.order query.now key.now result }
{
    match query.from.compare(key) {
        Ordering::Greater => Ordering::Less,
        _ => match key.compare(&query.to) {
            Ordering::Greater => Ordering::Greater,
            _ => Ordering::Equal,
        },
    }
}

// Whether an end is late enough.
fn is_reached<K: Key, E: Key>(query: &Query<K, E>, end: &E) -> bool
    ensures { result ≡ reaches E.order query.now end.now }
{
    match &query.at {
        None => true,
        Some(at) => match at.compare(end) {
            Ordering::Greater => false,
            _ => true,
        },
    }
}

// What a node of a tree holds.
fn content_of<K: Key, E: Key, V: Key>(node: &Node<K, E, V>) -> &Content<K, E, V>
    requires { IsSome node.now.content }
    ensures { node.now.content ≡ Some result.now }
{
    match &node.content {
        Some(content) => content,
        None => unreachable!(),
    }
}

// Appends the value of an entry whose key is in the range, where its end is late enough.
fn keep<K: Key, E: Key, V: Key>(
    content: &Content<K, E, V>,
    query: &Query<K, E>,
    out: &mut Seq<V>,
) -> Result<(), AllocError>
    requires { is_within K.order query.now.from query.now.to content.now.entry.key ≡ true }
    ensures ok { OnOk result
        (out.new ≡ out.old ++ wanted K.order E.order query.now (content.now.entry ∷ [])) }
    ensures err { OnErr result (out.new ≡ out.old) }
{
    if is_reached(query, &content.entry.end) {
        out.push(content.entry.value)?;
    }
    Ok(())
}

// Whether a tree has no node, and so no entry.
fn is_leaf<K: Key, E: Key, V: Key>(tree: &Tree<K, E, V>) -> bool
    ensures { result ≡ true → entries tree.now ≡ [] }
{
    match tree {
        Tree::Leaf => true,
        Tree::Fork(_, _) => false,
    }
}

// Appends the values of a tree's entries that the query asks for, in order.
pub(crate) fn collect<K: Key, E: Key, V: Key>(
    tree: &Tree<K, E, V>,
    query: &Query<K, E>,
    out: &mut Seq<V>,
) -> Result<(), AllocError>
    requires sound { IsSound E.order tree.now }
    requires rising { IsRising (entry_order K.order E.order V.order) (entries tree.now) }
    ensures ok { OnOk result
        (out.new ≡ out.old ++ wanted K.order E.order query.now (entries tree.now)) }
    ensures err { OnErr result
        (IsPart out.old out.new (wanted K.order E.order query.now (entries tree.now))) }
{
    match tree {
        Tree::Leaf => Ok(()),
        Tree::Fork(_, node) => {
            let node = node.as_ref();
            let content = content_of(node);
            if !is_reached(query, &content.greatest) {
                return Ok(());
            }
            match side_of(query, &content.entry.key) {
                Ordering::Less => collect(&node.right, query, out),
                Ordering::Greater => collect(&node.left, query, out),
                // Half of all nodes have nothing on their left, and a call costs more than this look.
                Ordering::Equal if is_leaf(&node.left) => {
                    keep(content, query, out)?;
                    collect(&node.right, query, out)
                }
                Ordering::Equal => {
                    collect(&node.left, query, out)?;
                    keep(content, query, out)?;
                    collect(&node.right, query, out)
                }
            }
        }
    }
}

// Whether the query asks for any of a tree's entries.
pub(crate) fn has_wanted<K: Key, E: Key, V: Key>(tree: &Tree<K, E, V>, query: &Query<K, E>) -> bool
    requires sound { IsSound E.order tree.now }
    requires rising { IsRising (entry_order K.order E.order V.order) (entries tree.now) }
    ensures { MatchBool result (wanted K.order E.order query.now (entries tree.now) ≢ [])
        (wanted K.order E.order query.now (entries tree.now) ≡ []) }
{
    match tree {
        Tree::Leaf => false,
        Tree::Fork(_, node) => {
            let node = node.as_ref();
            let content = content_of(node);
            if !is_reached(query, &content.greatest) {
                return false;
            }
            match side_of(query, &content.entry.key) {
                Ordering::Less => has_wanted(&node.right, query),
                Ordering::Greater => has_wanted(&node.left, query),
                Ordering::Equal if is_reached(query, &content.entry.end) => true,
                Ordering::Equal => has_wanted(&node.left, query) || has_wanted(&node.right, query),
            }
        }
    }
}
