//! All entries of a tree, each of which gets the end that its value has by now.
//!
//! Where many entries get another end, one walk over all of them costs less than a way down to each.
ghost use Rattle.std.specs.Prelude.{◌≡◌, map};
ghost use Rattle.std.specs.Option.{IsSome};
ghost use Rattle.ml_spans.specs.Spans.{renewed};
ghost use Rattle.ml_spans.specs.Sound.{entries, entries_in, depth, IsSound};

use crate::key::Key;
use crate::moving::keep_top;
use crate::shape::{Content, Tree};

/// Tells which end the entries of each value get.
pub trait NextEnd<E, V> {
    ghost next: { Self → V → E → E };

    /// The end that an entry of the value gets, which has the end `end`.
    fn next_end(&self, value: &V, end: E) -> E
        ensures { result ≡ next self.now value.now end };
}

// Gives the entry of a node its next end.
fn renew_end<K: Key, E: Key, V: Key, F: NextEnd<E, V>>(
    content: &mut Option<Content<K, E, V>>,
    ends: &F,
)
    requires { IsSome content.old }
    ensures held { IsSome content.new }
    ensures entry { entries_in content.new
        ≡ map (renewed (F.next ends.now)) (entries_in content.old) }
{
    match content {
        Some(content) => content.entry.end = ends.next_end(&content.entry.value, content.entry.end),
        None => unreachable!(),
    }
}

// Gives each entry of a tree its next end.
pub(crate) fn renew_all<K: Key, E: Key, V: Key, F: NextEnd<E, V>>(
    tree: &mut Tree<K, E, V>,
    ends: &F,
)
    requires { IsSound E.order tree.old }
    ensures entries { entries tree.new ≡ map (renewed (F.next ends.now)) (entries tree.old) }
    ensures depth { depth tree.new ≡ depth tree.old }
    ensures sound { IsSound E.order tree.new }
{
    match tree {
        Tree::Leaf => {}
        Tree::Fork(_, top) => {
            renew_all(&mut top.left, ends);
            renew_all(&mut top.right, ends);
            renew_end(&mut top.content, ends);
            keep_top(tree);
        }
    }
}
