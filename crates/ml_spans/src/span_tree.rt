//! The index: a balanced tree of entries, and spare nodes for those to come.
ghost use Rattle.std.specs.Prelude.{◌≡◌, ◌≢◌, ℕ, ◌+◌, ◌*◌, ◌^◌, ◌<◌, ◌≤◌, ◌++◌, ◌↔◌, ◌⊎◌, [], length, map, vec_len, vec_capacity, IfOk, OnOk, OnErr, MatchBool, IsTrue, Contains, if◌then◌else◌, max};
ghost use Rattle.ml_spans.specs.Order.{entry_order, IsRising};
ghost use Rattle.ml_spans.specs.Search.{is_in_range, is_stabbed, values_where, IsPart, IsValueOf, HasPassing};
ghost use Rattle.ml_spans.specs.Spans.{entry_of, renewed, HaveOwnPlaces};
ghost use Rattle.ml_spans.specs.declared.entry.Entry.{Entry as AnEntry};

use crate::bulk::tree_of;
use crate::entry::Entry;
use crate::insertion::put;
use crate::key::Key;
use crate::moving::set_in;
use crate::node::height_of;
use crate::query::Query;
use crate::reading::{AsTheyAre, Reads};
use crate::removal::take;
use crate::renewal::{NextEnd, renew_all};
use crate::search::{collect, has_wanted};
use crate::shape::{Node, Tree};
use ml_ratio::Seq;
use std::alloc::{AllocError, Global};
use std::marker::Model;
use std::mem;

/// Entries in order, with spare nodes for more: a balanced tree, in which each node knows the greatest
/// end below it.
///
/// Contracts see the list of entries, in order of key, then value, then end, without repeats; the
/// number of spare nodes; and the height.
#[derive(Drop)]
pub struct SpanTree<K: Key, E: Key, V: Key> {
    root: Tree<K, E, V>,
    spares: Vec<Box<Node<K, E, V>>>,
    count: usize,
}

impl<K: Key, E: Key, V: Key> Model for SpanTree<K, E, V> {
    ghost use Rattle.ml_spans.specs.Spans.{Spans};

    ghost Value = { Spans K E V };

    ghost use Rattle.std.specs.Prelude.{vec_len, vec_capacity};
    ghost use Rattle.ml_spans.specs.Sound.{entries as tree_entries, depth};
    ghost use Rattle.ml_spans.specs.Index.{IsIndex};

    ghost view = { λ a. record { entries = tree_entries a.root; spare = vec_len a.spares; height = depth a.root } };

    ghost invariant = { λ a. IsIndex K.order E.order V.order a.root a.count (vec_len a.spares) (vec_capacity a.spares) };
}

impl<K: Key, E: Key, V: Key> SpanTree<K, E, V> {
    /// No entries and no spare nodes. It takes no memory; the allocator serves later calls.
    pub fn new(alloc: Global) -> SpanTree<K, E, V>
        ensures { result ≡ record { entries = []; spare = 0; height = 0 } }
    {
        SpanTree {
            root: Tree::Leaf,
            spares: Vec::new(alloc),
            count: 0,
        }
    }

    /// The index of these entries, which stand in order without repeats, with no spare nodes. It is as
    /// low as an index of so many entries can be.
    ///
    /// # Errors
    /// Out of memory.
    pub fn of_sorted(
        alloc: Global,
        sorted: &[Entry<K, E, V>],
    ) -> Result<SpanTree<K, E, V>, AllocError>
        requires rising { IsRising (entry_order K.order E.order V.order) sorted.now }
        ensures entries { IfOk result (λ tree. tree.entries ≡ sorted.now) }
        ensures spare { IfOk result (λ tree. tree.spare ≡ 0) }
        ensures low { (digits : ℕ) → length sorted.now < 2 ^ digits →
            IfOk result (λ tree. tree.height ≤ digits) }
    {
        SpanTree::of_read(alloc, &AsTheyAre, sorted)
    }

    /// The index of the entries that are read from these items, which stand in order without repeats, with
    /// no spare nodes. It is as low as an index of so many entries can be.
    ///
    /// # Errors
    /// Out of memory.
    pub fn of_read<T, R: Reads<T, K, E, V>>(
        alloc: Global,
        reads: &R,
        sorted: &[T],
    ) -> Result<SpanTree<K, E, V>, AllocError>
        requires rising { IsRising (entry_order K.order E.order V.order)
            (map (R.entry reads.now) sorted.now) }
        ensures entries { IfOk result (λ tree. tree.entries ≡ map (R.entry reads.now) sorted.now) }
        ensures spare { IfOk result (λ tree. tree.spare ≡ 0) }
        ensures low { (digits : ℕ) → length sorted.now < 2 ^ digits →
            IfOk result (λ tree. tree.height ≤ digits) }
    {
        let root = tree_of(alloc, reads, sorted)?;
        let mut spares = Vec::new(alloc);
        spares.reserve(sorted.len())?;
        Ok(SpanTree {
            root,
            spares,
            count: sorted.len(),
        })
    }

    /// How many entries there are. They are in order, without repeats.
    pub fn len(&self) -> usize
        ensures count { result ≡ length self.now.entries }
        ensures rising { IsRising (entry_order K.order E.order V.order) self.now.entries }
    {
        self.count
    }

    /// How many entries can be put in before the next call of [`SpanTree::reserve`].
    pub fn spare(&self) -> usize
        ensures { result ≡ self.now.spare }
    {
        self.spares.len()
    }

    /// How many nodes the longest path down from the root has, 0 for an empty tree: at most twice the
    /// number of binary digits of `len + 1`.
    pub fn height(&self) -> u32
        ensures value { result ≡ self.now.height }
        ensures low { (digits : ℕ) →
            length self.now.entries + 1 < 2 ^ digits → result ≤ 2 * digits }
    {
        height_of(&self.root)
    }

    /// Makes sure that at least `n` entries can be put in. It adds no more spare nodes than are missing.
    ///
    /// # Errors
    /// Out of memory, after which there may be more spare nodes than before.
    pub fn reserve(&mut self, n: usize) -> Result<(), AllocError>
        ensures ok { OnOk result (n ≤ self.new.spare) }
        ensures same { (self.new.entries ≡ self.old.entries) × (self.new.height ≡ self.old.height) }
        ensures grows { self.old.spare ≤ self.new.spare }
        ensures room { self.new.spare ≤ max self.old.spare n }
    {
        let present = self.spares.len();
        if n <= present {
            return Ok(());
        }
        add_spares(&mut self.spares, n - present, self.count)
    }

    /// Puts an entry in that is not there, in a spare node. It takes no memory and cannot fail.
    pub fn insert(&mut self, key: K, end: E, value: V)
        requires spare { 0 < self.old.spare }
        requires new { ¬ (Contains self.old.entries (entry_of key end value)) }
        ensures members { (e : AnEntry K E V) → Contains self.new.entries e
            ↔ (Contains self.old.entries e ⊎ (e ≡ entry_of key end value)) }
        ensures rising { IsRising (entry_order K.order E.order V.order) self.new.entries }
        ensures spare { self.new.spare + 1 ≡ self.old.spare }
    {
        let entry = Entry { key, end, value };
        let Some(node) = self.spares.pop() else {
            unreachable!()
        };
        put(&mut self.root, node, &entry);
        self.count += 1;
    }

    /// Takes an entry out, whose node is spare then. True exactly where it was there. It takes no memory
    /// and cannot fail.
    pub fn remove(&mut self, key: &K, end: &E, value: &V) -> bool
        ensures there { IsTrue result
            ↔ Contains self.old.entries (entry_of key.now end.now value.now) }
        ensures members { (e : AnEntry K E V) → Contains self.new.entries e
            ↔ (Contains self.old.entries e × (¬ (e ≡ entry_of key.now end.now value.now))) }
        ensures rising { IsRising (entry_order K.order E.order V.order) self.new.entries }
        ensures spare { self.new.spare ≡ self.old.spare + (if result then 1 else 0) }
    {
        let entry = Entry {
            key: *key,
            end: *end,
            value: *value,
        };
        let root = mem::replace(&mut self.root, Tree::Leaf);
        let (root, gone) = take(root, &entry);
        self.root = root;
        match gone {
            None => false,
            Some(node) => {
                self.count -= 1;
                self.spares.push_reserved(node);
                true
            }
        }
    }

    /// Gives an entry another end in its place, where it is there: true exactly then. No other entry may
    /// have its key, its value and an end to which the new one stands otherwise than the old one. It takes
    /// no memory and cannot fail.
    pub fn set_end(&mut self, key: &K, end: &E, value: &V, to: &E) -> bool
        requires place { (other : E) →
            Contains self.old.entries (entry_of key.now other value.now) →
            (other ≡ end.now) ⊎ (E.order to.now other ≡ E.order end.now other) }
        ensures there { IsTrue result
            ↔ Contains self.old.entries (entry_of key.now end.now value.now) }
        ensures members { MatchBool result
            ((e : AnEntry K E V) → Contains self.new.entries e
            ↔ ((Contains self.old.entries e × (¬ (e ≡ entry_of key.now end.now value.now)))
            ⊎ (e ≡ entry_of key.now to.now value.now)))
            (self.new.entries ≡ self.old.entries) }
        ensures rising { IsRising (entry_order K.order E.order V.order) self.new.entries }
        ensures spare { self.new.spare ≡ self.old.spare }
        ensures height { self.new.height ≡ self.old.height }
    {
        let entry = Entry {
            key: *key,
            end: *end,
            value: *value,
        };
        set_in(&mut self.root, &entry, to)
    }

    /// Gives each entry the end that `ends` tells for it, in its place. No two entries may have one key
    /// and one value. It takes no memory and cannot fail.
    pub fn renew_ends<F: NextEnd<E, V>>(&mut self, ends: &F)
        requires { HaveOwnPlaces self.old.entries }
        ensures entries { self.new.entries ≡ map (renewed (F.next ends.now)) self.old.entries }
        ensures rising { IsRising (entry_order K.order E.order V.order) self.new.entries }
        ensures spare { self.new.spare ≡ self.old.spare }
        ensures height { self.new.height ≡ self.old.height }
    {
        renew_all(&mut self.root, ends);
    }

    /// Appends the values of the entries with a key in the closed range and an end of at least `at`, in
    /// the order of the entries. Parts of the tree without such an end are passed over.
    ///
    /// # Errors
    /// Out of memory, after which a first part of them was appended.
    pub fn stab(&self, from: &K, to: &K, at: &E, out: &mut Seq<V>) -> Result<(), AllocError>
        ensures ok { OnOk result (out.new ≡ out.old
            ++ values_where (is_stabbed K.order E.order from.now to.now at.now) self.now.entries) }
        ensures members { OnOk result ((v : V) → Contains out.new v
            ↔ (Contains out.old v ⊎ IsValueOf
            (is_stabbed K.order E.order from.now to.now at.now) self.now.entries v)) }
        ensures err { OnErr result (IsPart out.old out.new
            (values_where (is_stabbed K.order E.order from.now to.now at.now) self.now.entries)) }
    {
        let query = Query {
            from: *from,
            to: *to,
            at: Some(*at),
        };
        collect(&self.root, &query, out)
    }

    /// Whether an entry has a key in the closed range and an end of at least `at`: whether
    /// [`SpanTree::stab`] would give anything. Parts of the tree without such an end are passed over,
    /// and it stops at the first one found.
    pub fn is_stabbed(&self, from: &K, to: &K, at: &E) -> bool
        ensures { IsTrue result
            ↔ HasPassing (is_stabbed K.order E.order from.now to.now at.now) self.now.entries }
    {
        let at = Some(*at);
        let query = Query {
            from: *from,
            to: *to,
            at,
        };
        has_wanted(&self.root, &query)
    }

    /// Appends the values of the entries with a key in the closed range, in the order of the entries.
    ///
    /// # Errors
    /// Out of memory, after which a first part of them was appended.
    pub fn range(&self, from: &K, to: &K, out: &mut Seq<V>) -> Result<(), AllocError>
        ensures ok { OnOk result (out.new ≡ out.old
            ++ values_where (is_in_range K.order from.now to.now) self.now.entries) }
        ensures members { OnOk result ((v : V) → Contains out.new v
            ↔ (Contains out.old v
            ⊎ IsValueOf (is_in_range K.order from.now to.now) self.now.entries v)) }
        ensures err { OnErr result (IsPart out.old out.new
            (values_where (is_in_range K.order from.now to.now) self.now.entries)) }
    {
        let query = Query {
            from: *from,
            to: *to,
            at: None,
        };
        collect(&self.root, &query, out)
    }
}

// Adds spare nodes, with room for these and for as many more as are in use.
fn add_spares<K: Key, E: Key, V: Key>(
    spares: &mut Vec<Box<Node<K, E, V>>>,
    missing: usize,
    used: usize,
) -> Result<(), AllocError>
    requires { vec_len spares.old + used ≤ vec_capacity spares.old }
    ensures ok { OnOk result (vec_len spares.new ≡ vec_len spares.old + missing) }
    ensures grows { vec_len spares.old ≤ vec_len spares.new }
    ensures most { vec_len spares.new ≤ vec_len spares.old + missing }
    ensures room { vec_len spares.new + used ≤ vec_capacity spares.new }
{
    let Some(room) = missing.checked_add(used) else {
        return Err(AllocError);
    };
    spares.reserve(room)?;
    let alloc = *spares.allocator();
    for _added in 0..missing {
        let node = Box::new(alloc, Node::spare())?;
        spares.push_reserved(node);
    }
    Ok(())
}
