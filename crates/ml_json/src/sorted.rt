//! Members in byte order of their keys: a few in a list, many in a tree.
ghost use Rattle.std.specs.Prelude.{◌≡◌, OnOk, IfOk};
ghost use Rattle.ml_json.specs.Tree.{put};
ghost use Rattle.ml_json.specs.Canonical.{IsAscending};
ghost use Rattle.ml_json.specs.Lent.{lent_of, lent_pairs_view};
ghost use Rattle.ml_json.specs.Sorted.{IsPlace, entries_view};

use crate::lent::{Lent, LentPair, LentText};
use crate::state::Sorted;
use std::alloc::{AllocError, Global};
use std::cmp::Ordering;
use std::collections::BTreeMap;

// The place of the member with this key, or else the place where it belongs. The search begins at the
// end, since in most texts keys come in order or nearly so.
fn place_of<'a>(pairs: &[LentPair<'a>], key: &LentText<'a>) -> Result<usize, usize>
    requires { IsAscending (lent_pairs_view pairs.now) }
    ensures { IsPlace key.now pairs.now result }
{
    let mut place = pairs.len();
    while place > 0 {
        match key.cmp(&pairs[place - 1].key) {
            Ordering::Less => place -= 1,
            Ordering::Equal => return Ok(place - 1),
            Ordering::Greater => return Err(place),
        }
    }
    Err(place)
}

// Puts the value at its key among pairs in order, in place of one that was there.
fn put_in_order<'a>(
    pairs: &mut Vec<LentPair<'a>>,
    key: LentText<'a>,
    value: Lent<'a>,
) -> Result<(), AllocError>
    requires { IsAscending (lent_pairs_view pairs.old.items) }
    ensures { OnOk result (lent_pairs_view pairs.new.items
        ≡ put key.entry (lent_of value.entry) (lent_pairs_view pairs.old.items)) }
{
    match place_of(pairs.as_slice(), &key) {
        Ok(place) => {
            pairs[place] = LentPair { key, value };
            Ok(())
        }
        Err(place) => {
            pairs.insert(place, LentPair { key, value })?;
            Ok(())
        }
    }
}

/// Puts the value at its key in a list, in place of one that was there.
pub fn put_in_list<'a>(
    list: Sorted<'a>,
    key: LentText<'a>,
    value: Lent<'a>,
) -> Result<Sorted<'a>, AllocError>
    ensures { IfOk result (λ after. lent_pairs_view after.pairs.items
        ≡ put key.entry (lent_of value.entry) (lent_pairs_view list.entry.pairs.items)) }
{
    let Sorted { mut pairs } = list;
    put_in_order(&mut pairs, key, value)?;
    Ok(Sorted { pairs })
}

/// Puts the value at its key in a tree, in place of one that was there.
pub fn put_in_tree<'a>(
    tree: &mut BTreeMap<LentText<'a>, Lent<'a>>,
    key: LentText<'a>,
    value: Lent<'a>,
) -> Result<(), AllocError>
    ensures { OnOk result (entries_view tree.new.entries
        ≡ put key.entry (lent_of value.entry) (entries_view tree.old.entries)) }
{
    let _replaced = tree.insert(key, value)?;
    Ok(())
}

/// The members of a list in a tree.
pub fn tree_of_list<'a>(
    alloc: Global,
    list: Sorted<'a>,
) -> Result<BTreeMap<LentText<'a>, Lent<'a>>, AllocError>
    ensures { IfOk result
        (λ tree. entries_view tree.entries ≡ lent_pairs_view list.entry.pairs.items) }
{
    let mut tree = BTreeMap::new(alloc);
    for pair in list.pairs {
        put_in_tree(&mut tree, pair.key, pair.value)?;
    }
    Ok(tree)
}

/// The members of a tree in a list.
pub fn list_of_tree<'a>(
    alloc: Global,
    tree: BTreeMap<LentText<'a>, Lent<'a>>,
) -> Result<Vec<LentPair<'a>>, AllocError>
    ensures { IfOk result (λ pairs. lent_pairs_view pairs.items ≡ entries_view tree.entry.entries) }
{
    let mut pairs = Vec::with_capacity(alloc, tree.len())?;
    for (key, value) in tree {
        pairs.push(LentPair { key, value })?;
    }
    Ok(pairs)
}
