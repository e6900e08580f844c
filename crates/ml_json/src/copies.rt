//! Copies of lent values that borrow nothing.
ghost use Rattle.std.specs.Prelude.{◌≡◌, IfOk, map as mapped};
ghost use Rattle.ml_json.specs.View.{tree_of, pair_of};
ghost use Rattle.ml_json.specs.Lent.{lent_of, lent_pair_of};

use crate::lent::{Lent, LentPair};
use crate::value::{Json, Pair};
use std::alloc::{AllocError, Global};

/// The value with texts of its own.
///
/// # Errors
/// Out of memory.
#[cycle(copying)]
pub fn copy_value(alloc: Global, value: &Lent) -> Result<Json, AllocError>
    ensures { IfOk result (λ json. tree_of json ≡ lent_of value.now) }
{
    Ok(match value {
        Lent::Null => Json::Null,
        Lent::Flag(flag) => Json::Flag(*flag),
        Lent::Num(text) => Json::Num(text.to_text(alloc)?),
        Lent::Str(text) => Json::Str(text.to_text(alloc)?),
        Lent::List(items) => Json::List(copy_items(alloc, items.as_slice())?),
        Lent::Map(pairs) => Json::Map(copy_pairs(alloc, pairs.as_slice())?),
    })
}

// The items with texts of their own.
#[cycle(copying)]
fn copy_items(alloc: Global, items: &[Lent]) -> Result<Vec<Json>, AllocError>
    ensures { IfOk result (λ values. mapped tree_of values.items ≡ mapped lent_of items.now) }
{
    let mut values = Vec::with_capacity(alloc, items.len())?;
    for item in items {
        values.push(copy_value(alloc, item)?)?;
    }
    Ok(values)
}

// The members with texts of their own.
#[cycle(copying)]
fn copy_pairs(alloc: Global, pairs: &[LentPair]) -> Result<Vec<Pair>, AllocError>
    ensures { IfOk result (λ copies. mapped pair_of copies.items ≡ mapped lent_pair_of pairs.now) }
{
    let mut copies = Vec::with_capacity(alloc, pairs.len())?;
    for pair in pairs {
        let key = pair.key.to_text(alloc)?;
        let value = copy_value(alloc, &pair.value)?;
        copies.push(Pair { key, value })?;
    }
    Ok(copies)
}
