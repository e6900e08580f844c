//! The ids that features get.
ghost use Rattle.std.specs.Prelude.{◌≡◌, ◌++◌, IfOk, codes};
ghost use Rattle.std.specs.Option.{option_copied};
ghost use Rattle.ml_geojson.specs.Ids.{numbered as spec_numbered, IsFresh, IsOwnOrFresh, IsIdOf};
ghost use Rattle.ml_geojson.specs.Taken.{is_taken, Takes};

use ml_ratio::Text;
use std::alloc::{AllocError, Global};
use std::collections::HashSet;

// A number sign and the place.
fn numbered(alloc: Global, k: usize) -> Result<Text, AllocError>
    ensures { IfOk result (λ id. id ≡ spec_numbered k) }
{
    Ok(Text::of_string(format!(in alloc; "#{k}")?))
}

// The text with a number sign before it.
fn marked(alloc: Global, id: &Text) -> Result<Text, AllocError>
    ensures { IfOk result (λ marked. marked ≡ codes "#" ++ id.now) }
{
    let mut marked = String::from_str(alloc, "#")?;
    marked.push_str(id.as_str())?;
    Ok(Text::of_string(marked))
}

// A number sign and the place `k`, with as few further number signs before it as make it new.
fn fresh_id(alloc: Global, taken: &HashSet<Text>, k: usize) -> Result<Text, AllocError>
    ensures { IfOk result (IsFresh (is_taken taken.now) k) }
{
    let mut id = numbered(alloc, k)?;
    while taken.contains(&id) {
        id = marked(alloc, &id)?;
    }
    Ok(id)
}

// Takes a fresh id.
fn take_fresh(alloc: Global, taken: &mut HashSet<Text>, k: usize) -> Result<Text, AllocError>
    ensures id { IfOk result (IsFresh (is_taken taken.old) k) }
    ensures taken { IfOk result (Takes taken.old taken.new) }
{
    let id = fresh_id(alloc, taken, k)?;
    taken.insert(id.copy()?)?;
    Ok(id)
}

// Takes the feature's own id where it is new, else a fresh one.
fn take_own(
    alloc: Global,
    taken: &mut HashSet<Text>,
    own: Text,
    k: usize,
) -> Result<Text, AllocError>
    ensures id { IfOk result (IsOwnOrFresh (is_taken taken.old) k own) }
    ensures taken { IfOk result (Takes taken.old taken.new) }
{
    if taken.insert(own.copy()?)? {
        return Ok(own);
    }
    take_fresh(alloc, taken, k)
}

/// Takes the id of the feature at place `k`: its own where it is new, else a fresh one.
///
/// # Errors
/// Out of memory.
pub fn take_id(
    alloc: Global,
    taken: &mut HashSet<Text>,
    own: Option<Text>,
    k: usize,
) -> Result<Text, AllocError>
    ensures id { IfOk result (IsIdOf (is_taken taken.old) k own) }
    ensures taken { IfOk result (Takes taken.old taken.new) }
{
    match own {
        Some(id) => take_own(alloc, taken, id, k),
        None => take_fresh(alloc, taken, k),
    }
}
