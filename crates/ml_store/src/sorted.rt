//! The numbers of many labels, put in byte order of their ids at once.
ghost use Rattle.std.specs.Prelude.{◌≡◌, IfOk, length, map};
ghost use Rattle.ml_store.specs.Boxes.{unboxed};
ghost use Rattle.ml_store.specs.Names.{names_in, AreByName};
ghost use Rattle.ml_store.specs.Named.{name_of};
ghost use Rattle.ml_store.specs.Rows.{HaveOwnIds};

use crate::row::Row;
use std::alloc::{AllocError, Global};

/// The number of a label, with the bytes of its id: slices of bytes are compared at their first bytes without a call.
#[derive(Clone, Copy)]
pub struct Named<'a> {
    number: u32,
    id: &'a [u8],
}

// The rows' numbers and ids.
fn names_of<'a>(alloc: Global, rows: &'a [Box<Row>]) -> Result<Vec<Named<'a>>, AllocError>
    ensures { IfOk result (λ names. map name_of names.items ≡ names_in (unboxed rows.now)) }
{
    let mut names = Vec::with_capacity(alloc, rows.len())?;
    for row in rows {
        names.push(Named {
            number: row.number,
            id: row.label.id().as_str().as_bytes(),
        })?;
    }
    Ok(names)
}

// The numbers of these names, in their order.
fn numbers_of(alloc: Global, names: &[Named<'_>]) -> Result<Vec<u32>, AllocError>
    ensures { IfOk result (λ numbers. numbers.items ≡ map (λ n. n.number) names.now) }
{
    let mut numbers = Vec::with_capacity(alloc, names.len())?;
    for name in names {
        numbers.push(name.number)?;
    }
    Ok(numbers)
}

/// The rows' numbers in byte order of ids.
///
/// # Errors
/// Out of memory.
pub fn by_name(alloc: Global, rows: &[Box<Row>]) -> Result<Vec<u32>, AllocError>
    requires { HaveOwnIds (unboxed rows.now) }
    ensures by_name { IfOk result (λ ids. AreByName (names_in (unboxed rows.now)) ids.items) }
    ensures len { IfOk result (λ ids. length ids.items ≡ length rows.now) }
{
    let mut names = names_of(alloc, rows)?;
    names.sort_unstable_by(|one, other| one.id.cmp(&other.id));
    numbers_of(alloc, names.as_slice())
}
