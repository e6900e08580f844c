//! What is read of live labels.
ghost use Rattle.std.specs.Prelude.{ℕ, ◌≡◌, ◌<◌, Contains, IfOk, List, All, map, length};
ghost use Rattle.ml_store.specs.Rows.{numbers_in, number_at, IsLive};
ghost use Rattle.ml_store.specs.declared.row.Row.{Row};

use ml_ratio::Seq;
use ml_store::{Row, Store};
use std::alloc::{AllocError, Global};

/// The row of the label with this number, which is live.
pub fn row_at(store: &Store, number: u32) -> &Row
    requires { IsLive store.now.rows number }
    ensures { (r : Row) → Contains store.now.rows r → r.number ≡ number → result.now ≡ r }
{
    match store.place_of(number) {
        Some(at) => store.row(at),
        None => unreachable!(),
    }
}

/// The numbers of the labels at some places.
///
/// # Errors
/// Out of memory.
pub fn numbers_of(alloc: Global, store: &Store, places: &[u32]) -> Result<Seq<u32>, AllocError>
    requires { All (λ p. p < length store.now.rows) places.now }
    ensures { IfOk result (λ numbers. numbers ≡ map (number_at store.now.rows) places.now) }
{
    let mut numbers = Seq::new(alloc);
    for place in places {
        numbers.push(store.row(*place as usize).number)?;
    }
    Ok(numbers)
}

/// The numbers of all labels in priority order.
///
/// # Errors
/// Out of memory.
pub fn all_numbers(alloc: Global, store: &Store) -> Result<Seq<u32>, AllocError>
    ensures { IfOk result (λ numbers. numbers ≡ numbers_in store.now.rows) }
{
    let mut numbers = Seq::new(alloc);
    for place in 0..store.len() {
        numbers.push(store.row(place).number)?;
    }
    Ok(numbers)
}
