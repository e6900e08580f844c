//! Rows of a store without one that has gone, and with one that is to come: each at its place.
ghost use Rattle.std.specs.Prelude.{ℕ, ◌≡◌, ◌<◌, ◌≤◌, length, Option, Some, None, IfSome, MatchOption, HoldsAt};
ghost use Rattle.ml_ratio.specs.Limits.{most_labels};
ghost use Rattle.ml_store.specs.Numbered.{AreNumbered};
ghost use Rattle.ml_store.specs.Table.{IsPlaceIn};
ghost use Rattle.ml_repair.specs.Roster.{left_rows, joined_rows, IsPlaceWithout};

use ml_store::{Row, Store};

// The row at a place of those that are left.
fn left_row(store: &Store, gone: Option<usize>, at: usize) -> &Row
    requires within { at < length (left_rows gone store.now.rows) }
    requires few { length (left_rows gone store.now.rows) ≤ most_labels }
    requires gone { IfSome gone (λ g. g < length store.now.rows) }
    ensures { HoldsAt (λ r. r ≡ result.now) (left_rows gone store.now.rows) at }
{
    match gone {
        Some(g) => {
            if at < g {
                store.row(at)
            } else {
                store.row(at + 1)
            }
        }
        None => store.row(at),
    }
}

// The place of a number among the rows that are left.
fn left_place(store: &Store, gone: Option<usize>, number: u32) -> Option<usize>
    requires gone { IfSome gone (λ g. g < length store.now.rows) }
    ensures { IsPlaceIn (left_rows gone store.now.rows) number result }
{
    match store.place_of(number) {
        Some(at) => place_without(gone, at),
        None => None,
    }
}

// The place after one before it may have gone.
fn place_without(gone: Option<usize>, at: usize) -> Option<usize>
    ensures { MatchOption result (gone ≡ Some at) (IsPlaceWithout gone at) }
{
    match gone {
        Some(g) => {
            if at < g {
                Some(at)
            } else if at > g {
                Some(at - 1)
            } else {
                None
            }
        }
        None => Some(at),
    }
}

// The place with one more at `at` in the list.
fn place_with(at: usize, place: Option<usize>) -> Option<usize>
    requires { IfSome place (λ p. p < most_labels) }
    ensures { MatchOption result (place ≡ None)
        (λ q. (p : ℕ) × (place ≡ Some p) × IsPlaceWithout (Some at) q p) }
{
    match place {
        Some(p) => { if p < at { Some(p) } else { Some(p + 1) } }
        None => None,
    }
}

/// The place of a number among the rows that are left and the one that is to come at `at`.
pub fn joined_place(
    store: &Store,
    gone: Option<usize>,
    come: Option<&Row>,
    at: usize,
    number: u32,
) -> Option<usize>
    requires gone { IfSome gone (λ g. g < length store.now.rows) }
    requires at { IfSome come (λ row. at ≤ length (left_rows gone store.now.rows)) }
    requires numbered { AreNumbered (joined_rows come at (left_rows gone store.now.rows)) }
    ensures { IsPlaceIn (joined_rows come.entry at (left_rows gone store.now.rows)) number result }
{
    let left = left_place(store, gone, number);
    match come {
        Some(row) => {
            if row.number == number {
                Some(at)
            } else {
                place_with(at, left)
            }
        }
        None => left,
    }
}

/// The row at a place of those that are left and the one that is to come at `at`.
pub fn joined_row<'a>(
    store: &'a Store,
    gone: Option<usize>,
    come: Option<&'a Row>,
    at: usize,
    place: usize,
) -> &'a Row
    requires gone { IfSome gone (λ g. g < length store.now.rows) }
    requires at { IfSome come (λ row. at ≤ length (left_rows gone store.now.rows)) }
    requires within { place < length (joined_rows come at (left_rows gone store.now.rows)) }
    requires few { length (joined_rows come at (left_rows gone store.now.rows)) ≤ most_labels }
    ensures { HoldsAt (λ r. r ≡ result.now)
        (joined_rows come.entry at (left_rows gone store.now.rows)) place }
{
    match come {
        Some(row) => {
            if place == at {
                row
            } else if place < at {
                left_row(store, gone, place)
            } else {
                left_row(store, gone, place - 1)
            }
        }
        None => left_row(store, gone, place),
    }
}
