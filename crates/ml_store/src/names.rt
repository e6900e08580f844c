//! Numbers of labels in byte order of their ids.
ghost use Rattle.std.specs.Prelude.{ℕ, ◌≡◌, ◌<◌, ◌↔◌, IsTrue, MatchOption, Contains, List, length, remove, slice_index_or};
ghost use Rattle.ml_ratio.specs.Limits.{most_labels};
ghost use Rattle.ml_ratio.specs.Lists.{IsAdded};
ghost use Rattle.ml_store.specs.Rows.{numbers_in, HaveOwnNumbers, IsFresh};
ghost use Rattle.ml_store.specs.Names.{Name, names_in, AreByName, IsIdBefore, IsIdPlace, HaveId};

use crate::numbers::Numbers;
use crate::rows::Rows;
use ml_ratio::Text;
use std::cmp::Ordering;

// The id of the label with this number.
fn id_of<'a>(rows: &'a Rows, number: u32) -> &'a Text
    requires live { Contains (numbers_in rows.now) number }
    ensures { (name : Name) → Contains (names_in rows.now) name →
        name.number ≡ number → result.now ≡ name.id }
{
    rows.with_number(number).label.id()
}

// Whether the label with this number has an id before this one.
fn is_before(rows: &Rows, number: u32, id: &Text) -> bool
    requires live { Contains (numbers_in rows.now) number }
    ensures { (name : Name) → Contains (names_in rows.now) name →
        name.number ≡ number → IsTrue result ↔ IsIdBefore name.id id.now }
{
    match id_of(rows, number).cmp(id) {
        Ordering::Less => true,
        _ => false,
    }
}

// Where the id stands, or is to stand, among numbers in byte order of ids.
fn id_place(rows: &Rows, ids: &Numbers, id: &Text) -> usize
    requires differ { HaveOwnNumbers rows.now }
    requires by_name { AreByName (names_in rows.now) ids.now }
    ensures { IsIdPlace (names_in rows.now) ids.now id.now result }
{
    let mut low = 0;
    let mut high = ids.len();
    while low < high {
        let middle = low + (high - low) / 2;
        let number = ids.at(middle);
        if is_before(rows, number, id) {
            low = middle + 1;
        } else {
            high = middle;
        }
    }
    low
}

/// The number of the label with this id; none where no label has it.
pub fn find_id(rows: &Rows, ids: &Numbers, id: &Text) -> Option<u32>
    requires differ { HaveOwnNumbers rows.now }
    requires by_name { AreByName (names_in rows.now) ids.now }
    ensures { MatchOption result (¬ (HaveId (names_in rows.now) id.now))
        (λ n. Contains (names_in rows.now) (record { number = n; id = id.now })) }
{
    let at = id_place(rows, ids, id);
    if at == ids.len() {
        return None;
    }
    let number = ids.at(at);
    if has_id(rows, number, id) {
        Some(number)
    } else {
        None
    }
}

// Whether the label with this number has this id.
fn has_id(rows: &Rows, number: u32, id: &Text) -> bool
    requires live { Contains (numbers_in rows.now) number }
    ensures { (name : Name) → Contains (names_in rows.now) name →
        name.number ≡ number → IsTrue result ↔ (name.id ≡ id.now) }
{
    *id_of(rows, number) == *id
}

/// The number of a label with a new id comes in.
pub fn put_name(rows: &Rows, ids: &mut Numbers, number: u32, id: &Text)
    requires differ { HaveOwnNumbers rows.now }
    requires by_name { AreByName (names_in rows.now) ids.old }
    requires new { ¬ (HaveId (names_in rows.now) id.now) }
    requires fresh { IsFresh number rows.now }
    requires low { number < most_labels }
    ensures by_name { (names : List Name) → IsAdded (record { number = number; id = id.now })
        (names_in rows.now) names → AreByName names ids.new }
{
    let at = id_place(rows, ids, id);
    ids.insert(at, number);
}

/// The number of the label with this id goes.
pub fn take_name(rows: &Rows, ids: &mut Numbers, id: &Text)
    requires differ { HaveOwnNumbers rows.now }
    requires by_name { AreByName (names_in rows.now) ids.old }
    requires live { HaveId (names_in rows.now) id.now }
    ensures by_name { (at : ℕ) (d : Name) → at < length (names_in rows.now) →
        (slice_index_or (names_in rows.now) at d).id ≡ id.now →
        AreByName (remove (names_in rows.now) at) ids.new }
{
    let at = id_place(rows, ids, id);
    ids.remove(at);
}
