//! The order in which changes are told.
ghost use Rattle.std.specs.Prelude.{◌↔◌, Contains, map};
ghost use Rattle.std.specs.List.Sorted.{IsStrictlySortedBy};
ghost use Rattle.std.specs.Cmp.Lexicographic.{slice_cmp};
ghost use Rattle.std.specs.Ordering.{nat_cmp};
ghost use Rattle.ml_watch.specs.declared.change.Change.{Change};
ghost use Rattle.ml_watch.specs.ById.{HaveOwnIds};

use crate::change::Change;
use ml_ratio::Seq;

/// The same changes, each of an id of its own, in byte order of ids. It takes no memory.
pub fn by_id(changes: Vec<Change>) -> Seq<Change>
    requires { HaveOwnIds changes.items }
    ensures same { (c : Change) → Contains result c ↔ Contains changes.items c }
    ensures ascending { IsStrictlySortedBy (slice_cmp nat_cmp) (map (λ change. change.id) result) }
{
    let mut sorted = changes;
    sorted.sort_unstable_by(|one, other| one.id.cmp(&other.id));
    Seq::of_vec(sorted)
}
