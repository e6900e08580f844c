//! Whether two labels are the same but for their class and rank.
ghost use Rattle.std.specs.Prelude.{◌≡◌, MatchBool};
ghost use Rattle.ml_follow.specs.Changes.{unplaced};

use ml_cone::{Label, are_alike};

// Whether the ids are the same.
fn same_ids(one: &Label, other: &Label) -> bool
    ensures { MatchBool result (one.now.order.id ≡ other.now.order.id)
        (¬ (one.now.order.id ≡ other.now.order.id)) }
{
    one.id() == other.id()
}

/// Whether the labels are the same but for their class and rank.
pub fn same_unplaced(one: &Label, other: &Label) -> bool
    ensures { MatchBool result (unplaced one.now ≡ unplaced other.now)
        (¬ (unplaced one.now ≡ unplaced other.now)) }
{
    same_ids(one, other) && are_alike(one, other)
}
