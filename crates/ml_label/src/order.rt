//! Labels in priority order.
ghost use Rattle.std.specs.Prelude.{◌≡◌, ◌≢◌};
ghost use Rattle.std.specs.List.{AllPairs};
ghost use Rattle.std.specs.List.Sorted.{IsPermutation};
ghost use Rattle.ml_cone.specs.Label.{IsLabelList};

use ml_cone::Label;

/// The same labels in priority order: class ascending, then rank descending, then id by bytes.
///
/// No two of them may have the same id. It takes no memory.
pub fn in_priority_order(labels: Vec<Label>) -> Vec<Label>
    requires differ { AllPairs (λ one other. one.order.id ≢ other.order.id) labels.items }
    ensures same { IsPermutation labels.items result.items }
    ensures ordered { IsLabelList result.items }
{
    let mut ordered = labels;
    ordered.sort_unstable_by(|one, other| one.order().cmp(other.order()));
    ordered
}
