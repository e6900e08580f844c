//! Where a label stands, or is to stand, in priority order.
ghost use Rattle.std.specs.Prelude.{ℕ, ◌≡◌, IsTrue, ◌↔◌, ◌<◌, length, slice_index_or};
ghost use Rattle.std.specs.declared.cmp.Ordering.TheVariants.{Less};
ghost use Rattle.ml_cone.specs.Label.{IsLabelList};
ghost use Rattle.ml_cone.specs.Order.{order_cmp};
ghost use Rattle.ml_cone.specs.declared.label.Label.{Label};
ghost use Rattle.ml_store.specs.Rows.{labels_in};
ghost use Rattle.ml_repair.specs.Placed.{IsPlaceFor};

use crate::roster::Roster;
use ml_cone::Order;
use std::cmp::Ordering;

// Whether the label at a place stands before the order.
fn is_before(roster: &Roster<'_>, place: usize, order: &Order) -> bool
    requires { place < length roster.now }
    ensures { (d : Label) → IsTrue result
        ↔ (order_cmp (slice_index_or (labels_in roster.now) place d).order order.now ≡ Less) }
{
    match roster.row(place).label.order().cmp(order) {
        Ordering::Less => true,
        _ => false,
    }
}

/// The place of an order: just the labels before it stand before it.
pub fn place_for(roster: &Roster<'_>, order: &Order) -> usize
    requires { IsLabelList (labels_in roster.now) }
    ensures { IsPlaceFor (labels_in roster.now) order.now result }
{
    let mut low = 0;
    let mut high = roster.len();
    while low < high {
        let middle = low + (high - low) / 2;
        if is_before(roster, middle, order) {
            low = middle + 1;
        } else {
            high = middle;
        }
    }
    low
}
