//! Labels in order from west to east, to find those that may bound one.
ghost use Rattle.std.specs.Prelude.{◌≡◌, ◌≤◌, ◌<◌, length};
ghost use Rattle.ml_ratio.specs.Limits.{most_labels};
ghost use Rattle.ml_conflict.specs.Field.{IsSpotOf, IsFieldOf};

use crate::axis::Axis;
use crate::far::greatest_reach;
use crate::spot::Spot;
use ml_cone::{Label, Site};

/// Writes the spots of all labels from west to east, one for each, into the room that the caller lends. How
/// many pixels a label reaches to the west or to the east at most is the answer, up to 576.
pub fn arrange_spots(labels: &[Label], spots: &mut [Spot]) -> u32
    requires few { length labels.now ≤ most_labels }
    requires room { length spots.old ≡ length labels.now }
    ensures { IsFieldOf labels.now spots.new result }
{
    for i in 0..labels.len() {
        spots[i] = spot_of(labels, i);
    }
    spots.sort_unstable_by_key(|spot| spot.x);
    greatest_reach(Axis::Across, labels)
}

/// The spot of the label at `i`.
pub fn spot_of(labels: &[Label], i: usize) -> Spot
    requires few { length labels.now ≤ most_labels }
    requires there { i < length labels.now }
    ensures spot { IsSpotOf labels.now result }
    ensures place { result.place ≡ i }
{
    let label = &labels[i];
    Spot {
        place: i as u32,
        x: label.x(),
        y: label.y(),
        site: Site::of(label),
    }
}
