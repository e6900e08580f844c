//! Where each id stands in a list of labels.
ghost use Rattle.std.specs.Prelude.{◌≡◌, ◌≤◌, length, IfOk};
ghost use Rattle.ml_ratio.specs.Limits.{most_labels};
ghost use Rattle.ml_cone.specs.Places.{FindsPlaces, find_place};

use ml_cone::Label;
use std::alloc::{AllocError, Global};
use std::collections::BTreeMap;

/// The place of each label by its id.
///
/// # Errors
/// Out of memory.
pub fn places_of<'a>(
    alloc: Global,
    labels: &'a [Label],
) -> Result<BTreeMap<&'a str, u32>, AllocError>
    requires { length labels.now ≤ most_labels }
    ensures { IfOk result (λ places. FindsPlaces labels.now places) }
{
    let mut places = BTreeMap::new(alloc);
    for (i, label) in labels.iter().enumerate() {
        places.insert(label.id().as_str(), i as u32)?;
    }
    Ok(places)
}

/// The place of the label with this id, if there is one.
pub fn place_of<'a>(places: &BTreeMap<&'a str, u32>, id: &'a str) -> Option<u32>
    ensures { result ≡ find_place places.now id.now }
{
    places.get(&id).copied()
}
