//! Labels that were found before a place, as the rivals of the label there.
ghost use Rattle.std.specs.Prelude.{◌<◌, length, map, All};

use crate::search::Search;
use ml_cone::Label;
use ml_conflict::RivalList;
use ml_ratio::Ratio;

/// The labels at some places; their numbers are their places.
#[derive(Clone, Copy)]
pub struct Found<'a> {
    pub search: Search<'a>,
    pub places: &'a [u32],
    ghost within: { All (λ j. j < length search.slots.now) places.now },
}

impl RivalList for Found<'_> {
    ghost use Rattle.ml_pass.specs.Search.{rivals_in};

    ghost rivals = { λ b. map (rivals_in b.search.labels.now b.search.slots.now b.search.low.now) b.places.now };

    fn count(&self) -> usize {
        self.places.len()
    }

    fn number(&self, k: usize) -> u32 {
        self.places[k]
    }

    fn label(&self, k: usize) -> &Label {
        &self.search.labels[self.places[k] as usize]
    }

    fn until(&self, k: usize) -> Ratio {
        self.search.slots[self.places[k] as usize].until
    }
}
