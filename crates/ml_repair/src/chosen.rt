//! Labels at some places as the rivals of a label.
ghost use Rattle.std.specs.Prelude.{ℕ, ◌≡◌, ◌<◌, All, List, length, map};
ghost use Rattle.ml_store.specs.Numbered.{AreNumbered};
ghost use Rattle.ml_repair.specs.Repair.{present_at};

use crate::moves::Moves;
use crate::roster::Roster;
use ml_cone::{Label, Slot};
use ml_conflict::RivalList;
use ml_ratio::Ratio;

/// The labels at some places, with their present ends, as rivals of `low`.
#[derive(Clone, Copy)]
pub struct Chosen<'a> {
    pub low: &'a Label,
    pub roster: &'a Roster<'a>,
    pub moves: &'a Moves,
    pub places: &'a [u32],
    ghost in_roster: { All (λ p. p < length roster.now) places.now },
}

/// The present slot of the label at a place.
pub fn present_slot(roster: &Roster<'_>, moves: &Moves, place: usize) -> Slot
    requires { place < length roster.now }
    ensures slot { result ≡ present_at roster.now moves.now place }
    ensures numbered { AreNumbered roster.now }
{
    let row = roster.row(place);
    moves.slot(row.number, row.slot)
}

impl RivalList for Chosen<'_> {
    ghost use Rattle.ml_repair.specs.Repair.{rival_in};

    ghost rivals = { λ c. map (rival_in c.roster.now c.moves.now c.low.now) c.places.now };

    fn count(&self) -> usize {
        self.places.len()
    }

    fn number(&self, k: usize) -> u32 {
        let row = self.roster.row(self.places[k] as usize);
        row.number
    }

    fn label(&self, k: usize) -> &Label {
        let row = self.roster.row(self.places[k] as usize);
        &row.label
    }

    fn until(&self, k: usize) -> Ratio {
        present_slot(self.roster, self.moves, self.places[k] as usize).until
    }
}
