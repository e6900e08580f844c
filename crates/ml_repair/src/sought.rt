//! A label whose slot is sought while an edit is planned.
ghost use Rattle.ml_cone.specs.SiteOf.{IsSiteOf};

use crate::moves::Moves;
use crate::roster::Roster;
use ml_cone::{Label, Site};

/// Where the edited label stands in the roster, and whether it comes or goes.
#[derive(Clone, Copy)]
pub struct Edited {
    pub at: usize,
    pub comes: bool,
}

/// A label whose slot is sought: the label with its site and its place, among which labels, with which new
/// slots, for which edit, and whether many labels have other ends by these.
#[derive(Clone, Copy)]
pub struct Sought<'a> {
    pub roster: &'a Roster<'a>,
    pub moves: &'a Moves,
    pub low: &'a Label,
    pub site: Site,
    pub edited: Edited,
    pub many: bool,
    pub place: usize,
    ghost its_site: { IsSiteOf site low.now },
}
