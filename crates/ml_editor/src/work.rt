//! The work that an edit makes on the labels.
ghost use Rattle.std.specs.Prelude.{◌≡◌};
ghost use Rattle.ml_editor.specs.Editing.{changes_of, evaluated_of};

use ml_ratio::Seq;
use ml_repair::{Engine, Plan};
use ml_watch::Change;

/// What an edit makes of the labels.
#[derive(Drop)]
pub enum Work {
    /// The labels stay, and this list of changes is empty.
    Nothing(Seq<Change>),
    /// One comes, goes or takes the place of another, as the plan says.
    Plans(Plan),
    /// All are made anew, in this engine, with these changes.
    Rebuilds(Engine, Seq<Change>),
}

impl Work {
    /// What the work changes of labels and their active ranges.
    pub(crate) fn changes(&self) -> &Seq<Change>
        ensures { result.now ≡ changes_of self.now }
    {
        match self {
            Work::Nothing(none) => none,
            Work::Plans(plan) => plan.changes(),
            Work::Rebuilds(_, changes) => changes,
        }
    }

    /// How many labels were evaluated for the work.
    pub(crate) fn evaluated(&self) -> u32
        ensures { result ≡ evaluated_of self.now }
    {
        match self {
            Work::Plans(plan) => plan.evaluated(),
            _ => 0,
        }
    }
}
