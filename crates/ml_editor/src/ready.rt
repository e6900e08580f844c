//! Edits that are ready to be carried out.
ghost use Rattle.std.specs.Prelude.{◌≡◌};
ghost use Rattle.std.specs.Option.{option_copied};
ghost use Rattle.ml_editor.specs.Editing.{id_of};

use crate::draft::Draft;
use crate::edit::Edit;
use ml_cone::Label;
use ml_ratio::{Seq, Text};
use ml_watch::Change;
use std::marker::Model;

/// An edit that is ready to be carried out, with all the memory that it takes.
///
/// It was made ready for one state of a map. It may be carried out as long as the map is in that state;
/// further calls that make edits ready, or refuse them, leave it so. To let it fall is to give the edit
/// up.
#[derive(Drop)]
pub struct Ready {
    pub(crate) edit: Edit,
    pub(crate) draft: Draft,
    pub(crate) rev: u64,
}

impl Model for Ready {
    ghost use Rattle.std.specs.Coded.{codes};
    ghost use Rattle.ml_editor.specs.contracts.edit.Edit as made_edit;
    ghost use Rattle.ml_editor.specs.contracts.draft.Draft as made_draft;
    ghost use Rattle.ml_editor.specs.Editing.{Prepared, IsKeyOf, prepared};

    ghost Value = { Prepared };

    ghost coded = { Prim.hlevel (codes, made_edit.the_row.coded, made_draft.the_row.coded) };

    ghost view = { λ r. prepared r.edit r.draft r.rev };

    ghost invariant = { λ r. IsKeyOf r.edit r.draft.key };
}

impl Ready {
    /// The revision after the edit.
    pub fn rev(&self) -> u64
        ensures { result ≡ self.now.rev }
    {
        self.rev
    }

    /// What the edit changes of labels and their active ranges, in byte order of ids.
    pub fn changes(&self) -> &Seq<Change>
        ensures { result.now ≡ self.now.changes }
    {
        self.draft.work.changes()
    }

    /// How many labels were evaluated to make the edit ready: a step was spent for each.
    pub fn evaluated(&self) -> u32
        ensures { result ≡ self.now.evaluated }
    {
        self.draft.work.evaluated()
    }

    /// The id of the edit's feature; none for a new style.
    pub fn edited_id(&self) -> Option<&Text>
        ensures { option_copied result ≡ id_of self.now.edit }
    {
        match &self.edit {
            Edit::Add(feature) => Some(&feature.id),
            Edit::Replace(feature) => Some(&feature.id),
            Edit::Remove(id) => Some(id),
            Edit::Restyle(_) => None,
        }
    }
    /// The label that the edit's feature has after the edit; none where it has none, and for a new
    /// style.
    pub fn edited(&self) -> Option<&Label>
        ensures { option_copied result ≡ self.now.label }
    {
        self.draft.label.as_ref()
    }
}
