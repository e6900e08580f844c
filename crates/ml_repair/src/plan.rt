//! Plans of edits.
ghost use Rattle.std.specs.Prelude.{◌≡◌, ◌≤◌, length};
ghost use Rattle.ml_ratio.specs.Limits.{most_labels};
ghost use Rattle.ml_grid.specs.Count.{entry_count};
ghost use Rattle.ml_store.specs.Pairs.{pair_count};
ghost use Rattle.ml_repair.specs.Plan.{room_of, labels_needed, cells_needed, pairs_needed, moved_pairs};

use crate::edit::LabelEdit;
use crate::room::Room;
use ml_cone::{Slot, Span};
use ml_grid::Grid;
use ml_ratio::Seq;
use ml_store::{Moved, Row};
use ml_watch::Change;
use std::marker::Model;

/// What an edit will make of the live labels: the edit itself, and the new slots of labels that stay.
///
/// A plan is of some live labels where its edit can be made there, the slots after it are those of the
/// longest choice, with its blockers, and it tells just what that changes and costs.
#[derive(Drop)]
pub struct Plan {
    pub(crate) edit: LabelEdit,
    pub(crate) moved: Vec<Moved>,
    pub(crate) changes: Seq<Change>,
    pub(crate) evaluated: u32,
}

impl Model for Plan {
    ghost use Rattle.std.specs.Prelude.{length, ◌≤◌};
    ghost use Rattle.ml_ratio.specs.Limits.{most_labels};
    ghost use Rattle.ml_repair.specs.Plan.{Planned};

    ghost Value = { Planned };

    ghost view = { λ p. record { edit = p.edit; moved = p.moved.items; changes = p.changes; evaluated = p.evaluated } };

    ghost invariant = { λ p. length p.moved.items ≤ most_labels };
}

impl Plan {
    /// What the edit changes of labels and their active ranges, in byte order of ids.
    pub fn changes(&self) -> &Seq<Change>
        ensures { result.now ≡ self.now.changes }
    {
        &self.changes
    }

    /// How many labels were evaluated for the plan: a step was spent for each.
    pub fn evaluated(&self) -> u32
        ensures { result ≡ self.now.evaluated }
    {
        self.evaluated
    }

    /// How many new places of labels, entries of the grid and pairs of blocker and blocked the plan may
    /// need at most at once.
    pub fn room(&self) -> Room
        ensures { result ≡ room_of self.now }
    {
        Room {
            labels: labels_for(&self.edit),
            cells: cells_for(&self.edit),
            blocks: pairs_for_moved(&self.moved) + pairs_for(&self.edit),
        }
    }
}

// How many more labels there are after an edit.
fn labels_for(edit: &LabelEdit) -> usize
    ensures { result ≡ labels_needed edit.now }
{
    match edit {
        LabelEdit::Add(_) => 1,
        LabelEdit::Remove(_) => 0,
        LabelEdit::Replace(_) => 0,
    }
}

/// How many entries the row's label has in the grid.
pub(crate) fn cells_of(row: &Row) -> usize
    ensures { result ≡ entry_count row.now.label }
{
    let span = Span {
        min: row.label.min(),
        until: row.slot.until,
    };
    Grid::entries(&row.label, &span)
}

// How many entries of the grid come with an edit.
fn cells_for(edit: &LabelEdit) -> usize
    ensures { result ≡ cells_needed edit.now }
{
    match edit {
        LabelEdit::Add(row) => cells_of(row),
        LabelEdit::Remove(_) => 0,
        LabelEdit::Replace(row) => cells_of(row),
    }
}

/// How many pairs a slot has.
pub(crate) fn pair_count_of(slot: &Slot) -> usize
    ensures count { result ≡ pair_count slot.now.blocker }
    ensures low { result ≤ 1 }
{
    match slot.blocker {
        Some(_) => 1,
        None => 0,
    }
}

// How many pairs come with the label of an edit.
fn pairs_for(edit: &LabelEdit) -> usize
    ensures count { result ≡ pairs_needed edit.now }
    ensures low { result ≤ 1 }
{
    match edit {
        LabelEdit::Add(row) => pair_count_of(&row.slot),
        LabelEdit::Remove(_) => 0,
        LabelEdit::Replace(row) => pair_count_of(&row.slot),
    }
}

// How many pairs come with new slots.
fn pairs_for_moved(moved: &[Moved]) -> usize
    requires { length moved.now ≤ most_labels }
    ensures count { result ≡ moved_pairs moved.now }
    ensures low { result ≤ most_labels }
{
    let mut count = 0;
    for m in moved {
        count += pair_count_of(&m.slot);
    }
    count
}
