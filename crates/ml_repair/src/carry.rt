//! How plans are carried out.
ghost use Rattle.std.specs.Prelude.{◌≡◌, ◌+◌, ◌<◌, ◌≤◌};
ghost use Rattle.ml_cone.specs.Label.{IsLabelList};
ghost use Rattle.ml_grid.specs.Count.{entry_count};
ghost use Rattle.ml_store.specs.Pairs.{pair_count};
ghost use Rattle.ml_store.specs.Rows.{labels_in, HasId};
ghost use Rattle.ml_repair.specs.Carry.{CanComeIn, HasRoomIn, gone_count};
ghost use Rattle.ml_repair.specs.Plan.{IsPlanOf, HasRoom, CanBeMade, room_of, planned_rows, kept_rows, without_id, with_row, rows_with};
ghost use Rattle.ml_repair.specs.Settled.{IsSettled};

use crate::edit::LabelEdit;
use crate::place::place_for;
use crate::plan::Plan;
use crate::planning::place_of_id;
use crate::roster::Roster;
use ml_ratio::Text;
use ml_store::{Row, Store};

// The label with the id goes.
fn take_id(store: &mut Store, id: &Text)
    requires up { IsLabelList (labels_in store.old.rows) }
    requires live { HasId (labels_in store.old.rows) id.now }
    ensures rows { store.new.rows ≡ without_id id.now store.old.rows }
    ensures labels { store.new.labels ≡ store.old.labels + 1 }
    ensures cells { store.old.cells ≤ store.new.cells }
    ensures blocks { store.old.blocks ≤ store.new.blocks }
{
    let at = place_of_id(store, id);
    let _row = store.take(at);
}

// The label goes that an edit takes out, if it does.
fn let_go(store: &mut Store, edit: &LabelEdit)
    requires up { IsLabelList (labels_in store.old.rows) }
    requires possible { CanBeMade edit.now store.old.rows }
    ensures rows { store.new.rows ≡ kept_rows edit.now store.old.rows }
    ensures labels { store.new.labels ≡ store.old.labels + gone_count edit.now }
    ensures cells { store.old.cells ≤ store.new.cells }
    ensures blocks { store.old.blocks ≤ store.new.blocks }
{
    match edit {
        LabelEdit::Add(_) => {}
        LabelEdit::Remove(id) => take_id(store, id),
        LabelEdit::Replace(row) => take_id(store, row.label.id()),
    }
}

// The label comes in, in its place.
fn insert_row(store: &mut Store, row: Box<Row>)
    requires up { IsLabelList (labels_in store.old.rows) }
    requires comes { CanComeIn row.value store.old.rows }
    requires labels { 0 < store.old.labels }
    requires cells { entry_count row.value.label ≤ store.old.cells }
    requires blocks { pair_count row.value.slot.blocker ≤ store.old.blocks }
    ensures { store.new.rows ≡ with_row row.value store.old.rows }
{
    let roster = Roster::of_all(store);
    let at = place_for(&roster, row.label.order());
    store.put(at, row);
}

// The label of an edit comes in, if one does.
fn let_in(store: &mut Store, edit: LabelEdit)
    requires settled { IsSettled (rows_with edit store.old.rows) }
    requires room { HasRoomIn edit store.old }
    ensures { store.new.rows ≡ rows_with edit store.old.rows }
{
    match edit {
        LabelEdit::Add(row) => insert_row(store, row),
        LabelEdit::Remove(_) => {}
        LabelEdit::Replace(row) => insert_row(store, row),
    }
}

/// The plan is carried out. It takes no memory, and cannot fail.
pub fn carry_out(store: &mut Store, plan: Plan)
    requires settled { IsSettled store.old.rows }
    requires of_state { IsPlanOf plan store.old.rows }
    requires reserved { HasRoom (room_of plan) store.old }
    ensures { store.new.rows ≡ planned_rows plan store.old.rows }
{
    let Plan {
        edit,
        moved,
        changes: _,
        evaluated: _,
    } = plan;
    let_go(store, &edit);
    store.set_slots(&moved);
    let_in(store, edit);
}
