//! Which tiles an edit drops: those that show what it changes, as it was or as it will be.
ghost use Rattle.std.specs.Prelude.{◌≡◌, Some};
ghost use Rattle.std.specs.Option.{option_copied};
ghost use Rattle.ml_store.specs.Rows.{labels_in, slots_in};
ghost use Rattle.ml_repair.specs.Changes.{IsChange, IsTold};
ghost use Rattle.ml_editor.specs.Editing.{IsEditing, IsLabelWith, IsReady, id_of, rows_after};
ghost use Rattle.ml_http.specs.Step.{work_of};
ghost use Rattle.ml_http.specs.TileWork.{Drops, IsDoneTo, IsForgotten, ShowsChange, ShowsChanges, ShowsId};

use ml_cone::{Label, Span};
use ml_editor::{Editor, Ready};
use ml_ratio::Text;
use ml_repair::laws::{changes_tell, one_label_an_id};
use ml_tile::Tiles;
use ml_watch::Change;

/// Drops the tiles that show a label which the ready edit changes, as it is or as it will be; all of
/// them where the edit is a new style. It takes no memory.
pub(crate) fn forget_changes(editor: &Editor, tiles: &mut Tiles, ready: &Ready)
    requires { IsReady ready.now editor.now.state editor.now.engine.rows }
    ensures { IsDoneTo (work_of ready.now.edit editor.now.engine.rows
        (rows_after ready.now.work editor.now.engine.rows))
        ready.now.changes tiles.old tiles.new }
{
    match ready.edited_id() {
        Some(id) => forget_shown(editor, tiles, ready, id),
        None => tiles.clear(),
    }
}

// Drops the tiles that show a label which the edit of the feature with this id changes.
fn forget_shown(editor: &Editor, tiles: &mut Tiles, ready: &Ready, id: &Text)
    requires of_state { IsReady ready.now editor.now.state editor.now.engine.rows }
    requires id { id_of ready.now.edit ≡ Some id.now }
    ensures { Drops (ShowsChanges editor.now.engine.rows
        (rows_after ready.now.work editor.now.engine.rows) ready.now.changes)
        tiles.old tiles.new }
{
    // (then the labels of the changes need not be looked up, of which there may be thousands)
    if tiles.len() == 0 {
        return;
    }
    for change in ready.changes().as_slice() {
        forget_change(editor, tiles, ready, id, change);
    }
}

// Drops the tiles that show the label of one change.
fn forget_change(editor: &Editor, tiles: &mut Tiles, ready: &Ready, id: &Text, change: &Change)
    requires of_state { IsReady ready.now editor.now.state editor.now.engine.rows }
    requires id { id_of ready.now.edit ≡ Some id.now }
    requires change { IsChange (labels_in editor.now.engine.rows) (slots_in editor.now.engine.rows)
        (labels_in (rows_after ready.now.work editor.now.engine.rows))
        (slots_in (rows_after ready.now.work editor.now.engine.rows)) change.now }
    ensures { Drops (ShowsChange editor.now.engine.rows
        (rows_after ready.now.work editor.now.engine.rows) change.now) tiles.old tiles.new }
{
    changes_tell();
    forget_before(editor, tiles, change);
    forget_after(editor, tiles, ready, id, change);
}

// Drops the tiles that show the label of a change as it is before the edit.
fn forget_before(editor: &Editor, tiles: &mut Tiles, change: &Change)
    requires { IsTold editor.now.engine.rows change.now.id change.now.before }
    ensures { Drops (ShowsId editor.now.engine.rows change.now.id) tiles.old tiles.new }
{
    one_label_an_id();
    forget_label(tiles, label_with(editor, &change.id), &change.before);
}

// Drops the tiles that show the label of a change as it is after the edit.
fn forget_after(editor: &Editor, tiles: &mut Tiles, ready: &Ready, id: &Text, change: &Change)
    requires of_state { IsReady ready.now editor.now.state editor.now.engine.rows }
    requires id { id_of ready.now.edit ≡ Some id.now }
    requires told { IsTold
        (rows_after ready.now.work editor.now.engine.rows) change.now.id change.now.after }
    ensures { Drops (ShowsId (rows_after ready.now.work editor.now.engine.rows) change.now.id)
        tiles.old tiles.new }
{
    one_label_an_id();
    let label = if change.id == *id {
        ready.edited()
    } else {
        label_with(editor, &change.id)
    };
    forget_label(tiles, label, &change.after);
}

// Drops the tiles that show the label, active in the span, where both are there.
fn forget_label(tiles: &mut Tiles, label: Option<&Label>, span: &Option<Span>)
    ensures { IsForgotten (option_copied label.entry) span.now tiles.old tiles.new }
{
    match (label, span) {
        (Some(label), Some(span)) => tiles.forget(label, span),
        _ => {}
    }
}

// The label with this id, if there is one.
fn label_with<'a>(editor: &'a Editor, id: &Text) -> Option<&'a Label>
    ensures label { IsLabelWith (labels_in editor.now.engine.rows) (option_copied result) id.now }
    ensures holds { IsEditing editor.now }
{
    match editor.number_of(id) {
        Some(number) => Some(editor.label_at(number)),
        None => None,
    }
}
