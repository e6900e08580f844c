//! One edit of a generated map, with the view that is asked behind it.
ghost use Rattle.std.specs.Prelude.{◌≡◌, ◌<◌, ◌^◌, pos, ◌+ℤ◌, length, IfOk, OnOk, codes};
ghost use Rattle.ml_ratio.specs.Limits.{most_labels};
ghost use Rattle.ml_cone.specs.declared.view.View.{View as ViewOfMap};
ghost use Rattle.ml_ratio.specs.declared.feature.Feature.{Feature as FeatureOfMap};
ghost use Rattle.ml_editor.specs.State.{HasFeature, last_rev, step};
ghost use Rattle.ml_editor.specs.Editing.{IsReady, HasRoomFor};
ghost use Rattle.ml_editor.specs.declared.edit.Edit.TheVariants.{Add as add_edit, Remove as remove_edit};
ghost use Rattle.ml_gen.specs.Group.{IsGroupPlace};
ghost use Rattle.ml_gen.specs.Thing.{id_of as group_id};
ghost use Rattle.ml_gen.specs.Turn.{goes, comes, IsViewOf, Shows, IsMade, IsTurn};

use crate::counts::Counts;
use crate::group::Group;
use crate::things::{first_town, id_of, moved};
use ml_cone::View;
use ml_editor::{EditFault, Editor, Ready};
use ml_geojson::laws::one_feature;
use ml_geojson::write_feature;
use ml_ratio::{Ratio, Steps};
use ml_watch::{Crowd, MemWatcher};
use std::alloc::{AllocError, Global};
use std::sync::ledger::Ledger;

// The scale at which views are asked.
fn scale_of_views() -> Ratio
    ensures num { result.num ≡ 30 }
    ensures den { result.den ≡ 1 }
{
    match Ratio::of(30, 1) {
        Some(scale) => scale,
        None => unreachable!(),
    }
}

// The view of a group: 1024 by 1024 pixels about its second town, at scale 30.
fn view_of(group: &Group) -> View
    requires { IsGroupPlace group.now }
    ensures { IsViewOf group.now result }
{
    let east = moved(group.x, 400);
    let north = moved(group.y, 0);
    match View::of(east, north, 1024, 1024, scale_of_views()) {
        Some(view) => view,
        None => unreachable!(),
    }
}

// How many labels the view of a group shows.
fn count_shown<L: Ledger>(
    alloc: Global,
    editor: &Editor,
    group: &Group,
    steps: &mut Steps<L>,
) -> Result<usize, AllocError>
    requires { IsGroupPlace group.now }
    ensures { IfOk result
        (λ n. (view : ViewOfMap) × IsViewOf group.now view × Shows editor.now.state view n) }
{
    let _rev = editor.rev();
    let view = view_of(group);
    let numbers = editor.shown(alloc, &view, steps)?;
    Ok(numbers.len())
}

// Carries an edit out, with nobody to tell, and asks the view of a group behind it.
fn carry_out<L: Ledger>(
    alloc: Global,
    editor: &mut Editor,
    ready: Ready,
    group: &Group,
    steps: &mut Steps<L>,
) -> Result<Counts, AllocError>
    requires placed { IsGroupPlace group.now }
    requires of_state { IsReady ready editor.old.state editor.old.engine.rows }
    requires room { HasRoomFor ready editor.old }
    ensures made { IfOk result
        (λ counts. IsMade ready.edit group.now editor.old.state counts editor.new.state) }
{
    let _rev = editor.rev();
    let changes = ready.changes().len();
    let evaluated = ready.evaluated();
    let mut nobody: Crowd<MemWatcher> = Crowd::new(Vec::new(alloc));
    editor.commit(ready, &mut nobody);
    let shown = count_shown(alloc, editor, group, steps)?;
    Ok(Counts {
        shown,
        changes,
        evaluated,
    })
}

/// The first town of a group goes.
///
/// # Errors
/// Out of memory.
pub(crate) fn take_out<L: Ledger>(
    alloc: Global,
    editor: &mut Editor,
    group: &Group,
    steps: &mut Steps<L>,
) -> Result<Counts, AllocError>
    requires placed { IsGroupPlace group.now }
    requires there { HasFeature editor.old.state.features (group_id group.now (codes "a")) }
    requires early { editor.old.state.rev < last_rev }
    ensures turn { IfOk result
        (λ counts. IsTurn (goes group.now) editor.old.state counts editor.new.state) }
    ensures state { OnOk result
        (editor.new.state ≡ step editor.old.state (remove_edit (group_id group.now (codes "a")))) }
{
    let id = id_of(alloc, group, "a")?;
    let ready = match editor.prepare_remove(alloc, None, &id, steps) {
        Ok(ready) => ready,
        Err(EditFault::Memory) => return Err(AllocError),
        Err(_) => unreachable!(),
    };
    carry_out(alloc, editor, ready, group, steps)
}

/// The first town of a group comes again.
///
/// # Errors
/// Out of memory.
pub(crate) fn put_back<L: Ledger>(
    alloc: Global,
    editor: &mut Editor,
    group: &Group,
    steps: &mut Steps<L>,
) -> Result<Counts, AllocError>
    requires placed { IsGroupPlace group.now }
    requires gone { ¬ (HasFeature editor.old.state.features (group_id group.now (codes "a"))) }
    requires few { length editor.old.state.features < most_labels }
    requires early { editor.old.state.rev < last_rev }
    ensures turn { IfOk result
        (λ counts. IsTurn (comes group.now) editor.old.state counts editor.new.state) }
    ensures state { OnOk result ((f : FeatureOfMap) × (f.id ≡ group_id group.now (codes "a"))
        × (editor.new.state ≡ step editor.old.state (add_edit f))) }
{
    one_feature();
    let town = first_town(alloc, group)?;
    let body = write_feature(alloc, &town)?;
    let ready = match editor.prepare_add(alloc, None, body.as_slice(), steps) {
        Ok(ready) => ready,
        Err(EditFault::Memory) => return Err(AllocError),
        Err(_) => unreachable!(),
    };
    carry_out(alloc, editor, ready, group, steps)
}
