//! The parts of an edit that is carried out.
ghost use Rattle.std.specs.Prelude.{◌≡◌, ◌≤◌, OnOk};
ghost use Rattle.ml_repair.specs.Plan.{KeepsRoom};
ghost use Rattle.ml_repair.specs.Settled.{IsSettled};
ghost use Rattle.ml_editor.specs.State.{IsAllowed, features_after, style_after};
ghost use Rattle.ml_editor.specs.Editing.{IsKeyOf, IsWorkOn, HasRoomForWork, HasRoomForFeature, rows_after};

use crate::edit::Edit;
use crate::features::Features;
use crate::work::Work;
use ml_ratio::Text;
use ml_repair::Engine;
use ml_style::Style;
use std::alloc::AllocError;

/// Makes the work on the labels, for which there is room. It takes no memory and cannot fail.
pub(crate) fn work_on(engine: &mut Engine, work: Work)
    requires of_labels { IsWorkOn work engine.old.rows }
    requires room { HasRoomForWork work engine.old }
    ensures { engine.new.rows ≡ rows_after work engine.old.rows }
{
    match work {
        Work::Nothing(_) => {}
        Work::Plans(plan) => engine.apply(plan),
        Work::Rebuilds(rebuilt, _) => *engine = rebuilt,
    }
}

/// Makes the edit on the style and the features, which allow it and for which there is room. It takes
/// no memory and cannot fail.
pub(crate) fn edit_map(style: &mut Style, features: &mut Features, edit: Edit, key: Text)
    requires allowed { IsAllowed features.old.list edit }
    requires key { IsKeyOf edit key }
    requires room { HasRoomForFeature edit features.old.room }
    ensures features { features.new.list ≡ features_after features.old.list edit }
    ensures style { style.new ≡ style_after style.old edit }
{
    match edit {
        Edit::Add(feature) => features.add(key, feature),
        Edit::Replace(feature) => features.replace(key, feature),
        Edit::Remove(id) => features.remove(&id),
        Edit::Restyle(new) => *style = new,
    }
}

/// Takes the room for the feature that comes, if one does.
///
/// # Errors
/// Out of memory.
pub(crate) fn reserve_feature(features: &mut Features, edit: &Edit) -> Result<(), AllocError>
    ensures ok { OnOk result (HasRoomForFeature edit.now features.new.room) }
    ensures same { features.new.list ≡ features.old.list }
    ensures room { features.old.room ≤ features.new.room }
{
    match edit {
        Edit::Add(_) => features.reserve(),
        Edit::Replace(_) => Ok(()),
        Edit::Remove(_) => Ok(()),
        Edit::Restyle(_) => Ok(()),
    }
}

/// Takes the room for the work.
///
/// # Errors
/// Out of memory.
pub(crate) fn reserve_work(engine: &mut Engine, work: &Work) -> Result<(), AllocError>
    requires { IsWorkOn work.now engine.old.rows }
    ensures ok { OnOk result (HasRoomForWork work.now engine.new) }
    ensures same { engine.new.rows ≡ engine.old.rows }
    ensures room { KeepsRoom engine.old engine.new }
{
    match work {
        Work::Nothing(_) => Ok(()),
        Work::Plans(plan) => engine.reserve(plan),
        Work::Rebuilds(_, _) => Ok(()),
    }
}
