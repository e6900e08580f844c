//! All edits of a generated map, one after another.
ghost use Rattle.std.specs.Prelude.{◌≡◌, ◌+◌, ◌++◌, ◌≤◌, length, map, All, IfOk, OnOk, codes};
ghost use Rattle.ml_ratio.specs.Limits.{most_labels};
ghost use Rattle.ml_editor.specs.State.{HasFeature, last_rev};
ghost use Rattle.ml_gen.specs.Group.{IsGroupPlace, HaveOwnNumbers};
ghost use Rattle.ml_gen.specs.Thing.{id_of};
ghost use Rattle.ml_gen.specs.Turn.{goes, comes, Run};

use crate::counts::Counts;
use crate::group::Group;
use crate::turn::{put_back, take_out};
use ml_editor::Editor;
use ml_ratio::Steps;
use std::alloc::{AllocError, Global};
use std::sync::ledger::Ledger;

// The first town of each group goes, in the order in which the groups are given.
fn take_all_out<L: Ledger>(
    alloc: Global,
    editor: &mut Editor,
    groups: &[Group],
    steps: &mut Steps<L>,
) -> Result<Vec<Counts>, AllocError>
    requires placed { All IsGroupPlace groups.now }
    requires own { HaveOwnNumbers groups.now }
    requires there { All
        (λ group. HasFeature editor.old.state.features (id_of group (codes "a"))) groups.now }
    requires early { editor.old.state.rev + length groups.now ≤ last_rev }
    ensures run { IfOk result
        (λ each. Run editor.old.state (map goes groups.now) each.items editor.new.state) }
    ensures gone { OnOk result (All
        (λ group. ¬ (HasFeature editor.new.state.features (id_of group (codes "a")))) groups.now) }
    ensures fewer { OnOk result
        (length editor.new.state.features + length groups.now ≤ length editor.old.state.features) }
    ensures rev { OnOk result (editor.new.state.rev ≡ editor.old.state.rev + length groups.now) }
{
    let mut each = Vec::new(alloc);
    for group in groups {
        each.push(take_out(alloc, editor, group, steps)?)?;
    }
    Ok(each)
}

// The first town of each group comes again, in the order in which the groups are given.
fn put_all_back<L: Ledger>(
    alloc: Global,
    editor: &mut Editor,
    groups: &[Group],
    steps: &mut Steps<L>,
) -> Result<Vec<Counts>, AllocError>
    requires placed { All IsGroupPlace groups.now }
    requires own { HaveOwnNumbers groups.now }
    requires gone { All
        (λ group. ¬ (HasFeature editor.old.state.features (id_of group (codes "a")))) groups.now }
    requires few { length editor.old.state.features + length groups.now ≤ most_labels }
    requires early { editor.old.state.rev + length groups.now ≤ last_rev }
    ensures run { IfOk result
        (λ each. Run editor.old.state (map comes groups.now) each.items editor.new.state) }
{
    let mut each = Vec::new(alloc);
    for group in groups {
        each.push(put_back(alloc, editor, group, steps)?)?;
    }
    Ok(each)
}

/// The first town of each group goes, in the order in which the groups are given, and then each comes
/// again.
///
/// # Errors
/// Out of memory.
pub(crate) fn edit_all<L: Ledger>(
    alloc: Global,
    editor: &mut Editor,
    groups: &[Group],
    steps: &mut Steps<L>,
) -> Result<Vec<Counts>, AllocError>
    requires placed { All IsGroupPlace groups.now }
    requires own { HaveOwnNumbers groups.now }
    requires there { All
        (λ group. HasFeature editor.old.state.features (id_of group (codes "a"))) groups.now }
    requires few { length editor.old.state.features ≤ most_labels }
    requires early { editor.old.state.rev + (length groups.now + length groups.now) ≤ last_rev }
    ensures run { IfOk result (λ each. Run editor.old.state
        (map goes groups.now ++ map comes groups.now) each.items editor.new.state) }
{
    let mut each = take_all_out(alloc, editor, groups, steps)?;
    let others = put_all_back(alloc, editor, groups, steps)?;
    each.extend_from_slice(&others)?;
    Ok(each)
}
