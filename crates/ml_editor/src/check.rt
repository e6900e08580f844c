//! What refuses an edit.
ghost use Rattle.std.specs.Prelude.{◌≡◌, ◌<◌, length, IfOk, IfErr, OnOk, MatchBool};
ghost use Rattle.ml_ratio.specs.Limits.{most_labels};
ghost use Rattle.ml_geojson.specs.Map.{IsFeature};
ghost use Rattle.ml_style.specs.StyleTable.{IsStyle};
ghost use Rattle.ml_editor.specs.State.{HasFeature, IsAllowed};
ghost use Rattle.ml_editor.specs.Editing.{IsEditing};
ghost use Rattle.ml_editor.specs.Faults.{IsMoved, IsPresent, IsLast, IsBarred, IsMissing, IsNoFeature, IsNoStyle, IsUnread, IsDenied, IsRefused, IsFault, IsGranted, AsksFor, OrMemory, wish_of};

use crate::asked::Asked;
use crate::edit::Edit;
use crate::editor::Editor;
use crate::fault::EditFault;
use ml_geojson::{GeoFault, read_feature};
use ml_ratio::{Feature, MOST_LABELS, Text};
use ml_style::{Style, StyleFault, read_style};
use std::alloc::Global;

/// The last revision, 2^53.
pub const LAST_REV: u64 = 9007199254740992;

// The feature that the body is, with its id.
fn read_feature_body(alloc: Global, body: &[u8]) -> Result<Feature, EditFault>
    ensures ok { IfOk result (IsFeature body.now) }
    ensures err { IfErr result (OrMemory (IsNoFeature body.now)) }
{
    match read_feature(alloc, body) {
        Ok(feature) => Ok(feature),
        Err(GeoFault::Memory) => Err(EditFault::Memory),
        Err(fault) => Err(EditFault::Geo(fault)),
    }
}

// The style that the body is.
fn read_style_body(alloc: Global, body: &[u8]) -> Result<Style, EditFault>
    ensures ok { IfOk result (IsStyle body.now) }
    ensures err { IfErr result (OrMemory (IsNoStyle body.now)) }
{
    match read_style(alloc, body) {
        Ok(style) => Ok(style),
        Err(StyleFault::Memory) => Err(EditFault::Memory),
        Err(fault) => Err(EditFault::Style(fault)),
    }
}

// The edit that is asked for.
fn read_edit(alloc: Global, asked: Asked<'_>) -> Result<Edit, EditFault>
    ensures ok { IfOk result (AsksFor (wish_of asked.entry)) }
    ensures err { IfErr result (OrMemory (IsUnread (wish_of asked.entry))) }
{
    match asked {
        Asked::Add(body) => Ok(Edit::Add(read_feature_body(alloc, body)?)),
        Asked::Replace(body) => Ok(Edit::Replace(read_feature_body(alloc, body)?)),
        Asked::Remove(id) => Ok(Edit::Remove(Text::of(alloc, id)?)),
        Asked::Restyle(body) => Ok(Edit::Restyle(read_style_body(alloc, body)?)),
    }
}

impl Editor {
    // Whether no other revision was asked for than the present one.
    fn check_rev(&self, rev: Option<u64>) -> Result<(), EditFault>
        ensures ok { OnOk result (IsPresent self.now.state rev) }
        ensures err { IfErr result (IsMoved self.now.state rev) }
    {
        match rev {
            Some(asked) => if asked == self.revision {
                Ok(())
            } else {
                Err(EditFault::RevMoved(self.revision))
            },
            None => Ok(()),
        }
    }

    // Whether a feature has the id.
    fn has_feature(&self, id: &Text) -> bool
        ensures { MatchBool result (HasFeature self.now.state.features id.now)
            (¬ (HasFeature self.now.state.features id.now)) }
    {
        match self.features.get(id) {
            Some(_) => true,
            None => false,
        }
    }

    // Whether there is no room for one more feature.
    fn is_full(&self) -> bool
        ensures full { MatchBool result (length self.now.state.features ≡ most_labels)
            (length self.now.state.features < most_labels) }
        ensures holds { IsEditing self.now }
    {
        self.features.len() == MOST_LABELS
    }

    // Whether there is no further revision.
    fn is_last(&self) -> bool
        ensures last { MatchBool result (IsLast self.now.state) (¬ (IsLast self.now.state)) }
        ensures holds { IsEditing self.now }
    {
        self.revision == LAST_REV
    }

    // Whether a feature with this id may come as a new one.
    fn check_new(&self, id: &Text) -> Result<(), EditFault>
        ensures ok { OnOk result (¬ (HasFeature self.now.state.features id.now)
            × (length self.now.state.features < most_labels)) }
        ensures err { IfErr result (OrMemory (IsBarred self.now.state.features id.now)) }
    {
        if self.has_feature(id) {
            return Err(EditFault::Duplicate(id.copy()?));
        }
        if self.is_full() {
            return Err(EditFault::Full);
        }
        Ok(())
    }

    // Whether a feature with this id may be replaced or removed.
    fn check_known(&self, id: &Text) -> Result<(), EditFault>
        ensures ok { OnOk result (HasFeature self.now.state.features id.now) }
        ensures err { IfErr result (OrMemory (IsMissing self.now.state.features id.now)) }
    {
        if self.has_feature(id) {
            return Ok(());
        }
        Err(EditFault::Unknown(id.copy()?))
    }

    // Whether the features allow the edit.
    fn check_features(&self, edit: &Edit) -> Result<(), EditFault>
        ensures ok { OnOk result (IsAllowed self.now.state.features edit.now) }
        ensures err { IfErr result (OrMemory (IsDenied self.now.state.features edit.now)) }
    {
        match edit {
            Edit::Add(feature) => self.check_new(&feature.id),
            Edit::Replace(feature) => self.check_known(&feature.id),
            Edit::Remove(id) => self.check_known(id),
            Edit::Restyle(_) => Ok(()),
        }
    }

    // Whether nothing refuses the edit.
    fn check_edit(&self, edit: &Edit) -> Result<(), EditFault>
        ensures ok { OnOk result
            (IsAllowed self.now.state.features edit.now × ¬ (IsLast self.now.state)) }
        ensures err { IfErr result (OrMemory (IsRefused self.now.state edit.now)) }
    {
        self.check_features(edit)?;
        if self.is_last() {
            return Err(EditFault::RevEnd);
        }
        Ok(())
    }

    // The edit that is asked for, if nothing refuses it.
    pub(crate) fn check(
        &self,
        alloc: Global,
        rev: Option<u64>,
        asked: Asked<'_>,
    ) -> Result<Edit, EditFault>
        ensures ok { IfOk result (IsGranted self.now.state rev (wish_of asked.entry)) }
        ensures err { IfErr result (OrMemory (IsFault self.now.state rev (wish_of asked.entry))) }
    {
        self.check_rev(rev)?;
        let edit = read_edit(alloc, asked)?;
        self.check_edit(&edit).and(Ok(edit))
    }
}
