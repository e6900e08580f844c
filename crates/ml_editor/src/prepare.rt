//! Making edits ready.
ghost use Rattle.std.specs.Prelude.{◌≡◌, ◌+◌, ◌<◌, IfOk, OnOk};
ghost use Rattle.ml_editor.specs.Faults.{adds, replaces, removes, restyles, wish_of};
ghost use Rattle.ml_editor.specs.Editing.{IsKeyOf, IsReady, IsSameMap, HasRoomFor, prepared};
ghost use Rattle.ml_editor.specs.Outcome.{IsPaid, IsPrepared};

use crate::asked::Asked;
use crate::carry::{reserve_feature, reserve_work};
use crate::draft::Draft;
use crate::edit::Edit;
use crate::editor::Editor;
use crate::fault::EditFault;
use crate::laws::one_refusal;
use crate::ready::Ready;
use ml_ratio::{Steps, Text};
use std::alloc::{AllocError, Global};
use std::marker::Brand;
use std::sync::ledger::{Blank, Ledger};

impl Editor {
    /// Makes what is asked ready, with all the memory that it takes. It spends a step for each label that
    /// is evaluated, and none where it is refused. Of what contracts see it changes nothing but the room,
    /// which may grow.
    ///
    /// # Errors
    /// The first that stands of the refusals in [`EditFault`]; out of memory.
    pub fn prepare<L: Ledger>(
        &mut self,
        alloc: Global,
        rev: Option<u64>,
        asked: Asked<'_>,
        steps: &mut Steps<L>,
    ) -> Result<Ready, EditFault>
        ensures outcome { IsPrepared self.old self.new rev (wish_of asked.entry) result }
        ensures paid { IsPaid steps.old steps.new result }
    {
        one_refusal();
        let edit = self.check(alloc, rev, asked)?;
        let draft = self.draft(alloc, &edit, steps)?;
        Ok(self.make_ready(edit, draft)?)
    }

    /// Makes the addition of the feature that the body is ready, as [`Editor::prepare`].
    ///
    /// # Errors
    /// The first that stands of [`EditFault::RevMoved`], [`EditFault::Geo`], [`EditFault::Duplicate`],
    /// [`EditFault::Full`] and [`EditFault::RevEnd`]; out of memory.
    pub fn prepare_add<L: Ledger>(
        &mut self,
        alloc: Global,
        rev: Option<u64>,
        body: &[u8],
        steps: &mut Steps<L>,
    ) -> Result<Ready, EditFault>
        ensures outcome { IsPrepared self.old self.new rev (adds body.now) result }
        ensures paid { IsPaid steps.old steps.new result }
    {
        self.prepare(alloc, rev, Asked::Add(body), steps)
    }

    /// Makes the replacement of the feature with the id of that which the body is ready, as
    /// [`Editor::prepare`].
    ///
    /// # Errors
    /// The first that stands of [`EditFault::RevMoved`], [`EditFault::Geo`], [`EditFault::Unknown`]
    /// and [`EditFault::RevEnd`]; out of memory.
    pub fn prepare_replace<L: Ledger>(
        &mut self,
        alloc: Global,
        rev: Option<u64>,
        body: &[u8],
        steps: &mut Steps<L>,
    ) -> Result<Ready, EditFault>
        ensures outcome { IsPrepared self.old self.new rev (replaces body.now) result }
        ensures paid { IsPaid steps.old steps.new result }
    {
        self.prepare(alloc, rev, Asked::Replace(body), steps)
    }

    /// Makes the removal of the feature with this id ready, as [`Editor::prepare`].
    ///
    /// # Errors
    /// The first that stands of [`EditFault::RevMoved`], [`EditFault::Unknown`] and
    /// [`EditFault::RevEnd`]; out of memory.
    pub fn prepare_remove<L: Ledger>(
        &mut self,
        alloc: Global,
        rev: Option<u64>,
        id: &Text,
        steps: &mut Steps<L>,
    ) -> Result<Ready, EditFault>
        ensures outcome { IsPrepared self.old self.new rev (removes id.now) result }
        ensures paid { IsPaid steps.old steps.new result }
    {
        self.prepare(alloc, rev, Asked::Remove(id.as_str()), steps)
    }

    /// Makes the style that the body is ready in place of the present one, for all features, as
    /// [`Editor::prepare`]. All labels are made anew, so that none is evaluated for it.
    ///
    /// # Errors
    /// The first that stands of [`EditFault::RevMoved`], [`EditFault::Style`] and
    /// [`EditFault::RevEnd`]; out of memory.
    pub fn prepare_style(
        &mut self,
        alloc: Global,
        rev: Option<u64>,
        body: &[u8],
    ) -> Result<Ready, EditFault>
        ensures { IsPrepared self.old self.new rev (restyles body.now) result }
    {
        prepare_counted::<Brand>(self, alloc, rev, Asked::Restyle(body), Blank::new(1))
    }

    // Takes the room for the edit and for the work that is drawn up for it.
    fn reserve_for(&mut self, edit: &Edit, draft: &Draft) -> Result<(), AllocError>
        requires of_state { IsReady (prepared edit.now draft.now
            (self.old.state.rev + 1)) self.old.state self.old.engine.rows }
        ensures ok { OnOk result
            (HasRoomFor (prepared edit.now draft.now (self.old.state.rev + 1)) self.new) }
        ensures same { IsSameMap self.old self.new }
    {
        reserve_feature(&mut self.features, edit)?;
        reserve_work(&mut self.engine, &draft.work)
    }

    // The edit made ready, with the room that it and its work take.
    fn make_ready(&mut self, edit: Edit, draft: Draft) -> Result<Ready, AllocError>
        requires of_state { IsReady
            (prepared edit draft (self.old.state.rev + 1)) self.old.state self.old.engine.rows }
        requires key { IsKeyOf edit draft.key }
        ensures ok { IfOk result (λ ready. ready ≡ prepared edit draft (self.old.state.rev + 1)) }
        ensures room { IfOk result (λ ready. HasRoomFor ready self.new) }
        ensures same { IsSameMap self.old self.new }
    {
        let rev = self.revision + 1;
        self.reserve_for(&edit, &draft)
            .and(Ok(Ready { edit, draft, rev }))
    }
}

// Makes what is asked ready, with a counter of its own.
fn prepare_counted<L: Ledger>(
    editor: &mut Editor,
    alloc: Global,
    rev: Option<u64>,
    asked: Asked<'_>,
    blank: Blank,
) -> Result<Ready, EditFault>
    requires name { blank.name ≡ L.name }
    requires parts { blank.parts ≡ L.parts }
    requires some { 0 < blank.parts }
    ensures { IsPrepared editor.old editor.new rev (wish_of asked.entry) result }
{
    let mut steps: Steps<L> = Steps::new(blank);
    editor.prepare(alloc, rev, asked, &mut steps)
}
