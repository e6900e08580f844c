//! Carrying out an edit that is ready.
ghost use Rattle.std.specs.Prelude.{◌≡◌};
ghost use Rattle.ml_watch.specs.Hearing.{AllHear};
ghost use Rattle.ml_store.specs.Rows.{labels_in, slots_in};
ghost use Rattle.ml_repair.specs.Changes.{AreChanges};
ghost use Rattle.ml_editor.specs.State.{step};
ghost use Rattle.ml_editor.specs.Editing.{IsEditing, IsReady, HasRoomFor};

use crate::carry::{edit_map, work_on};
use crate::draft::Draft;
use crate::editor::Editor;
use crate::ready::Ready;
use ml_watch::{Crowd, Watcher};

impl Editor {
    /// Carries out an edit that was made ready for the present state and for which there is room, and
    /// tells the crowd what it changes. It takes no memory and cannot fail.
    ///
    /// That the edit is of the present state and has its room is all that is asked. Other edits may
    /// have been made ready in between and given up, since that changes neither.
    pub fn commit<W: Watcher>(&mut self, ready: Ready, crowd: &mut Crowd<W>)
        requires of_state { IsReady ready self.old.state self.old.engine.rows }
        requires room { HasRoomFor ready self.old }
        ensures step { self.new.state ≡ step self.old.state ready.edit }
        ensures told { AllHear W.hearing ready.changes crowd.old crowd.new }
        ensures changes { AreChanges (labels_in self.old.engine.rows)
            (slots_in self.old.engine.rows)
            (labels_in self.new.engine.rows) (slots_in self.new.engine.rows) ready.changes }
        ensures stood { IsEditing self.old }
        ensures holds { IsEditing self.new }
    {
        let Ready { edit, draft, rev } = ready;
        let Draft {
            key,
            work,
            label: _,
        } = draft;
        crowd.tell_all(work.changes());
        work_on(&mut self.engine, work);
        edit_map(&mut self.style, &mut self.features, edit, key);
        self.revision = rev;
    }
}
