//! Laws of what watchers hear, and of ids in lines. Each function takes nothing and does nothing: its contract is the law,
//! for all values. A crate above uses a law by calling it.
ghost use Rattle.std.specs.Prelude.{ℕ, ◌≡◌, ◌≤◌, ◌++◌, [], List, All, IsUtf8};
ghost use Rattle.ml_watch.specs.Hearing.{AllHear};
ghost use Rattle.ml_watch.specs.Line.{id_text};
ghost use Rattle.ml_watch.specs.Spelling.{Spells};
ghost use Rattle.ml_watch.specs.declared.change.Change.{Change};

use crate::watcher::Watcher;

/// Watchers that were told nothing are as they were.
pub fn hear_nothing<W: Watcher>()
    ensures { (watchers : List W) → AllHear W.hearing [] watchers watchers }
{}

/// Watchers that were told some changes and then others were told them all.
pub fn hear_twice<W: Watcher>()
    ensures { (first second : List Change) (old between new : List W) →
        AllHear W.hearing first old between → AllHear W.hearing second between new →
        AllHear W.hearing (first ++ second) old new }
{}

/// A text spells one id at most.
pub fn one_spelling()
    ensures { (text id other : List ℕ) → Spells text id → Spells text other → id ≡ other }
{}

/// An id that is a text stands in a line as visible ASCII alone, without a blank.
pub fn visible_ids()
    ensures { (id : List ℕ) → IsUtf8 id → All (λ byte. (35 ≤ byte) × (byte ≤ 126)) (id_text id) }
{}
