//! Laws of a grid's entries. Each function takes nothing and does nothing: its contract is the law, for
//! all values.
ghost use Rattle.std.specs.Prelude.{ℕ, List, ◌↔◌};
ghost use Rattle.ml_ratio.specs.Fraction.{value_of};
ghost use Rattle.ml_ratio.specs.declared.ratio.Ratio.{Ratio};
ghost use Rattle.ml_cone.specs.Choice.{ActiveUntil, IsEnd};
ghost use Rattle.ml_cone.specs.Shown.{IsInView};
ghost use Rattle.ml_cone.specs.declared.label.Label.{Label};
ghost use Rattle.ml_cone.specs.declared.view.View.{View};
ghost use Rattle.ml_grid.specs.Entry.{Entry, IsEntryOf, Adds, LosesEntries, Replaces, IsFree, AreEntriesOf};
ghost use Rattle.ml_ratio.specs.Band.{IsInBand};
ghost use Rattle.ml_grid.specs.Count.{AreCounted, entry_count};
ghost use Rattle.ml_grid.specs.Window.{HasFewCells};
ghost use Rattle.ml_grid.specs.Found.{IsNumberOf, IsSeen};
ghost use Rattle.ml_grid.specs.Near.{IsNear};

use ml_cone::laws::{hulls_are_few, seen_in_cell};

/// A label's entries are as many as [`Grid::entries`](crate::Grid::entries) tells.
pub fn entries_counted()
    ensures { (number : ℕ) (label : Label) (until : Ratio) →
        AreCounted (IsEntryOf number label until) (entry_count label) }
{
    hulls_are_few();
}

/// What came in under a free number is what has this number: so it can go again.
pub fn added_are_its()
    ensures { (number : ℕ) (label : Label) (until : Ratio) (before after : List Entry) →
        IsFree number before → Adds (IsEntryOf number label until) before after →
        AreEntriesOf number label until after }
{}

/// The entries of a label that got another end are those of the label with this end.
pub fn moved_are_its()
    ensures { (number : ℕ) (label : Label) (from to : Ratio) (before after : List Entry) →
        AreEntriesOf number label from before →
        Replaces (IsEntryOf number label from) (IsEntryOf number label to) before after →
        AreEntriesOf number label to after }
{}

/// The numbers that are seen in a window are exactly those of the labels near the view.
pub fn seen_are_near()
    ensures { (label : Label) (number : ℕ) (until : Ratio) (entries : List Entry) (view : View) →
        IsEnd label (value_of until) → AreEntriesOf number label until entries →
        IsNumberOf (IsSeen view) entries number ↔ IsNear label until view }
{}

/// The cells of the band of a view's scale that meet its window are at most 81: nine columns and nine rows.
pub fn windows_are_few()
    ensures { (view : View) (k : ℕ) → IsInBand (value_of view.scale) k → HasFewCells view k }
{}

/// Each label that a view shows is seen in its window.
pub fn shown_seen()
    ensures { (label : Label) (number : ℕ) (until : Ratio) (entries : List Entry) (view : View) →
        IsEnd label (value_of until) → AreEntriesOf number label until entries →
        ActiveUntil label (value_of until) (value_of view.scale) → IsInView label view →
        IsNumberOf (IsSeen view) entries number }
{
    seen_in_cell();
}
