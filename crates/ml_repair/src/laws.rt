//! Laws of what edits change. Each function takes nothing and does nothing: its contract is the law, for
//! all values.
ghost use Rattle.std.specs.Prelude.{ℕ, ◌≡◌, List, Contains};
ghost use Rattle.ml_cone.specs.Label.{IsLabelList};
ghost use Rattle.ml_cone.specs.declared.label.Label.{Label};
ghost use Rattle.ml_cone.specs.declared.slot.Slot.{Slot};
ghost use Rattle.ml_watch.specs.declared.change.Change.{Change};
ghost use Rattle.ml_store.specs.Rows.{labels_in, slots_in, HaveOwnNumbers};
ghost use Rattle.ml_store.specs.declared.row.Row.{Row};
ghost use Rattle.ml_repair.specs.Changes.{AreChanges, IsChange, IsChanged, IsTold, StandsAmong};
ghost use Rattle.ml_repair.specs.Cost.{IsCost};
ghost use Rattle.ml_repair.specs.Settled.{IsSettled};

use ml_conflict::laws::l0;

/// A label whose id no change of an edit has stands both before the edit and after it, with the same
/// end.
pub fn unchanged_stays()
    ensures after { (before after : List Row) (changes : List Change) (row : Row) →
        AreChanges (labels_in before) (slots_in before) (labels_in after) (slots_in after) changes →
        Contains before row → ¬ (IsChanged changes row.label.order.id) → StandsAmong after row }
    ensures before { (before after : List Row) (changes : List Change) (row : Row) →
        AreChanges (labels_in before) (slots_in before) (labels_in after) (slots_in after) changes →
        Contains after row → ¬ (IsChanged changes row.label.order.id) → StandsAmong before row }
{}

/// A change tells the active range that the label with its id has before the edit, and the one that it
/// has after it; or that no label has the id.
pub fn changes_tell()
    ensures before { (before after : List Row) (change : Change) →
        IsChange (labels_in before) (slots_in before) (labels_in after) (slots_in after) change →
        IsTold before change.id change.before }
    ensures after { (before after : List Row) (change : Change) →
        IsChange (labels_in before) (slots_in before) (labels_in after) (slots_in after) change →
        IsTold after change.id change.after }
{}

/// No two live labels have one id.
pub fn one_label_an_id()
    ensures { (rows : List Row) (one other : Row) →
        IsSettled rows → Contains rows one → Contains rows other →
        one.label.order.id ≡ other.label.order.id → one ≡ other }
{}

/// No two live labels have one number.
pub fn one_label_a_number()
    ensures { (rows : List Row) (one other : Row) →
        HaveOwnNumbers rows → Contains rows one → Contains rows other →
        one.number ≡ other.number → one ≡ other }
{}

/// The changes between some rows and others are one list.
pub fn one_changes()
    ensures { (labels : List Label) (slots : List Slot) (new_labels : List Label)
        (new_slots : List Slot) (changes others : List Change) →
        AreChanges labels slots new_labels new_slots changes →
        AreChanges labels slots new_labels new_slots others → changes ≡ others }
{}

/// The cost of an edit between two label lists is one number.
pub fn one_cost()
    ensures { (before after : List Label) (id : List ℕ) (cost other : ℕ) →
        IsLabelList before → IsLabelList after →
        IsCost before after id cost → IsCost before after id other → cost ≡ other }
{
    l0();
}
