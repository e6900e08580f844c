//! Laws of edits: what refuses them, and what is asked makes. Each function takes nothing and does nothing
//! but call the laws below that it stands on: its contract is the law, for all values.
ghost use Rattle.std.specs.Prelude.{◌≡◌, Option, ℕ};
ghost use Rattle.ml_editor.specs.Faults.{Wish, ExcludeOneAnother, IsGranted, IsFault, AsksFor};
ghost use Rattle.ml_editor.specs.State.{State, IsState, step};
ghost use Rattle.ml_editor.specs.declared.edit.Edit.{Edit};

use ml_geojson::laws::{feature_or_fault, one_fault as one_geo_fault, one_feature};
use ml_style::laws::{one_fault as one_style_fault, one_style, style_or_fault};

/// What is asked of a map is refused for one cause, or it is accepted, unless memory runs out.
pub fn one_refusal()
    ensures { (s : State) (rev : Option ℕ) (wish : Wish) →
        ExcludeOneAnother (IsFault s rev wish) (IsGranted s rev wish) }
{
    one_edit();
    one_geo_fault();
    feature_or_fault();
    one_style_fault();
    style_or_fault();
}

/// What is asked makes one edit at most.
pub fn one_edit()
    ensures { (wish : Wish) (one other : Edit) →
        AsksFor wish one → AsksFor wish other → one ≡ other }
{
    one_feature();
    one_style();
}

/// What the rules accept leads from a state that can be reached to one.
pub fn accepted_is_reached()
    ensures { (s : State) (rev : Option ℕ) (wish : Wish) (edit : Edit) →
        IsState s → IsGranted s rev wish edit → IsState (step s edit) }
{}
