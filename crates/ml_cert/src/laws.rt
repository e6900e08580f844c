//! Laws of the verdict. Each function takes nothing and does nothing but call the law below that it
//! stands on: its contract is the law, for all values.
ghost use Rattle.std.specs.Prelude.{◌≡◌, ◌↔◌, ℕ, List, length, codes};
ghost use Rattle.ml_cone.specs.Places.{IsNoId};
ghost use Rattle.ml_cone.specs.Slots.{AreSlots};
ghost use Rattle.ml_cone.specs.declared.label.Label.{Label};
ghost use Rattle.ml_cone.specs.declared.slot.Slot.{Slot};
ghost use Rattle.ml_cert.specs.Judged.{IsVerdict};
ghost use Rattle.ml_cert.specs.SlotsText.{HaveOwnIds, AreSlotLines, IsSlotsFault};

use crate::fault::SlotsFault;
use crate::verdict::Verdict;
use ml_conflict::laws::sound_slots;

/// The verdict is Best exactly where the slots are the longest choice with its blockers.
pub fn l6()
    ensures { (labels : List Label) (slots : List Slot) → length slots ≡ length labels →
        (IsVerdict labels slots Verdict.Best ↔ AreSlots (λ j. j) labels slots) }
{
    sound_slots();
}

/// Slots have one verdict.
pub fn one_verdict()
    ensures { (labels : List Label) (slots : List Slot) (verdict other : Verdict) →
        IsVerdict labels slots verdict → IsVerdict labels slots other → verdict ≡ other }
{}

/// A text of slots has one reading at most, where the labels have ids of their own and none is called
/// `-`; none where it is refused; and one line is at fault.
pub fn one_list_of_slots()
    ensures one { (labels : List Label) (bytes : List ℕ) (slots others : List Slot) →
        HaveOwnIds labels → IsNoId labels (codes "-") →
        AreSlotLines labels bytes slots → AreSlotLines labels bytes others → slots ≡ others }
    ensures faultless { (labels : List Label) (bytes : List ℕ) (slots : List Slot) (k : ℕ) →
        AreSlotLines labels bytes slots → ¬ (IsSlotsFault labels bytes (SlotsFault.BadLine k)) }
    ensures fault { (labels : List Label) (bytes : List ℕ) (k j : ℕ) →
        IsSlotsFault labels bytes (SlotsFault.BadLine k) →
        IsSlotsFault labels bytes (SlotsFault.BadLine j) → k ≡ j }
{}
