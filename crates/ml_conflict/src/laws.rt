//! Laws of the longest choice. Each function takes nothing and does nothing: its contract is the
//! law, for all values. A crate above uses a law by calling it.
ghost use Rattle.std.specs.Prelude.{ℕ, ◌≡◌, ◌*◌, ◌<◌, ◌≤◌, ◌-ℤ◌, ◌↔◌, ◌⊎◌, unsigned_abs, Bool, IsTrue, List, Option, length, map, slice_index_or};
ghost use Rattle.ml_ratio.specs.Fraction.{Fraction, value_of, IsLess, IsAtMost, IsSame};
ghost use Rattle.ml_ratio.specs.declared.ratio.Ratio.{Ratio};
ghost use Rattle.ml_cone.specs.Choice.{Choice, IsEnd, Allows, IsLimit, IsLongest, IsLeastEnd, IsOwnEnd, Blocks};
ghost use Rattle.ml_cone.specs.Near.{AreClear};
ghost use Rattle.ml_cone.specs.Overlap.{Overlap};
ghost use Rattle.ml_cone.specs.Rivals.{AreRivals};
ghost use Rattle.ml_cone.specs.Slots.{Rival, IsOwnSlot, IsSlotAmong, HaveOwnSlots, IsBlockerBy, AreSlots};
ghost use Rattle.ml_cone.specs.Sound.{IsSound};
ghost use Rattle.ml_cone.specs.declared.label.Label.{Label};
ghost use Rattle.ml_cone.specs.declared.slot.Slot.{Slot};
ghost use Rattle.ml_conflict.specs.Begin.{SetsNoneUpTo};
ghost use Rattle.ml_conflict.specs.Carried.{holds, AreCarried, AreJoined};
ghost use Rattle.ml_conflict.specs.Enough.{AreEnough};
ghost use Rattle.ml_conflict.specs.Reach.{Reaches, anchor_on};
ghost use Rattle.ml_conflict.specs.declared.axis.Axis.{Axis as AnAxis};

/// A choice in which each label's end is the least of its maximum and the limits that the labels
/// before it set is the longest choice.
pub fn greedy()
    ensures { (labels : List Label) (choice : Choice) →
        ((i : ℕ) → i < length labels → IsLeastEnd labels choice i) → IsLongest labels choice }
{}

/// A list of labels has at most one longest choice.
pub fn l0()
    ensures { (labels : List Label) (one other : Choice) →
        IsLongest labels one → IsLongest labels other →
        (i : ℕ) → i < length labels → IsSame (one i) (other i) }
{}

/// Labels have one list of slots that is the longest choice with its blockers; and under choices with the
/// same ends a label has one blocker.
pub fn one_choice()
    ensures slots { (number : ℕ → ℕ) (labels : List Label) (slots others : List Slot) →
        AreSlots number labels slots → AreSlots number labels others → slots ≡ others }
    ensures blocker { (number : ℕ → ℕ) (labels : List Label) (one other : Choice) →
        ((k : ℕ) → k < length labels → IsSame (one k) (other k)) →
        (i : ℕ) → i < length labels → (x y : Option ℕ) →
        IsBlockerBy number labels one i x → IsBlockerBy number labels other i y → x ≡ y }
{}

/// A choice is the longest exactly where each label's end is the greatest that the labels before it
/// allow.
pub fn own_ends()
    ensures { (labels : List Label) (choice : Choice) →
        ((i : ℕ) → i < length labels → IsOwnEnd labels choice i) ↔ IsLongest labels choice }
{}

/// Slots are the longest choice with its blockers exactly where each is what the labels before
/// leave.
pub fn own_slots()
    ensures { (number : ℕ → ℕ) (labels : List Label) (slots : List Slot) →
        HaveOwnSlots number labels slots ↔ AreSlots number labels slots }
{}

/// Slots, one for each label, are the longest choice with its blockers exactly where nothing is
/// wrong with any of them.
pub fn sound_slots()
    ensures { (labels : List Label) (slots : List Slot) → length slots ≡ length labels →
        ((i : ℕ) → i < length labels → IsSound labels slots i) ↔ AreSlots (λ j. j) labels slots }
{}

/// Where a label's end is in its range and allowed by a label before it, that label blocks it
/// exactly where the end is below the maximum and is the limit that it sets.
pub fn blocking()
    ensures limits { (labels : List Label) (choice : Choice) (j i : ℕ) (d : Label) →
        IsEnd (slice_index_or labels i d) (choice i) →
        Allows (slice_index_or labels i d) (slice_index_or labels j d) (choice j) (choice i) →
        Blocks labels choice j i →
        IsLimit (slice_index_or labels i d) (slice_index_or labels j d) (choice j) (choice i) }
    ensures blocks { (labels : List Label) (choice : Choice) (j i : ℕ) → j < i →
        ((d : Label) → IsLess (choice i) (value_of (slice_index_or labels i d).max)) →
        ((d : Label) → IsLimit (slice_index_or labels i d) (slice_index_or labels j d)
        (choice j) (choice i)) → Blocks labels choice j i }
{}

/// A label that is active until an earlier end allows another one more, and an end below one that
/// is allowed is allowed.
pub fn smaller_ends()
    ensures { (low high : Label) (u v e f : Fraction) → IsAtMost v u →
        IsAtMost e f → Allows low high u f → Allows low high v e }
{}

/// A limit is one by value: of the limit, and of the end until which the other label is active.
pub fn same_limits()
    ensures { (low high : Label) (u v f g : Fraction) → IsSame u v →
        IsSame f g → IsLimit low high u f → IsLimit low high v g }
{}

/// A bound in a label's range is allowed by another that sets it no limit up to there.
pub fn allowed_up_to()
    ensures { (low high : Label) (u bound : Fraction) → IsAtMost bound (value_of low.max) →
        SetsNoneUpTo low high u bound → Allows low high u bound }
{}

/// Labels that overlap at no scale up to some one above a bound set each other no limit up to the bound.
pub fn clear_labels()
    ensures { (low high : Label) (u bound : Fraction) →
        AreClear low high bound.num bound.den → SetsNoneUpTo low high u bound }
{}

/// A label that is active until an end sets another one no limit where they overlap at no scale up to some one
/// above that end.
pub fn ended_labels()
    ensures { (low high : Label) (u bound : Fraction) →
        AreClear low high u.num u.den → SetsNoneUpTo low high u bound }
{}

/// A label whose active range is empty sets another one no limit.
pub fn idle_labels()
    ensures { (low high : Label) (u bound : Fraction) →
        IsAtMost u (value_of high.min) → SetsNoneUpTo low high u bound }
{}

/// Labels overlap at no scale below an end where their anchors are further apart on an axis than they reach
/// toward each other there up to that end.
pub fn distant_labels()
    ensures { (axis : AnAxis) (a b : Label) (r far : ℕ) (end : Fraction) →
        Reaches axis a r → Reaches axis b r → 2 * r * end.num ≤ far * end.den →
        far ≤ unsigned_abs (anchor_on axis a -ℤ anchor_on axis b) →
        (s : Fraction) → IsLess s end → ¬ (Overlap a b s) }
{}

/// A label has the same slot among some rivals as among all, where these are enough.
pub fn enough()
    ensures { (low : Label) (rivals : ℕ → Rival) (n : ℕ)
        (bound : Fraction) (places : List ℕ) (slot : Slot) →
        AreEnough low rivals n bound places → IsSlotAmong low (map rivals places) slot →
        IsOwnSlot rivals (λ j. j < n) low slot }
{}

/// Two labels are rivals, or the one sets the other no limit even where it is active up to its
/// maximum.
pub fn rivals_or_free()
    ensures { (low high : Label) →
        AreRivals low high ⊎ Allows low high (value_of high.max) (value_of low.max) }
{}

/// A label has the same slot among the same rivals at the same places.
pub fn same_rivals()
    ensures { (low : Label) (rivals others : ℕ → Rival) (n : ℕ) →
        ((j : ℕ) → j < n → rivals j ≡ others j) → (slot : Slot) →
        IsOwnSlot rivals (λ j. j < n) low slot → IsOwnSlot others (λ j. j < n) low slot }
{}

/// Rivals that set no limit may be left out, and alike ones in the same order may stand in.
pub fn carried()
    ensures { (low : Label) (rivals others : ℕ → Rival)
        (stands stays : ℕ → Bool) (link : ℕ → ℕ → Bool) →
        AreCarried low rivals others (holds stands) (holds stays) (λ j k. IsTrue (link j k)) →
        (slot : Slot) →
        IsOwnSlot rivals (holds stands) low slot → IsOwnSlot others (holds stays) low slot }
{}

/// Rivals may join that allow the end that was found and do not set it.
pub fn joined()
    ensures { (low : Label) (rivals others : ℕ → Rival)
        (stands stays : ℕ → Bool) (link : ℕ → ℕ → Bool) (slot : Slot) →
        AreJoined low (value_of slot.until) rivals others
        (holds stands) (holds stays) (λ j k. IsTrue (link j k)) →
        IsOwnSlot rivals (holds stands) low slot → IsOwnSlot others (holds stays) low slot }
{}
