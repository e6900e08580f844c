//! Laws over the definitions alone: what bytes stand for, and what trees, coordinates and members keep
//! when they are written and read.
ghost use Rattle.std.specs.Prelude.{◌≡◌, ◌≢◌, ℕ, ℤ, List};
ghost use Rattle.ml_ratio.specs.JsonNumber.{IsNumber};
ghost use Rattle.ml_ratio.specs.World.{IsInWorld};
ghost use Rattle.ml_json.specs.Tree.{Tree, Pairs, no_pairs, put_all};
ghost use Rattle.ml_json.specs.Grammar.{Reads};
ghost use Rattle.ml_json.specs.Answer.{IsText, Refuses};
ghost use Rattle.ml_json.specs.Canonical.{canonical, settled, IsAscending, IsPrintable, HasUtf8};
ghost use Rattle.ml_json.specs.Fixed.{e7_text, ReadsBack};
ghost use Rattle.ml_json.specs.declared.value.JsonFault.{JsonFault};

/// A text has one tree.
pub fn one_tree()
    ensures { (bytes : List ℕ) (one other : Tree) →
        Reads bytes one → Reads bytes other → one ≡ other }
{}

/// What is a text is refused only when memory runs out.
pub fn text_or_fault()
    ensures { (bytes : List ℕ) (tree : Tree) (fault : JsonFault) →
        IsText bytes tree → Refuses fault bytes → fault ≡ JsonFault.Memory }
{}

/// One thing is wrong with bytes that are no text, unless memory runs out.
pub fn one_fault()
    ensures { (bytes : List ℕ) (one other : JsonFault) →
        one ≢ JsonFault.Memory → other ≢ JsonFault.Memory →
        Refuses one bytes → Refuses other bytes → one ≡ other }
{}

/// The text of a tree that can be printed reads as the settled tree.
pub fn printed_reads_back()
    ensures { (tree : Tree) →
        IsPrintable tree → HasUtf8 tree → IsText (canonical tree) (settled tree) }
{}

/// The text of a coordinate reads as this coordinate.
pub fn coordinates_read_back()
    ensures { (v : ℤ) → ReadsBack v (e7_text v) }
{}

/// The text of a coordinate of the world is a number's.
pub fn coordinates_are_numbers()
    ensures { (v : ℤ) → IsInWorld v → IsNumber (e7_text v) }
{}

/// A text of which is known that it is a number's can be cut as one.
pub fn known_numbers()
    ensures { (text : List ℕ) → ∥ IsNumber text ∥₁ → IsNumber text }
{}

/// Members in byte order of their keys, each key once, stay as they are when they are put in one
/// after another.
pub fn ascending_members_stay()
    ensures { (ps : Pairs) → IsAscending ps → put_all no_pairs ps ≡ ps }
{}
