//! Laws over the definitions alone: what clusters keep of their text.
ghost use Rattle.std.specs.Prelude.{ℕ, List, ◌-◌, ◌^◌, ◌≤◌, min, sum_by};
ghost use Rattle.std.specs.Str.{IsUtf8};
ghost use Rattle.ml_style.specs.declared.font.Font.{Font};
ghost use Rattle.ml_text.specs.Width.{advance_sum};
ghost use Rattle.ml_text.specs.Cluster.{clusters_of};

/// The advances of a text's clusters reach the sum of the text's, or 2^64 - 1.
pub fn clusters_reach()
    ensures { (font : Font) (text : List ℕ) → IsUtf8 text →
        min (advance_sum font text) (2 ^ 64 - 1) ≤ sum_by (λ c. c.advance) (clusters_of font text) }
{}
