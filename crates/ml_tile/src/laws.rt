//! A law of tiles. The function takes nothing and does nothing: its contract is the law, for all values.
ghost use Rattle.std.specs.Prelude.{ℕ, ℤ, ◌≡◌, ◌≤ℤ◌};
ghost use Rattle.ml_ratio.specs.Fraction.{value_of};
ghost use Rattle.ml_cone.specs.Range.{ActiveBetween};
ghost use Rattle.ml_cone.specs.declared.label.Label.{Label};
ghost use Rattle.ml_cone.specs.declared.slot.Span.{Span};
ghost use Rattle.ml_tile.specs.Area.{scale, IsBetween, AreTiles, IsInArea};
ghost use Rattle.ml_tile.specs.Cache.{ShowsIn};
ghost use Rattle.ml_tile.specs.declared.key.TileKey.{TileKey};

/// A label that is active at the scale of the tiles of one depth, and has a box with an open rectangle
/// that meets the open rectangle which some of these tiles, side by side, cover, is shown in at least one
/// of them.
pub fn l7()
    ensures { (label : Label) (span : Span) (z : ℕ) (i k j m : ℤ) →
        i ≤ℤ k → j ≤ℤ m → AreTiles z i k j m →
        ActiveBetween (value_of span.min) (value_of span.until) (scale z) →
        IsInArea label z i k j m →
        (key : TileKey) × (key.z ≡ z) × IsBetween key.i i k
        × IsBetween key.j j m × ShowsIn label span key }
{}
