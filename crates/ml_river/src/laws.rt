//! Laws over the definitions alone: that heights are single, that a chain and its absence exclude
//! one another, that the text of a river has one place, and how wide a chain is.
ghost use Rattle.std.specs.Prelude.{◌≡◌, ◌<◌, ◌≤◌, ℕ, ℤ, List, Some, length, sum};
ghost use Rattle.ml_ratio.specs.declared.geometry.Geometry.{Geometry};
ghost use Rattle.ml_ratio.specs.declared.geometry.Pos.{Pos};
ghost use Rattle.ml_cone.specs.declared.label.BoxPx.{BoxPx};
ghost use Rattle.ml_river.specs.declared.class.RiverClass.{RiverClass};
ghost use Rattle.ml_river.specs.declared.river.Placed.{Placed};
ghost use Rattle.ml_river.specs.Height.{IsRising, IsHeight};
ghost use Rattle.ml_river.specs.Chain.{width, IsChain, HasNoChain};
ghost use Rattle.ml_river.specs.River.{IsRiver, IsSamePlacing};

/// A run has one height at a place.
pub fn one_height()
    ensures { (run : List Pos) (x y z : ℤ) → IsRising run →
        IsHeight run x y → IsHeight run x z → y ≡ z }
{}

/// Where there is a chain, nothing says that there is none.
pub fn chain_or_none()
    ensures { (c : RiverClass) (run : List Pos) (x y : ℤ) (advances : List ℕ) (boxes : List BoxPx) →
        IsRising run → IsChain c run x y advances boxes → ¬ (HasNoChain c run x y advances) }
{}

/// The text of a river has one place only: its shape, the advances of the text's clusters and the
/// class leave no choice of the stretch, of the anchor on it (world units), of a chain or a straight
/// text, nor of a single box (pixels).
pub fn one_place()
    ensures { (shape : Geometry) (advances : List ℕ) (c : RiverClass) (p q : Placed) →
        IsRiver shape advances c (Some p) → IsRiver shape advances c (Some q) → IsSamePlacing p q }
{}

/// A chain of some boxes is at most 1,024 pixels wide.
pub fn chains_are_narrow()
    ensures { (c : RiverClass) (run : List Pos) (x y : ℤ) (advances : List ℕ) (boxes : List BoxPx) →
        0 < length advances → IsChain c run x y advances boxes → width c (sum advances) ≤ 1024 }
{}
