//! Laws over the definitions alone: that crossings come in pairs, and that an anchor is well defined.
ghost use Rattle.std.specs.Prelude.{◌≡◌, ℕ, ℤ, pos, ◌<ℤ◌, ◌≤ℤ◌, ◌+ℤ◌, ◌%◌, All, List, Some, length};
ghost use Rattle.ml_ratio.specs.Geometry.{IsSamePlace, IsRing, IsPolygon, IsGeometry};
ghost use Rattle.ml_ratio.specs.declared.geometry.Geometry.{Geometry};
ghost use Rattle.ml_ratio.specs.declared.geometry.Pos.{Pos};
ghost use Rattle.ml_ratio.specs.Floor.{floor};
ghost use Rattle.ml_anchor.specs.Ring.{south, north};
ghost use Rattle.ml_anchor.specs.Scan.{crossings};
ghost use Rattle.ml_anchor.specs.Pairs.{at, IsInsidePair};
ghost use Rattle.ml_anchor.specs.Anchor.{outer, IsPolygonAnchor, IsAreaAnchor};

/// Closed rings cross each level line an even number of times.
pub fn crossings_are_even()
    ensures { (h : ℤ) (rings : List (List Pos)) →
        All IsRing rings → length (crossings h rings) % 2 ≡ 0 }
{}

/// Half way up a polygon that is not flat there is a stretch inside.
pub fn some_stretch_is_inside()
    ensures { (rings : List (List Pos)) → IsPolygon rings →
        south (outer rings) <ℤ north (outer rings) →
        (i : ℕ) × (j : ℕ)
        × IsInsidePair (crossings (south (outer rings) +ℤ north (outer rings)) rings) i j }
{}

/// The middle of a stretch inside lies between its ends.
pub fn a_middle_is_inside()
    ensures { (xs : List ℤ) (i j : ℕ) → IsInsidePair xs i j →
        (at xs i ≤ℤ floor (at xs i +ℤ at xs j) (pos 2))
        × (floor (at xs i +ℤ at xs j) (pos 2) ≤ℤ at xs j) }
{}

/// A polygon has one anchor only.
pub fn one_anchor()
    ensures { (rings : List (List Pos)) (p q : Pos) → IsPolygon rings →
        IsPolygonAnchor rings p → IsPolygonAnchor rings q → (p.x ≡ q.x) × (p.y ≡ q.y) }
{}

/// An area has one anchor only: of several parts one is the largest, the first at a tie.
pub fn one_area_anchor()
    ensures { (shape : Geometry) (p q : Pos) → IsGeometry shape →
        IsAreaAnchor shape (Some p) → IsAreaAnchor shape (Some q) → IsSamePlace p q }
{}
