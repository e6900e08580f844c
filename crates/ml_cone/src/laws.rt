//! Laws over the definitions alone. Each function takes nothing and does nothing: its contract is
//! the law, for all values.
ghost use Rattle.std.specs.Prelude.{ℕ};
ghost use Rattle.ml_ratio.specs.Fraction.{Fraction, IsLess, IsAtMost, value_of};
ghost use Rattle.ml_ratio.specs.Band.{IsInBand};
ghost use Rattle.ml_cone.specs.Choice.{ActiveUntil, IsEnd, CoversFrom};
ghost use Rattle.ml_cone.specs.Hull.{hull_of, reach_of, HoldLabel, AreFew, IsLeastReach};
ghost use Rattle.ml_cone.specs.Cell.{BoundCell, SeenCell};
ghost use Rattle.ml_cone.specs.Rivals.{AreRivals};
ghost use Rattle.ml_cone.specs.Outline.{RivalBand, BoundBand, LastCell};
ghost use Rattle.ml_cone.specs.Overlap.{Overlap};
ghost use Rattle.ml_cone.specs.Near.{ExtentsOverlap};
ghost use Rattle.ml_cone.specs.Shown.{IsInView};
ghost use Rattle.ml_cone.specs.declared.label.Label.{Label};
ghost use Rattle.ml_cone.specs.declared.view.View.{View};

/// A label that is active at two scales is active at every scale between.
pub fn l3()
    ensures { (label : Label) (until low middle high : Fraction) →
        ActiveUntil label until low → ActiveUntil label until high →
        IsAtMost low middle → IsAtMost middle high →
        ActiveUntil label until middle }
{}

/// The reach of a label is the least box that holds its anchor and all its boxes, each widened by its
/// margin: each side of the reach is 0, where the anchor is, or that of one of these boxes.
pub fn reach_is_least()
    ensures { (label : Label) → IsLeastReach label (reach_of label) }
{}

/// The hull's cells in a band hold all that the label covers, with its boxes widened by its margin, at
/// every scale of the band.
pub fn hull_holds()
    ensures { (label : Label) (k : ℕ) (s : Fraction) →
        IsInBand s k → HoldLabel (hull_of label k) label s }
{}

/// A hull has one to four columns of cells, and one to four rows.
pub fn hulls_are_few()
    ensures { (label : Label) (k : ℕ) →
        AreFew (hull_of label k).x0 (hull_of label k).x1
        × AreFew (hull_of label k).y0 (hull_of label k).y1 }
{}

/// Two labels that overlap at a scale in both selectable ranges share a cell in a band that meets both
/// ranges, and is the last band of one of them.
pub fn rivals_share()
    ensures { (a b : Label) → AreRivals a b → LastCell a b }
{}

/// A label that bounds another at an end shares a cell with it in the band of that end.
pub fn bound_shares()
    ensures { (low high : Label) (until bound : Fraction) →
        IsEnd low bound → IsLess bound (value_of low.max) → IsAtMost until (value_of high.max) →
        CoversFrom low high until bound → BoundCell low high bound }
{}

/// Two labels that overlap at a scale in both selectable ranges overlap in a band that meets both.
pub fn rivals_overlap()
    ensures { (a b : Label) → AreRivals a b → RivalBand a b }
{}

/// A label that bounds another at an end overlaps it in the band of that end.
pub fn bound_overlaps()
    ensures { (low high : Label) (until bound : Fraction) →
        IsEnd low bound → IsLess bound (value_of low.max) → IsAtMost until (value_of high.max) →
        CoversFrom low high until bound → BoundBand low high bound }
{}

/// A label that meets a view has in the band of the view's scale a cell that meets the view.
pub fn seen_in_cell()
    ensures { (label : Label) (view : View) (k : ℕ) →
        IsInBand (value_of view.scale) k → IsInView label view → SeenCell label view k }
{}

/// Where two labels overlap at a scale their extents do, and extents that overlap at a scale overlap at
/// each greater one.
pub fn extents()
    ensures hold { (a b : Label) (s : Fraction) → Overlap a b s → ExtentsOverlap a b s }
    ensures grow { (a b : Label) (s t : Fraction) → IsAtMost s t →
        ExtentsOverlap a b s → ExtentsOverlap a b t }
{}
