//! Where a text is placed on a shape, and in which boxes.
ghost use Rattle.std.specs.Prelude.{◌≡◌, ◌<◌, ◌^◌, Some, IfOk, IsUtf8, MatchOption, length, map, sum_by};
ghost use Rattle.ml_ratio.specs.Geometry.{IsGeometry};
ghost use Rattle.ml_cone.specs.Plane.{IsBox};
ghost use Rattle.ml_style.specs.Matching.{kind_of};
ghost use Rattle.ml_style.specs.Offset.{IsOffset};
ghost use Rattle.ml_style.specs.declared.class.Kind.TheVariants as kinds;
ghost use Rattle.ml_text.specs.Cluster.{clusters_of};
ghost use Rattle.ml_text.specs.Width.{advance_sum};
ghost use Rattle.ml_anchor.specs.Anchor.{point_of, IsAreaAnchor};
ghost use Rattle.ml_label.specs.Seen.{placing_of};
ghost use Rattle.ml_label.specs.Placing.{shift, IsTextBox, IsTooWideText, IsFittingBox, IsOneBox, IsAlong, IsPlacedAlong, IsPlacing, HasNoPlace};

use crate::placed::PlacedText;
use crate::straight::{is_too_wide, straight_box};
use ml_anchor::{area_anchor, point_anchor};
use ml_cone::BoxPx;
use ml_ratio::{Geometry, Pos, Seq, Text};
use ml_river::laws::chains_are_narrow;
use ml_river::{Placed, RiverClass, Shape, chain_of};
use ml_style::{Class, Font, Kind};
use ml_text::laws::clusters_reach;
use ml_text::{Cluster, clusters, width};
use std::alloc::{AllocError, Global};

// How far labels of this class are moved to the right and up: lines not at all.
fn shift_of(class: &Class) -> (i32, i32)
    ensures x { result.0 ≡ shift class.now.kind class.now.dx }
    ensures y { result.1 ≡ shift class.now.kind class.now.dy }
    ensures low_x { IsOffset result.0 }
    ensures low_y { IsOffset result.1 }
{
    match class.kind {
        Kind::LineKind => (0, 0),
        Kind::PointKind | Kind::AreaKind => (class.dx, class.dy),
    }
}

// The straight box of the text; none where it would reach too far to the left or right.
fn text_box(font: &Font, class: &Class, text: &Text) -> Option<BoxPx>
    ensures { MatchOption result (IsTooWideText font.now class.now text.now)
        (IsFittingBox font.now class.now text.now) }
{
    let wide = width(font, class.size, text);
    let (dx, dy) = shift_of(class);
    if is_too_wide(dx, wide) {
        None
    } else {
        Some(straight_box(dx, dy, wide, class.size))
    }
}

// The whole text in one box.
fn one_box(
    alloc: Global,
    straight: BoxPx,
    anchor: Pos,
    text: Text,
) -> Result<PlacedText, AllocError>
    requires good { IsBox straight.l straight.b straight.r straight.t }
    ensures anchor { IfOk result (λ placed. placed.anchor ≡ anchor) }
    ensures one { IfOk result (λ placed. IsOneBox straight text (placing_of placed)) }
{
    let mut boxes = Seq::new(alloc);
    boxes.push(straight)?;
    let mut pieces = Seq::new(alloc);
    pieces.push(text)?;
    Ok(PlacedText {
        anchor,
        boxes,
        pieces,
    })
}

// At a point, or the first of several.
fn at_point(
    alloc: Global,
    straight: BoxPx,
    shape: &Geometry,
    text: Text,
) -> Result<PlacedText, AllocError>
    requires shaped { IsGeometry shape.now }
    requires point { kind_of shape.now ≡ kinds.PointKind }
    requires good { IsBox straight.l straight.b straight.r straight.t }
    ensures anchor { IfOk result (λ placed. point_of shape.now ≡ Some placed.anchor) }
    ensures one { IfOk result (λ placed. IsOneBox straight text (placing_of placed)) }
{
    match point_anchor(shape) {
        Some(anchor) => one_box(alloc, straight, anchor, text),
        None => unreachable!(),
    }
}

// In an area.
fn in_area(
    alloc: Global,
    straight: BoxPx,
    shape: &Geometry,
    text: Text,
) -> Result<PlacedText, AllocError>
    requires shaped { IsGeometry shape.now }
    requires area { kind_of shape.now ≡ kinds.AreaKind }
    requires good { IsBox straight.l straight.b straight.r straight.t }
    ensures anchor { IfOk result (λ placed. IsAreaAnchor shape.now (Some placed.anchor)) }
    ensures one { IfOk result (λ placed. IsOneBox straight text (placing_of placed)) }
{
    match area_anchor(alloc, shape)? {
        Some(anchor) => one_box(alloc, straight, anchor, text),
        None => unreachable!(),
    }
}

// The advances of clusters, in units of the font.
fn advances_of(alloc: Global, clusters: &[Cluster]) -> Result<Vec<u64>, AllocError>
    ensures { IfOk result (λ advances. advances.items ≡ map (λ c. c.advance) clusters.now) }
{
    clusters
        .iter()
        .map(|cluster| cluster.advance)
        .collect(alloc)
}

// The texts of clusters.
fn pieces_of(alloc: Global, clusters: &[Cluster]) -> Result<Seq<Text>, AllocError>
    ensures { IfOk result (λ pieces. pieces ≡ map (λ c. c.text) clusters.now) }
{
    let mut pieces = Seq::new(alloc);
    for cluster in clusters {
        pieces.push(cluster.text.copy()?)?;
    }
    Ok(pieces)
}

// Where the clusters of a text that is not too wide lie along a line.
fn fitted(
    alloc: Global,
    font: &Font,
    class: &Class,
    shape: &Geometry,
    text: &Text,
    clusters: &[Cluster],
) -> Result<Placed, AllocError>
    requires shaped { IsGeometry shape.now }
    requires line { kind_of shape.now ≡ kinds.LineKind }
    requires its_kind { class.now.kind ≡ kinds.LineKind }
    requires some { 0 < length clusters.now }
    requires narrow { ¬ (IsTooWideText font.now class.now text.now) }
    requires clusters { clusters.now ≡ clusters_of font.now text.now }
    requires total { advance_sum font.now text.now < 2 ^ 64 →
        sum_by (λ c. c.advance) clusters.now ≡ advance_sum font.now text.now }
    ensures { IfOk result (IsAlong font.now class.now shape.now text.now) }
{
    let advances = advances_of(alloc, clusters)?;
    let river = RiverClass {
        units: font.units,
        size: class.size,
        scale_ref: class.scale_ref,
    };
    match chain_of(alloc, shape, advances.as_slice(), &river)? {
        Some(placed) => Ok(placed),
        None => unreachable!(),
    }
}

// Along a line.
fn along(
    alloc: Global,
    font: &Font,
    class: &Class,
    straight: BoxPx,
    shape: &Geometry,
    text: Text,
) -> Result<PlacedText, AllocError>
    requires shaped { IsGeometry shape.now }
    requires line { kind_of shape.now ≡ kinds.LineKind }
    requires its_kind { class.now.kind ≡ kinds.LineKind }
    requires some { 0 < length text }
    requires narrow { ¬ (IsTooWideText font.now class.now text) }
    requires straight { IsTextBox font.now class.now text straight }
    requires good { IsBox straight.l straight.b straight.r straight.t }
    ensures { IfOk result
        (λ placed. IsPlacedAlong font.now class.now shape.now text (placing_of placed)) }
{
    let clusters = clusters(alloc, font, &text)?;
    let Placed {
        anchor,
        shape: lies,
    } = fitted(alloc, font, class, shape, &text, clusters.as_slice())?;
    match lies {
        Shape::Chain(boxes) => Ok(PlacedText {
            anchor,
            boxes,
            pieces: pieces_of(alloc, clusters.as_slice())?,
        }),
        Shape::Straight => one_box(alloc, straight, anchor, text),
    }
}

/// Where a text that is not empty is placed; none where it is in its straight box and that reaches
/// too far.
///
/// # Errors
/// Out of memory.
pub fn place(
    alloc: Global,
    font: &Font,
    class: &Class,
    shape: &Geometry,
    text: Text,
) -> Result<Option<PlacedText>, AllocError>
    requires shaped { IsGeometry shape.now }
    requires kind { kind_of shape.now ≡ class.now.kind }
    requires some { 0 < length text }
    requires utf8 { IsUtf8 text }
    ensures { IfOk result (λ placed. MatchOption placed (HasNoPlace font.now class.now
        shape.now text) (λ p. IsPlacing font.now class.now shape.now text (placing_of p))) }
{
    clusters_reach();
    chains_are_narrow();
    let Some(straight) = text_box(font, class, &text) else {
        return Ok(None);
    };
    let placed = match class.kind {
        Kind::PointKind => at_point(alloc, straight, shape, text)?,
        Kind::LineKind => along(alloc, font, class, straight, shape, text)?,
        Kind::AreaKind => in_area(alloc, straight, shape, text)?,
    };
    Ok(Some(placed))
}
