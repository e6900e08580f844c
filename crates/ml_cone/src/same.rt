//! Whether labels are the same.
ghost use Rattle.std.specs.Prelude.{◌≡◌, MatchBool};
ghost use Rattle.ml_cone.specs.Same.{AreAlike};

use crate::label::{BoxPx, Label};
use crate::slot::Span;
use ml_ratio::{Ratio, Text};

// Whether the boxes are the same.
fn same_box(one: &BoxPx, other: &BoxPx) -> bool
    ensures { MatchBool result (one.now ≡ other.now) (¬ (one.now ≡ other.now)) }
{
    one.l == other.l && one.b == other.b && one.r == other.r && one.t == other.t
}

// Whether the lists of boxes are the same.
fn same_boxes(one: &[BoxPx], other: &[BoxPx]) -> bool
    ensures { MatchBool result (one.now ≡ other.now) (¬ (one.now ≡ other.now)) }
{
    if one.len() != other.len() {
        return false;
    }
    for k in 0..one.len() {
        if !same_box(&one[k], &other[k]) {
            return false;
        }
    }
    true
}

// Whether the pieces of text are the same.
fn same_pieces(one: &[Text], other: &[Text]) -> bool
    ensures { MatchBool result (one.now ≡ other.now) (¬ (one.now ≡ other.now)) }
{
    one == other
}

// Whether the labels stand at one place of the world with the same margin.
fn same_anchors(one: &Label, other: &Label) -> bool
    ensures { MatchBool result ((one.now.x ≡ other.now.x)
        × (one.now.y ≡ other.now.y) × (one.now.margin ≡ other.now.margin))
        (¬ ((one.now.x ≡ other.now.x) × (one.now.y ≡ other.now.y)
        × (one.now.margin ≡ other.now.margin))) }
{
    one.x == other.x && one.y == other.y && one.margin == other.margin
}

// Whether the fractions are the same.
fn same_ratios(one: Ratio, other: Ratio) -> bool
    ensures { MatchBool result (one ≡ other) (¬ (one ≡ other)) }
{
    one == other
}

// Whether the orders are the same.
fn same_orders(one: &Label, other: &Label) -> bool
    ensures { MatchBool result (one.now.order ≡ other.now.order)
        (¬ (one.now.order ≡ other.now.order)) }
{
    one.order == other.order
}

// Whether the selectable ranges are the same.
fn same_ranges(one: &Label, other: &Label) -> bool
    ensures { MatchBool result ((one.now.min ≡ other.now.min) × (one.now.max ≡ other.now.max))
        (¬ ((one.now.min ≡ other.now.min) × (one.now.max ≡ other.now.max))) }
{
    same_ratios(one.min, other.min) && same_ratios(one.max, other.max)
}

/// Whether the active ranges are the same.
pub fn same_spans(one: Span, other: Span) -> bool
    ensures { MatchBool result (one ≡ other) (¬ (one ≡ other)) }
{
    same_ratios(one.min, other.min) && same_ratios(one.until, other.until)
}

/// Whether the labels are the same but for their ids and their places in the priority order.
pub fn are_alike(one: &Label, other: &Label) -> bool
    ensures { MatchBool result (AreAlike one.now other.now) (¬ (AreAlike one.now other.now)) }
{
    same_anchors(one, other)
        && same_ranges(one, other)
        && same_boxes(one.boxes.as_slice(), other.boxes.as_slice())
        && same_pieces(one.pieces.as_slice(), other.pieces.as_slice())
}

/// Whether the labels are the same.
pub fn same_labels(one: &Label, other: &Label) -> bool
    ensures { MatchBool result (one.now ≡ other.now) (¬ (one.now ≡ other.now)) }
{
    same_orders(one, other) && are_alike(one, other)
}
