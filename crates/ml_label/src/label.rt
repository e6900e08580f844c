//! The label of a feature.
ghost use Rattle.std.specs.Prelude.{◌≡◌, Some, None, IfOk, IfSome, MatchOption};
ghost use Rattle.std.specs.Option.{option_copied};
ghost use Rattle.ml_style.specs.Matching.{first_match, kind_of};
ghost use Rattle.ml_style.specs.Fonts.{HasFont};
ghost use Rattle.ml_label.specs.Seen.{placing_of};
ghost use Rattle.ml_label.specs.Labelling.{IsClassOf, IsLabelling, IsOrdered, IsPutAt};

use crate::name::{label_name, rank_of};
use crate::placed::PlacedText;
use crate::placing::place;
use crate::reason::Reason;
use ml_cone::{Label, Order};
use ml_ratio::Feature;
use ml_style::{Class, Style, class_of};
use std::alloc::{AllocError, Global};

// The first class of the style that applies to the feature.
fn class_for<'a>(style: &'a Style, feature: &Feature) -> Option<&'a Class>
    ensures class { MatchOption (option_copied result)
        (first_match style.now feature.now ≡ None) (IsClassOf style.now feature.now) }
    ensures known { IfSome (option_copied result) (HasFont style.now.fonts) }
{
    let place = class_of(style, feature)?;
    style.classes().get(place)
}

// The label of a feature whose text is placed so.
fn label_at(
    style: &Style,
    feature: &Feature,
    class: &Class,
    placed: PlacedText,
) -> Result<Label, AllocError>
    ensures ordered { IfOk result (IsOrdered style.now feature.now class.now) }
    ensures put { IfOk result (λ label. IsPutAt label (placing_of placed)) }
{
    let order = Order {
        class: class.priority,
        rank: rank_of(style, feature),
        id: feature.id.copy()?,
    };
    let PlacedText {
        anchor,
        boxes,
        pieces,
    } = placed;
    match Label::of(
        order,
        anchor.x,
        anchor.y,
        boxes,
        pieces,
        class.min,
        class.max,
        class.margin,
    ) {
        Some(label) => Ok(label),
        None => unreachable!(),
    }
}

/// The label of a feature under a style, or the first reason why it has none.
///
/// The first class that applies gives priority, size, font, scales and margin. The rank is the whole part of the
/// property that the style names, where that is a number, and 0 elsewhere. The text is the name with
/// spaces for what cannot be shown; a point's and an area's is one straight box, a line's is a chain
/// of boxes along it where that can be.
///
/// # Errors
/// Out of memory.
pub fn label_of(
    alloc: Global,
    style: &Style,
    feature: &Feature,
) -> Result<Result<Label, Reason>, AllocError>
    ensures { IfOk result (IsLabelling style.now feature.now) }
{
    let Some(shape) = &feature.geometry else {
        return Ok(Err(Reason::NoGeometry));
    };
    let Some(class) = class_for(style, feature) else {
        return Ok(Err(Reason::NoClass));
    };
    let Some(text) = label_name(alloc, style, feature)? else {
        return Ok(Err(Reason::NoName));
    };
    match place(alloc, style.font(class), class, shape, text)? {
        Some(placed) => Ok(Ok(label_at(style, feature, class, placed)?)),
        None => Ok(Err(Reason::TooWide)),
    }
}
