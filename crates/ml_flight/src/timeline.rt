//! The scales at which a label is shown in a window.
ghost use Rattle.std.specs.Prelude.{◌≡◌, ◌≤◌, ◌↔◌, length, AllPairs, IfOk};
ghost use Rattle.ml_ratio.specs.Fraction.{Fraction, value_of};
ghost use Rattle.ml_cone.specs.declared.view.View.{View};
ghost use Rattle.ml_flight.specs.Window.{IsViewThrough};
ghost use Rattle.ml_flight.specs.Shown.{IsShownAt, IsShownBy};
ghost use Rattle.ml_flight.specs.Stay.{HaveScale, BeginsBy, AreApart};
ghost use Rattle.ml_flight.specs.Stays.{AreMaximal};

use crate::solve::box_stay;
use crate::stay::Stay;
use crate::window::Window;
use ml_cone::{Label, Span};
use ml_ratio::Seq;
use std::alloc::{AllocError, Global};

/// The stays of a label with a span: the maximal intervals of the scales at which it is shown in the
/// window, ascending. A label is shown at a scale that lies in the span, where one of its boxes has an
/// open rectangle that meets the window's; a scale may be of any size above 0.
///
/// # Errors
/// Out of memory.
pub fn stays(
    alloc: Global,
    label: &Label,
    span: &Span,
    at: &Window,
) -> Result<Seq<Stay>, AllocError>
    ensures stays { IfOk result (AreMaximal (IsShownAt label.now span.now at.now)) }
    ensures apart { IfOk result AreApart }
    ensures scales { IfOk result
        (λ stays. (s : Fraction) → IsShownAt label.now span.now at.now s ↔ HaveScale stays s) }
    ensures views { IfOk result (λ stays. (view : View) → IsViewThrough at.now view →
        IsShownBy label.now span.now view ↔ HaveScale stays (value_of view.scale)) }
    ensures single { length label.now.boxes ≡ 1 → IfOk result (λ stays. length stays ≤ 1) }
{
    let mut pieces = box_stays(alloc, label, span, at)?;
    pieces.sort_unstable_by_key(|stay| stay.begin());
    joined(alloc, pieces.as_slice())
}

// For each box that meets the window at some scale of the span, the stay of that box.
fn box_stays(
    alloc: Global,
    label: &Label,
    span: &Span,
    at: &Window,
) -> Result<Vec<Stay>, AllocError>
    ensures { IfOk result (λ pieces.
        (s : Fraction) → IsShownAt label.now span.now at.now s ↔ HaveScale pieces.items s) }
{
    let mut pieces = Vec::new(alloc);
    let Some(whole) = Stay::of_span(span) else {
        return Ok(pieces);
    };
    for p in label.boxes().as_slice() {
        if let Some(piece) = box_stay(whole, label, p, at) {
            pieces.push(piece)?;
        }
    }
    Ok(pieces)
}

// The same scales in stays that do not join, from stays in the order in which they begin.
fn joined(alloc: Global, pieces: &[Stay]) -> Result<Seq<Stay>, AllocError>
    requires { AllPairs BeginsBy pieces.now }
    ensures same { IfOk result
        (λ stays. (s : Fraction) → HaveScale stays s ↔ HaveScale pieces.now s) }
    ensures apart { IfOk result AreApart }
{
    let mut stays = Seq::new(alloc);
    let Some(first) = pieces.first() else {
        return Ok(stays);
    };
    let mut current = *first;
    for piece in pieces {
        if current.joins(piece) {
            current = current.joined_with(piece);
        } else {
            stays.push(current)?;
            current = *piece;
        }
    }
    stays.push(current)?;
    Ok(stays)
}
