//! A view from words.
ghost use Rattle.std.specs.Prelude.{◌≡◌, ℕ, ℤ, Some, pos, MatchOption, MatchResult};
ghost use Rattle.ml_ratio.specs.declared.ratio.Ratio.{Ratio};
ghost use Rattle.ml_view.specs.Words.{IsCoordinate, IsSideWord, IsScaleWord, WritesView, IsFirstBad};

use ml_cone::View;
use ml_cone::label::is_in_world;
use ml_ratio::{Ratio, read_whole};

/// The view that five words write: its centre in world units, the window's width and height in
/// pixels, and the scale as `19/1` or `19`, in world units a pixel.
///
/// # Errors
/// The place, counted from 0 in this order, of the first word that is no whole number or no
/// fraction, or is out of the bounds that [`View`] gives.
pub fn read_view(cx: &str, cy: &str, w: &str, h: &str, scale: &str) -> Result<View, usize>
    ensures { MatchResult result (WritesView cx.now cy.now w.now h.now scale.now)
        (IsFirstBad cx.now cy.now w.now h.now scale.now) }
{
    let Some(cx) = read_coordinate(cx) else {
        return Err(0);
    };
    let Some(cy) = read_coordinate(cy) else {
        return Err(1);
    };
    let Some(w) = read_side(w) else {
        return Err(2);
    };
    let Some(h) = read_side(h) else {
        return Err(3);
    };
    let Some(scale) = read_scale(scale) else {
        return Err(4);
    };
    match View::of(cx, cy, w, h, scale) {
        Some(view) => Ok(view),
        None => unreachable!(),
    }
}

// A coordinate of the world.
fn read_coordinate(word: &str) -> Option<i64>
    ensures { MatchOption result ((z : ℤ) → ¬ (IsCoordinate word.now z))
        (λ z. IsCoordinate word.now z) }
{
    match read_whole(word) {
        Some(x) => { if is_in_world(x) { Some(x) } else { None } }
        None => None,
    }
}

// The side of a window, in pixels.
fn read_side(word: &str) -> Option<u32>
    ensures { MatchOption result ((n : ℕ) → ¬ (IsSideWord word.now n))
        (λ n. IsSideWord word.now n) }
{
    match read_whole(word) {
        Some(side) => {
            if 2 <= side && side <= 4096 && side % 2 == 0 {
                Some(side as u32)
            } else {
                None
            }
        }
        None => None,
    }
}

// A scale, in world units a pixel.
fn read_scale(word: &str) -> Option<Ratio>
    ensures { MatchOption result ((r : Ratio) → ¬ (IsScaleWord word.now r))
        (λ r. IsScaleWord word.now r) }
{
    match Ratio::read(word) {
        Some(scale) => { if scale.is_scale() { Some(scale) } else { None } }
        None => None,
    }
}
