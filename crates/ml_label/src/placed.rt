//! Texts at their places.
ghost use Rattle.std.specs.Prelude.{◌≡◌, ◌<◌, ◌≤◌, All, length};
ghost use Rattle.ml_cone.specs.Plane.{IsBox};

use ml_cone::BoxPx;
use ml_ratio::{Pos, Seq, Text};

/// An anchor, 1 to 64 boxes about it, and one piece of text for each.
#[derive(Debug, Drop)]
pub struct PlacedText {
    pub anchor: Pos,
    pub boxes: Seq<BoxPx>,
    pub pieces: Seq<Text>,
    ghost some_box: { 0 < length boxes },
    ghost few_boxes: { length boxes ≤ 64 },
    ghost good_boxes: { All (λ p. IsBox p.l p.b p.r p.t) boxes },
    ghost one_piece_each: { length pieces ≡ length boxes },
}
