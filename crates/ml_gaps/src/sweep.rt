//! The longest range that pieces leave.
ghost use Rattle.std.specs.Prelude.{All, AllPairs};
ghost use Rattle.ml_ratio.specs.Fraction.{IsAtMost, value_of};
ghost use Rattle.ml_gaps.specs.Piece.{HaveScale};
ghost use Rattle.ml_gaps.specs.Longest.{IsLongestOf};

use crate::gap::Gap;
use crate::piece::{Piece, larger};
use ml_cone::Label;

/// The longest gap of the label that holds nothing of the pieces, which stand in the order in which
/// they begin; of several the one that begins first.
pub fn longest(label: &Label, pieces: &[Piece]) -> Gap
    requires order { AllPairs (λ a b. IsAtMost (value_of a.from) (value_of b.from)) pieces.now }
    requires within { All (λ a. IsAtMost (value_of a.from) (value_of label.now.max)) pieces.now }
    ensures { IsLongestOf label.now (HaveScale pieces.now)
        (value_of result.from) (value_of result.until) }
{
    let mut best = Gap {
        from: label.min(),
        until: label.min(),
    };
    let mut reach = label.min();
    for piece in pieces {
        best = best.or_longer(reach, piece.from);
        reach = larger(reach, piece.to);
    }
    best.or_longer(reach, label.max())
}
