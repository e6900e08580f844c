//! The pieces of a text that a reader sees as one character each.
ghost use Rattle.std.specs.Prelude.{◌≡◌, ◌*◌, ◌^◌, ◌<◌, ◌≤◌, IfOk, map, length, sum_by};
ghost use Rattle.std.specs.List.{concat};
ghost use Rattle.ml_text.specs.Width.{advance_sum as advance_sum_of};
ghost use Rattle.ml_text.specs.Cluster.{clusters_of};

use crate::measure::advance_sum;
use ml_ratio::{Seq, Text};
use ml_style::Font;
use std::alloc::{AllocError, Global};
use unicode_segmentation::UnicodeSegmentation;

/// A piece of a text, and the sum of the advances of its characters in units of the font, of which
/// 2^64 - 1 stands for all that is greater.
#[derive(Debug, Drop)]
pub struct Cluster {
    pub text: Text,
    pub advance: u64,
}

/// The extended grapheme clusters of the text (Unicode Standard Annex 29), in order.
///
/// # Errors
/// Out of memory.
pub fn clusters(alloc: Global, font: &Font, text: &Text) -> Result<Seq<Cluster>, AllocError>
    ensures value { IfOk result (λ all. all ≡ clusters_of font.now text.now) }
    ensures joined { IfOk result (λ all. concat (map (λ c. c.text) all) ≡ text.now) }
    ensures low { IfOk result (λ all. sum_by (λ c. c.advance) all ≤ 65535 * length text.now) }
    ensures total { IfOk result (λ all. advance_sum_of font.now text.now < 2 ^ 64 →
        sum_by (λ c. c.advance) all ≡ advance_sum_of font.now text.now) }
{
    cut(alloc, font, text.as_str())
}

// The clusters of the text.
fn cut(alloc: Global, font: &Font, text: &str) -> Result<Seq<Cluster>, AllocError>
    ensures { IfOk result (λ all. all ≡ clusters_of font.now text.now) }
{
    let mut all = Seq::new(alloc);
    for piece in text.graphemes(true) {
        all.push(Cluster {
            text: Text::of(alloc, piece)?,
            advance: u64::try_from(advance_sum(font, piece)).unwrap_or(u64::MAX),
        })?;
    }
    Ok(all)
}
