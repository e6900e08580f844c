//! The scales at which one label blocks another.
ghost use Rattle.std.specs.Prelude.{ℕ, ◌*◌, ◌<◌, ◌↔◌, length, slice_index_or, OnOk, OnErr};
ghost use Rattle.ml_ratio.specs.Fraction.{Fraction, IsScale, value_of};
ghost use Rattle.ml_cone.specs.Range.{ActiveBetween};
ghost use Rattle.ml_cone.specs.Overlap.{BoxesOverlap};
ghost use Rattle.ml_cone.specs.declared.label.BoxPx.{BoxPx};
ghost use Rattle.ml_gaps.specs.Piece.{HoldsIfSome, AddsPieces};
ghost use Rattle.ml_gaps.specs.Blocked.{IsBlocked, IsPairPiece};
ghost use Rattle.ml_gaps.specs.Pairs.{AddsPiecesOf, AddsFirstOf, box_pairs_of, IsPairInRange, IsPairBlocked};

use crate::gap::Gap;
use crate::piece::{Piece, larger, smaller};
use ml_cone::{Label, are_apart};
use ml_conflict::interval;
use ml_ratio::{Quotient, Ratio, Seq};
use std::alloc::AllocError;

/// Appends pieces whose union is the scales of the selectable range of `low`, its maximum left out, at
/// which `high` is active under its gap and the two overlap.
///
/// They go by pairs of boxes, row by row: of each pair that overlaps there one piece, the scales at
/// which it does, and of the others none.
///
/// # Errors
/// Out of memory; the pieces of a first part of the pairs of boxes were appended.
pub fn blocked(low: &Label, high: &Label, gap: &Gap, out: &mut Seq<Piece>) -> Result<(), AllocError>
    ensures ok { OnOk result
        (AddsPieces (IsBlocked low.now high.now gap.now) (IsPairPiece low.now high.now gap.now)
        (length low.now.boxes * length high.now.boxes) out.old out.new) }
    ensures pairs { OnOk result (AddsPiecesOf (IsPairBlocked low.now high.now gap.now)
        (box_pairs_of low.now high.now) out.old out.new) }
    ensures err { OnErr result (AddsFirstOf (IsPairBlocked low.now high.now gap.now)
        (box_pairs_of low.now high.now) out.old out.new) }
{
    let from = larger(low.min(), gap.from);
    let until = smaller(low.max(), gap.until);
    block_range(low, high, from, until, out)
}

// Appends the pieces of all pairs of boxes within a range.
fn block_range(
    low: &Label,
    high: &Label,
    from: Ratio,
    until: Ratio,
    out: &mut Seq<Piece>,
) -> Result<(), AllocError>
    ensures ok { OnOk result (AddsPiecesOf (IsPairInRange low.now high.now (value_of from)
        (value_of until)) (box_pairs_of low.now high.now) out.old out.new) }
    ensures err { OnErr result (AddsFirstOf (IsPairInRange low.now high.now (value_of from)
        (value_of until)) (box_pairs_of low.now high.now) out.old out.new) }
{
    if !from.is_less(&until) {
        return Ok(());
    }
    if are_apart(low, high, Quotient::of_ratio(&until)) {
        return Ok(());
    }
    for i in 0..low.boxes().len() {
        block_row(low, i, high, from, until, out)?;
    }
    Ok(())
}

// Appends the pieces of one box with each of the other label.
fn block_row(
    low: &Label,
    i: usize,
    high: &Label,
    from: Ratio,
    until: Ratio,
    out: &mut Seq<Piece>,
) -> Result<(), AllocError>
    requires { i < length low.now.boxes }
    ensures ok { OnOk result ((d : BoxPx) →
        AddsPiecesOf (λ q. IsPairInRange low.now high.now (value_of from) (value_of until)
        (slice_index_or low.now.boxes i d, q)) high.now.boxes out.old out.new) }
    ensures err { OnErr result ((d : BoxPx) →
        AddsFirstOf (λ q. IsPairInRange low.now high.now (value_of from) (value_of until)
        (slice_index_or low.now.boxes i d, q)) high.now.boxes out.old out.new) }
{
    for j in 0..high.boxes().len() {
        if let Some(piece) = block_pair(low, i, high, j, from, until) {
            out.push(piece)?;
        }
    }
    Ok(())
}

// The scales of the range at which the two boxes overlap, if there are any.
fn block_pair(
    low: &Label,
    i: usize,
    high: &Label,
    j: usize,
    from: Ratio,
    until: Ratio,
) -> Option<Piece>
    requires i_is_box { i < length low.now.boxes }
    requires j_is_box { j < length high.now.boxes }
    ensures { (d : BoxPx) (s : Fraction) → HoldsIfSome result s ↔
        (IsScale s × ActiveBetween (value_of from) (value_of until) s ×
        BoxesOverlap low.now (slice_index_or low.now.boxes i d) high.now
        (slice_index_or high.now.boxes j d) s) }
{
    match interval(low, i, high, j) {
        Some(between) => Piece::cut(from, until, between),
        None => None,
    }
}
