//! The longest free gap of each label.
ghost use Rattle.std.specs.Prelude.{ℕ, ◌≡◌, ◌≤◌, ◌<◌, ◌*◌, ◌↔◌, [], length, slice_index_or, All, IfOk, OnOk};
ghost use Rattle.ml_ratio.specs.Fraction.{Fraction, value_of};
ghost use Rattle.ml_cone.specs.Choice.{ActiveUntil};
ghost use Rattle.ml_gaps.specs.Blocked.{IsBlocked, IsPairPiece, IsBlockedBy};
ghost use Rattle.ml_gaps.specs.Gaps.{AreGaps};
ghost use Rattle.ml_gaps.specs.Longest.{IsLongestOf};
ghost use Rattle.ml_gaps.specs.Near.{IsNearOf, AreNears};
ghost use Rattle.ml_gaps.specs.Piece.{HaveScale, AddsPieces};
ghost use Rattle.ml_gaps.specs.Bundle.{IsBundle, AddsStrip};
ghost use Rattle.ml_gaps.specs.Places.{AreEnough};

use crate::block::blocked;
use crate::gap::Gap;
use crate::index::StripIndex;
use crate::near::Near;
use crate::piece::Piece;
use crate::strip::{Strip, parting_axis};
use crate::sweep::longest;
use ml_cone::Label;
use ml_ratio::Seq;
use std::alloc::{AllocError, Global};

/// The gaps of labels in priority order: each has, of the gaps in its selectable range that are free
/// of the labels before it with their gaps, the longest, and of several as long the one that begins
/// first. A gap is free of a label where the two are active and overlap at no scale together.
///
/// A gap need not begin at the label's minimum. Where no free one is longer than 0 it is empty, and
/// begins and ends there.
///
/// # Errors
/// Out of memory.
pub fn gaps(alloc: Global, labels: &[Label]) -> Result<Seq<Gap>, AllocError>
    ensures { IfOk result (AreGaps labels.now) }
{
    let axis = parting_axis(labels);
    let mut index = StripIndex::of(alloc, axis, labels)?;
    let mut gaps = Seq::new(alloc);
    let mut nears = Vec::new(alloc);
    let mut places = Vec::new(alloc);
    let mut pieces = Vec::new(alloc);
    for label in labels {
        index.gather(axis, label, &mut places)?;
        let before = Before {
            labels,
            gaps: gaps.as_slice(),
            nears: nears.as_slice(),
            places: places.as_slice(),
        };
        pieces = pieces_of(label, &before, pieces)?;
        let gap = longest_of(label, &mut pieces);
        let near = Near::of(label, &gap.until);
        let strip = Strip::about(label, gaps.len(), &near, axis);
        add_strip(alloc, &mut index, &gap, strip)?;
        nears.push(near)?;
        gaps.push(gap)?;
        places.clear();
        pieces.clear();
    }
    Ok(gaps)
}

// All labels, of which the first have a gap, what tells which of these lie near, and the places of enough of them for
// one label: the others do not block it.
#[derive(Clone, Copy)]
struct Before<'a> {
    labels: &'a [Label],
    gaps: &'a [Gap],
    nears: &'a [Near],
    places: &'a [usize],
}

// The pieces at which the labels before block the label, in the memory of the ones of another label.
fn pieces_of(label: &Label, before: &Before<'_>, room: Vec<Piece>) -> Result<Vec<Piece>, AllocError>
    requires few { length before.now.gaps.now ≤ length before.now.labels.now }
    requires nears { AreNears before.now.labels.now before.now.gaps.now before.now.nears.now }
    requires enough { AreEnough label.now before.now.labels.now before.now.gaps.now
        before.now.places.now }
    requires empty { room.items ≡ [] }
    ensures { IfOk result (λ pieces. (s : Fraction) → HaveScale pieces.items s ↔ IsBlockedBy
        label.now before.now.labels.now before.now.gaps.now (length before.now.gaps.now) s) }
{
    let own = Near::of(label, &label.max());
    let mut pieces = Seq::of_vec(room);
    for k in 0..before.places.len() {
        let j = before.places[k];
        let near = &before.nears[j];
        add_blocked(
            label,
            &own,
            &before.labels[j],
            near,
            &before.gaps[j],
            &mut pieces,
        )?;
    }
    Ok(pieces.into_vec())
}

// The same of one of them: none where it is too far away.
fn add_blocked(
    label: &Label,
    own: &Near,
    other: &Label,
    near: &Near,
    gap: &Gap,
    pieces: &mut Seq<Piece>,
) -> Result<(), AllocError>
    requires own { IsNearOf label.now (value_of label.now.max) own.now }
    requires near { IsNearOf other.now (value_of gap.now.until) near.now }
    ensures { OnOk result (AddsPieces (IsBlocked label.now other.now gap.now)
        (IsPairPiece label.now other.now gap.now)
        (length label.now.boxes * length other.now.boxes) pieces.old pieces.new) }
{
    if own.is_apart(near) {
        return Ok(());
    }
    blocked(label, other, gap, pieces)
}

// The strip about a label comes in, unless the label's gap is empty: then it blocks nobody.
fn add_strip(
    alloc: Global,
    index: &mut StripIndex,
    gap: &Gap,
    strip: Strip,
) -> Result<(), AllocError>
    requires { All IsBundle index.old.bundles.items }
    ensures bundles { OnOk result (All IsBundle index.new.bundles.items) }
    ensures adds { OnOk result
        (AddsStrip gap.now strip index.old.bundles.items index.new.bundles.items) }
{
    if gap.from.is_less(&gap.until) {
        index.put(alloc, strip)?;
    }
    Ok(())
}

// The longest gap of the label that the pieces leave.
fn longest_of(label: &Label, pieces: &mut Vec<Piece>) -> Gap
    requires { (s : Fraction) → HaveScale pieces.old.items s →
        ActiveUntil label.now (value_of label.now.max) s }
    ensures { IsLongestOf label.now (HaveScale pieces.old.items)
        (value_of result.from) (value_of result.until) }
{
    pieces.sort_unstable_by_key(|piece| piece.from);
    longest(label, pieces.as_slice())
}
