//! The outline of labels: where another label must be searched for them.
//!
//! Two labels overlap at a scale only where their anchors are no further apart than both reach. So of
//! labels that reach a few pixels only, those that a label may overlap in a band have their anchors near
//! its own, in a few cells of a finer band. The hull of a label, of up to four by four cells with sides of
//! 1,024 pixels, would hold many more.
ghost use Rattle.std.specs.Prelude.{◌≡◌, ◌+◌, ◌^◌, ◌≤◌, ◌*ℤ◌, ◌-ℤ◌, ◌≤ℤ◌, pos, IfSome};
ghost use Rattle.ml_cone.specs.Hull.{no_reach, area_of, AreFew, IsExtent};
ghost use Rattle.ml_cone.specs.Cells.{column_of};
ghost use Rattle.ml_cone.specs.Cell.{IsLastBand};
ghost use Rattle.ml_cone.specs.Plane.{IsReach};

use crate::cells::Cells;
use crate::label::{BoxPx, Label};
use crate::reach::{column, extent, hull, joined};

/// How far labels reach from their anchors at most, to each side, the band in whose scales all of them
/// have begun, and the first band in which one of their ranges ends.
#[derive(Clone, Copy, Debug)]
pub struct Outline {
    reach: BoxPx,
    low: u8,
    first_end: u8,
    ghost extent: { IsExtent reach },
}

/// The last band that the label's selectable range reaches into, at most 27.
pub fn last_band(label: &Label) -> u8
    ensures { IsLastBand label.now result }
{
    label.max.band().min(27)
}

// How many bands below its own a side of so many pixels is searched for in; none where it is too wide.
fn steps_down(width: i32) -> Option<u8>
    ensures { IfSome result (λ n. (width *ℤ pos (2 ^ (n + 1))) ≤ℤ pos 2048) }
{
    if width <= 128 {
        Some(3)
    } else if width <= 256 {
        Some(2)
    } else if width <= 512 {
        Some(1)
    } else {
        None
    }
}

// The cells of a band that hold the area about the label's anchor at the upper end of `band`.
fn cells_about(label: &Label, area: &BoxPx, band: u8, finer: u8) -> Cells
    requires low_band { band ≤ 27 }
    requires low_finer { finer ≤ 27 }
    requires l { IsReach area.now.l }
    requires b { IsReach area.now.b }
    requires r { IsReach area.now.r }
    requires t { IsReach area.now.t }
    ensures { result ≡ record {
      band = finer;
      x0 = column_of label.now.x area.now.l band finer;
      y0 = column_of label.now.y area.now.b band finer;
      x1 = column_of label.now.x area.now.r band finer;
      y1 = column_of label.now.y area.now.t band finer;
    } }
{
    Cells {
        band: finer,
        x0: column(label.x, area.l, band, finer),
        y0: column(label.y, area.b, band, finer),
        x1: column(label.x, area.r, band, finer),
        y1: column(label.y, area.t, band, finer),
    }
}

// Where the anchors of labels lie that may meet a label which reaches so far, seen from its own anchor.
fn meeting_area(own: &BoxPx, other: &BoxPx) -> BoxPx
    requires own { IsExtent own.now }
    requires other { IsExtent other.now }
    ensures area { result ≡ area_of own.now other.now }
    ensures wide { IsReach result.l × IsReach result.r }
    ensures high { IsReach result.b × IsReach result.t }
{
    BoxPx {
        l: own.l - other.r,
        b: own.b - other.t,
        r: own.r - other.l,
        t: own.t - other.b,
    }
}

// How many pixels the area is wide.
fn width_of(area: &BoxPx) -> i32
    requires l { IsReach area.now.l }
    requires r { IsReach area.now.r }
    ensures { result ≡ (area.now.r -ℤ area.now.l) }
{
    area.r - area.l
}

impl Outline {
    ghost use Rattle.ml_cone.specs.Outline.{OverlapIn, IsWithin, IsKeptAmong, IsFiner, HoldOverlapped};

    /// The outline of no labels.
    pub fn none() -> Outline
        ensures reach { result.reach ≡ no_reach }
        ensures low { result.low ≡ 0 }
        ensures first_end { result.first_end ≡ 27 }
    {
        Outline {
            reach: BoxPx {
                l: 0,
                b: 0,
                r: 0,
                t: 0,
            },
            low: 0,
            first_end: 27,
        }
    }

    /// The outline of the same labels and one more.
    pub fn with(&self, label: &Label) -> Outline
        ensures new { IsWithin result label.now }
        ensures kept { (a : Label) → IsWithin self.now a → IsWithin result a }
    {
        Outline {
            reach: joined(&self.reach, &extent(label)),
            low: self.low.max(label.min.band()),
            first_end: self.first_end.min(last_band(label)),
        }
    }

    /// The first band in which the selectable range of a label ends; the last band of all where there is
    /// none.
    pub fn first_end(&self) -> u8
        ensures { result ≡ self.now.first_end }
    {
        self.first_end
    }

    // The band whose cells are searched for a side of so many pixels, where that is finer than `band`.
    fn finer(&self, width: i32, band: u8) -> Option<u8>
        requires { band ≤ 27 }
        ensures { IfSome result (IsFiner self.now.low width band) }
    {
        let steps = steps_down(width)?;
        let finer = self.low.max(band.saturating_sub(steps));
        if finer < band { Some(finer) } else { None }
    }

    /// Cells in which each label within the outline is kept that the label overlaps in the band: at most
    /// four columns of them. They may be those of a finer band.
    pub fn around(&self, label: &Label, band: u8) -> Cells
        requires { band ≤ 27 }
        ensures few { AreFew result.x0 result.x1 }
        ensures whole { (a : Label) → IsWithin self.now a →
            OverlapIn label.now a band → IsKeptAmong result a }
    {
        let area = meeting_area(&extent(label), &self.reach);
        match self.finer(width_of(&area), band) {
            Some(finer) => cells_about(label, &area, band, finer),
            None => hull(label, band),
        }
    }

    /// Cells in which each label within the outline is kept that the label overlaps in any of the bands
    /// from `band` to `upto`: at most four columns of them, of one band up to `band`, or up to that in which a
    /// range ends first. None where labels reach too far, or begin too late, for cells of such a band.
    pub fn across(&self, label: &Label, band: u8, upto: u8) -> Option<Cells>
        requires { upto ≤ 27 }
        ensures few { IfSome result (λ cells. AreFew cells.x0 cells.x1) }
        ensures whole { IfSome result (HoldOverlapped self.now label.now band upto) }
    {
        let area = meeting_area(&extent(label), &self.reach);
        let finer = self.finer(width_of(&area), upto)?;
        if finer <= band.max(self.first_end) {
            Some(cells_about(label, &area, upto, finer))
        } else {
            None
        }
    }
}
