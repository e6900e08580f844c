//! The hull of a label: the cells of a band that hold it at every scale of the band.
ghost use Rattle.std.specs.Prelude.{◌≡◌, ◌≤◌};
ghost use Rattle.ml_ratio.specs.World.{IsInWorld};
ghost use Rattle.ml_cone.specs.Plane.{IsReach, IsBox};
ghost use Rattle.ml_cone.specs.Overlap.{widened};
ghost use Rattle.ml_cone.specs.Cells.{column_of};
ghost use Rattle.ml_cone.specs.Hull.{reach_of, join, hull_of, AreFew};

use crate::cells::{Cells, SIDE_BITS, pixel_of};
use crate::label::{BoxPx, Label};
use crate::margin::widened;
use std::cmp::{max, min};

// The least box that holds both.
pub(crate) fn joined(a: &BoxPx, p: &BoxPx) -> BoxPx
    ensures { result ≡ join a.now p.now }
{
    BoxPx {
        l: min(a.l, p.l),
        b: min(a.b, p.b),
        r: max(a.r, p.r),
        t: max(a.t, p.t),
    }
}

// The least box that holds `all` and the label's box `p`, widened by its margin.
fn holding(label: &Label, all: &BoxPx, p: &BoxPx) -> BoxPx
    requires { IsBox p.now.l p.now.b p.now.r p.now.t }
    ensures { result ≡ join all.now (widened label.now p.now) }
{
    joined(all, &widened(label, p))
}

/// The label's reach: the least box that holds its anchor and all its boxes, each widened by its margin.
/// It is the same in all bands, so whoever asks for the hulls of many bands computes it once.
pub fn extent(label: &Label) -> BoxPx
    ensures { result ≡ reach_of label.now }
{
    let mut all = BoxPx {
        l: 0,
        b: 0,
        r: 0,
        t: 0,
    };
    for p in label.boxes.as_slice() {
        all = holding(label, &all, p);
    }
    all
}

// The column of cells of the band `cells` in which the place `u` pixels from `x` lies, a pixel being as
// large as at the upper end of the band.
pub(crate) fn column(x: i64, u: i32, band: u8, cells: u8) -> i32
    requires x_in_world { IsInWorld x }
    requires u_in_reach { IsReach u }
    requires low_band { band ≤ 27 }
    requires low_cells { cells ≤ 27 }
    ensures { result ≡ column_of x u band cells }
{
    let wide = u as i64;
    let offset = wide * pixel_of(band);
    let place = x + offset;
    let column = place >> (cells + SIDE_BITS);
    column as i32
}

/// The label's hull in the band, which is at most 27: the cells from that of the lower left corner of
/// all that the label covers at the upper end of the band, with its boxes widened by its margin and its
/// anchor counted in, to that of the upper right corner. These are at most 4 by 4 cells.
pub fn hull(label: &Label, band: u8) -> Cells
    requires { band ≤ 27 }
    ensures hull { result ≡ hull_of label.now band }
    ensures few_columns { AreFew result.x0 result.x1 }
    ensures few_rows { AreFew result.y0 result.y1 }
{
    hull_within(label, &extent(label), band)
}

/// The same as [`hull`], where the label's reach is known already ([`extent`]).
pub fn hull_within(label: &Label, reach: &BoxPx, band: u8) -> Cells
    requires reach { reach.now ≡ reach_of label.now }
    requires low { band ≤ 27 }
    ensures hull { result ≡ hull_of label.now band }
    ensures few_columns { AreFew result.x0 result.x1 }
    ensures few_rows { AreFew result.y0 result.y1 }
{
    Cells {
        band,
        x0: column(label.x, reach.l, band, band),
        y0: column(label.y, reach.b, band, band),
        x1: column(label.x, reach.r, band, band),
        y1: column(label.y, reach.t, band, band),
    }
}
