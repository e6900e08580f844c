//! The parts of a class that are read one after another.
ghost use Rattle.std.specs.Prelude.{◌≤◌};
ghost use Rattle.ml_style.specs.Offset.{IsOffset};
ghost use Rattle.ml_style.specs.Rule.{IsRule, IsRule-prop};

use crate::class::Kind;
use ml_ratio::Prop;

/// To which features a class applies, and how their text looks.
#[derive(Debug, Drop)]
pub(crate) struct Look<'a> {
    pub(crate) kind: Kind,
    pub(crate) rule: Option<Prop>,
    pub(crate) font: &'a str,
    pub(crate) size: u32,
    pub(crate) priority: u32,
    ghost text_rule: { IsRule rule } by { IsRule-prop rule },
    ghost some_size: { 1 ≤ size },
    ghost low_size: { size ≤ 256 },
    ghost low_priority: { priority ≤ 65535 },
}

/// At which scale the text of a line is fitted, and where a label's box is.
#[derive(Debug, Drop)]
pub(crate) struct Placing {
    pub(crate) scale_ref: u32,
    pub(crate) dx: i32,
    pub(crate) dy: i32,
    ghost some_ref: { 1 ≤ scale_ref },
    ghost low_ref: { scale_ref ≤ 268435455 },
    ghost low_dx: { IsOffset dx },
    ghost low_dy: { IsOffset dy },
}
