//! A class of features: to which it applies, and how their labels look.
ghost use Rattle.std.specs.Prelude.{◌*◌, ◌^◌, ◌≤◌};
ghost use Rattle.ml_ratio.specs.Fraction.{value_of, IsLess};
ghost use Rattle.ml_style.specs.Offset.{IsOffset};
ghost use Rattle.ml_style.specs.Rule.{IsRule, IsRule-prop};

use ml_ratio::{Prop, Ratio, Text};

/// What shape the features of a class have.
#[derive(Clone, Copy, Debug, PartialEq, Eq)]
pub enum Kind {
    /// A point or several.
    PointKind,
    /// A line or several.
    LineKind,
    /// A polygon or several.
    AreaKind,
}

/// Which features have such a label, and how it looks.
///
/// A class applies to the features of its kind; where it has a rule, a key with a text, to those
/// alone that have this property. The size is 1 to 256 pixels and the priority 0 to 65535, the least
/// first. A line's text is fitted at `scale_ref` world units per pixel, 1 to 268435455; other kinds
/// have 1 there. `dx` and `dy` move a box by -256 to 256 pixels; lines have 0 there. The label may be
/// shown at the scales from `min` up to but not including `max`, `0 <= min < max <= 2^28`. It keeps
/// `margin` pixels free around itself, 0 to 64.
#[derive(Debug, Drop)]
pub struct Class {
    pub kind: Kind,
    pub rule: Option<Prop>,
    pub font: Text,
    pub size: u32,
    pub priority: u32,
    pub scale_ref: u32,
    pub dx: i32,
    pub dy: i32,
    pub min: Ratio,
    pub max: Ratio,
    pub margin: u32,
    ghost text_rule: { IsRule rule } by { IsRule-prop rule },
    ghost some_size: { 1 ≤ size },
    ghost low_size: { size ≤ 256 },
    ghost low_priority: { priority ≤ 65535 },
    ghost some_ref: { 1 ≤ scale_ref },
    ghost low_ref: { scale_ref ≤ 268435455 },
    ghost low_dx: { IsOffset dx },
    ghost low_dy: { IsOffset dy },
    ghost range: { IsLess (value_of min) (value_of max) },
    ghost low_max: { max.num ≤ 2 ^ 28 * max.den },
    ghost low_margin: { margin ≤ 64 },
}
