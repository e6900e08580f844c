//! Where strips begin.
ghost use Rattle.std.specs.Prelude.{◌≡◌};
ghost use Rattle.ml_ratio.specs.World.{IsInWorld};

use ml_cone::Label;

/// An anchor, as the beginning of a strip.
#[derive(Clone, Copy)]
pub struct Corner {
    pub x: i64,
    pub y: i64,
    ghost world_x: { IsInWorld x },
    ghost world_y: { IsInWorld y },
}

impl Corner {
    /// The label's anchor.
    pub fn of(label: &Label) -> Corner
        ensures x { result.x ≡ label.now.x }
        ensures y { result.y ≡ label.now.y }
    {
        Corner {
            x: label.x(),
            y: label.y(),
        }
    }

    /// Whether the anchor lies to the east of the other or, at its x, to the north, or is it.
    pub fn is_from(&self, other: &Corner) -> bool {
        other.x < self.x || (other.x == self.x && other.y <= self.y)
    }
}
