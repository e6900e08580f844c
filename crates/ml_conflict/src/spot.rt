//! Where a label of a list lies.
ghost use Rattle.ml_ratio.specs.World.{IsInWorld};

use ml_cone::Site;

/// The place of a label in the list, its anchor, and its site.
#[derive(Clone, Copy)]
pub struct Spot {
    pub place: u32,
    pub x: i64,
    pub y: i64,
    pub site: Site,
    ghost world_x: { IsInWorld x },
    ghost world_y: { IsInWorld y },
}
