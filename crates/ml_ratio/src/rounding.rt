//! Quotients and heights on straight lines, rounded towards minus infinity.
ghost use Rattle.std.specs.Prelude.{◌≡◌, ℤ, pos, ◌+ℤ◌, ◌*ℤ◌, ◌<ℤ◌, ◌≤ℤ◌};
ghost use Rattle.ml_ratio.specs.World.{IsInWorld};
ghost use Rattle.ml_ratio.specs.Floor.{floor, height_on};

/// `p / d`, rounded down, for `d` above 0.
pub fn floor_of(p: i128, d: i128) -> i128
    requires { pos 0 <ℤ d }
    ensures value { result ≡ floor p d }
    ensures bounds { ((result *ℤ d) ≤ℤ p) × (p <ℤ ((result +ℤ pos 1) *ℤ d)) }
{
    p.div_euclid(d)
}

/// Half the sum of two world coordinates, rounded down. It lies between them.
#[tactic(auto, unfolding(crate::specs::Floor::floor))]
pub fn half(a: i64, b: i64) -> i64
    requires a_in_world { IsInWorld a }
    requires b_in_world { IsInWorld b }
    ensures value { result ≡ floor (a +ℤ b) (pos 2) }
    ensures world { IsInWorld result }
    ensures between { a ≤ℤ b → (a ≤ℤ result) × (result ≤ℤ b) }
{
    (a + b).div_euclid(2)
}

/// The height at `t` of the straight line from `from` to `to`, rounded down. Each end is a place
/// along the line and the height there, and `t` lies between the two places. The heights are world
/// coordinates, and so is the answer.
pub fn height_at(from: (i64, i64), to: (i64, i64), t: i64) -> i64
    requires after { from.0 ≤ℤ t }
    requires before { t ≤ℤ to.0 }
    requires apart { from.0 <ℤ to.0 }
    requires from_world { IsInWorld from.1 }
    requires to_world { IsInWorld to.1 }
    ensures value { result ≡ height_on from.0 from.1 to.0 to.1 t }
    ensures world { IsInWorld result }
{
    let climb = to.1 as i128 - from.1 as i128;
    let along = t as i128 - from.0 as i128;
    let whole = to.0 as i128 - from.0 as i128;
    let rise = floor_of(climb * along, whole);
    let height = from.1 as i128 + rise;
    height as i64
}
