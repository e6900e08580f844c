//! The widest stretch between crossings.
ghost use Rattle.std.specs.Prelude.{◌≡◌, ◌+◌, ◌*◌, ◌/◌, ◌<◌, ◌≤◌, All, length};
ghost use Rattle.ml_ratio.specs.World.{IsInWorld};
ghost use Rattle.ml_anchor.specs.Best.{IsFirstGreatest};
ghost use Rattle.ml_anchor.specs.Pairs.{pair_gap};

// The width of the pair `k` of numbers taken two by two.
fn width(sorted: &[i64], k: usize) -> i64
    requires there { 2 * k + 1 < length sorted.now }
    requires world { All IsInWorld sorted.now }
    ensures { result ≡ pair_gap sorted.now k }
{
    sorted[2 * k + 1] - sorted[2 * k]
}

/// Of world coordinates in ascending order, taken two by two, the number of the pair with the
/// greatest difference, the first at a tie.
pub fn widest(sorted: &[i64]) -> usize
    requires some { 2 ≤ length sorted.now }
    requires world { All IsInWorld sorted.now }
    ensures { IsFirstGreatest (pair_gap sorted.now) (length sorted.now / 2) result }
{
    let mut best = 0;
    for k in 1..sorted.len() / 2 {
        if width(sorted, k) > width(sorted, best) {
            best = k;
        }
    }
    best
}
