//! Laws over the definitions alone: what a quotient rounded down is.
ghost use Rattle.std.specs.Prelude.{ℤ, pos, ◌<ℤ◌, ◌≤ℤ◌, ◌+ℤ◌, ◌*ℤ◌};
ghost use Rattle.ml_ratio.specs.Floor.{floor};

/// A quotient rounded down is the greatest whole number that is at most the quotient.
pub fn floors()
    ensures { (p d : ℤ) → pos 0 <ℤ d →
        ((floor p d *ℤ d) ≤ℤ p) × (p <ℤ ((floor p d +ℤ pos 1) *ℤ d)) }
{}
