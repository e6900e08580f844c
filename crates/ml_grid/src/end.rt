//! The end of a label's active range in one word.
//!
//! An index holds two ends for each of its entries, and a label has up to hundreds of these. So an end is kept in eight
//! bytes and not in sixteen: its numerator above its denominator.
ghost use Rattle.std.specs.Prelude.{◌≡◌, ◌/◌, ◌%◌};
ghost use Rattle.ml_grid.specs.End.{AreTerms};

use ml_ratio::Ratio;
use ml_spans::Key;
use std::cmp::Ordering;
use std::marker::Model;

// The denominator is below this, 2^17.
const BELOW: u64 = 131072;

/// A fraction in one word, which contracts see as the fraction.
#[derive(Clone, Copy, Debug)]
pub struct End {
    parts: u64,
    ghost terms: { AreTerms (parts / 131072) (parts % 131072) },
}

impl Model for End {
    ghost use Rattle.ml_ratio.specs.declared.ratio.Ratio.{Ratio};

    ghost Value = { Ratio };

    ghost use Rattle.ml_grid.specs.End.{unpacked, packed, packed_terms};

    ghost view = { λ e. unpacked e.parts e.terms };

    ghost inverse = { λ r. record { parts = packed r; terms = packed_terms r } };

    ghost use Rattle.ml_grid.specs.Packed.{packed_back};

    ghost inverse_ok = { λ a h. packed_back a };
}

impl End {
    /// The same fraction.
    pub fn of(ratio: &Ratio) -> End
        ensures { result ≡ ratio.now }
    {
        End {
            parts: ratio.num() * BELOW + ratio.den(),
        }
    }

    // The numerator.
    fn num(&self) -> u64
        ensures { result ≡ self.now.num }
    {
        self.parts / BELOW
    }

    // The denominator.
    fn den(&self) -> u64
        ensures { result ≡ self.now.den }
    {
        self.parts % BELOW
    }
}

impl Key for End {
    ghost use Rattle.ml_ratio.specs.RatioOrder.{ratio_cmp, ratio_total};
    ghost use Rattle.ml_ratio.specs.RatioExact.{ratio_exact};

    ghost order = { ratio_cmp };

    ghost total = { ratio_total };

    ghost exact = { ratio_exact };

    fn compare(&self, other: &End) -> Ordering {
        (self.num() * other.den()).cmp(&(other.num() * self.den()))
    }
}
