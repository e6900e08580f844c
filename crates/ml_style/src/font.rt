//! Fonts, of which only the widths of characters count.
ghost use Rattle.std.specs.Prelude.{◌≤◌};
ghost use Rattle.ml_style.specs.Advances.{AreAscending, AreAscending-prop};

use crate::advance::Advance;
use ml_ratio::Seq;

/// The widths of a font's characters.
///
/// `units` is the height of a line in units, 1 to 65535. A character that has no advance of its own
/// is `fallback` units wide, at most 65535. The advances are in order of their characters, each once.
#[derive(Debug, Drop)]
pub struct Font {
    pub units: u32,
    pub fallback: u32,
    pub advances: Seq<Advance>,
    ghost some_units: { 1 ≤ units },
    ghost few_units: { units ≤ 65535 },
    ghost narrow: { fallback ≤ 65535 },
    ghost ascending: { AreAscending advances } by { AreAscending-prop advances },
}

impl Font {
    ghost use Rattle.std.specs.Prelude.{◌≡◌};
    ghost use Rattle.ml_style.specs.Font.{advance_of};

    /// How far the character moves the pen, in units of the font.
    pub fn advance(&self, ch: char) -> u32
        ensures value { result ≡ advance_of self.now ch }
        ensures narrow { result ≤ 65535 }
    {
        let advances = self.advances.as_slice();
        match advances.binary_search_by_key(&ch, |advance| advance.ch) {
            Ok(place) => advances[place].width,
            Err(_) => self.fallback,
        }
    }
}
