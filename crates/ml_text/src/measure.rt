//! How wide a text is.
ghost use Rattle.std.specs.Prelude.{◌≡◌, ◌-◌, ◌*◌, ◌^◌, ◌<◌, ◌≤◌, length, min};
ghost use Rattle.ml_text.specs.Width.{advance_sum as sum_there, width_of};

use ml_ratio::Text;
use ml_style::Font;

/// The width of the text in pixels at this size, 1 to 256: the sum of the advances of its characters
/// times the size, divided by the font's units, rounded up, and at least 1. 2^64 - 1 stands for any
/// greater width.
pub fn width(font: &Font, size: u32, text: &Text) -> u64
    requires { (1 ≤ size) × (size ≤ 256) }
    ensures value { result ≡ min (width_of font.now size text.now) (2 ^ 64 - 1) }
    ensures whole { length text.now < 2 ^ 32 → result ≡ width_of font.now size text.now }
{
    let advances = advance_sum(font, text.as_str());
    let width = (advances * u128::from(size)).div_ceil(u128::from(font.units));
    u64::try_from(width.max(1)).unwrap_or(u64::MAX)
}

/// How far all characters of the text move the pen, in units of the font.
pub(crate) fn advance_sum(font: &Font, text: &str) -> u128
    ensures value { result ≡ sum_there font.now text.now }
    ensures low { result < 2 ^ 80 }
{
    let mut sum: u128 = 0;
    for ch in text.chars() {
        sum += u128::from(font.advance(ch));
    }
    sum
}
