//! Numbers of a map: a number's text as an exact decimal fraction, in fixed decimals.
ghost use Rattle.std.specs.Prelude.{◌≡◌, ◌<◌, ◌≤◌, ◌^◌, ◌*◌, ◌+◌, min, take, drop, length, IfSome};
ghost use Rattle.std.specs.Str.Parse.{digits_value, starts_with_minus};
ghost use Rattle.ml_ratio.specs.JsonNumber.{is_digit as spec_is_digit};
ghost use Rattle.ml_json.specs.Decimal.{before as spec_before, behind as spec_behind, digits_in, signed, size_at, e7_of, whole_of};
ghost use Rattle.ml_ratio.specs.World.{IsInWorld};

use ml_ratio::Text;

// The greatest size of a world coordinate, in units of 10^-7.
const FARTHEST: u128 = 2_000_000_000;

// 2^53, the greatest whole part that is told apart.
const GREATEST_WHOLE: u128 = 9_007_199_254_740_992;

/// The value of a JSON number's text times 10^7, rounded to the nearest whole number, a half away from
/// zero. None where that is beyond 2,000,000,000 in size.
pub fn e7(num: &Text) -> Option<i64>
    ensures value { result ≡ e7_of num.now }
    ensures world { IfSome result IsInWorld }
{
    coordinate(num.as_str())
}

/// [`e7`] of a text that is borrowed.
pub fn coordinate(num: &str) -> Option<i64>
    ensures value { result ≡ e7_of num.now }
    ensures world { IfSome result IsInWorld }
{
    let text = num.as_bytes();
    let size = (scaled(text, 8, 10 * FARTHEST + 10) + 5) / 10;
    if size > FARTHEST {
        return None;
    }
    Some(with_sign(is_negative(text), size as u64))
}

/// The value of a JSON number's text without its fraction: 0 where it is negative, 2^53 where it is greater.
pub fn whole_part(num: &Text) -> u64
    ensures value { result ≡ whole_of num.now }
    ensures small { result ≤ 2 ^ 53 }
{
    let text = num.as_str().as_bytes();
    if is_negative(text) {
        return 0;
    }
    scaled(text, 0, GREATEST_WHOLE) as u64
}

// The size with a sign.
fn with_sign(minus: bool, size: u64) -> i64
    requires { size ≤ 2000000000 }
    ensures { result ≡ signed minus size }
{
    if minus { -(size as i64) } else { size as i64 }
}

// The value's size times 10^`power` without its fraction, or `most` where that is less.
//
// No power of ten is built: of the digits before the exponent those are read that stand before the
// cut, and zeros are put behind them only until `most` is reached. An exponent is read up to a bound
// that already moves every digit of the text past `most` or below the cut.
fn scaled(text: &[u8], power: u128, most: u128) -> u128
    requires power { power ≤ 8 }
    requires most { most < 10 ^ 18 }
    ensures { result ≡ min (size_at power text.now) most }
{
    let mantissa = before(text, b'e', b'E');
    let exponent = behind(text, b'e', b'E');
    let digits = digit_count(mantissa) as u128;
    let places = digit_count(behind(mantissa, b'.', b'.')) as u128;
    let size = leading(exponent, exponent.len() as u128, text.len() as u128 + 64);
    let kept = if is_negative(exponent) {
        (digits + power).saturating_sub(places + size)
    } else {
        (digits + size + power).saturating_sub(places)
    };
    grown(
        leading(mantissa, kept, most),
        kept.saturating_sub(digits),
        most,
    )
}

// Whether the text begins with a minus.
fn is_negative(text: &[u8]) -> bool
    ensures { result ≡ starts_with_minus text.now }
{
    match text {
        [b'-', ..] => true,
        _ => false,
    }
}

// Whether the byte is a decimal digit.
fn is_digit(byte: u8) -> bool
    ensures { result ≡ spec_is_digit byte }
{
    b'0' <= byte && byte <= b'9'
}

// The place of the first byte that is one of two, or the length.
fn place_of(text: &[u8], first: u8, second: u8) -> usize
    ensures within { result ≤ length text.now }
    ensures before { take result text.now ≡ spec_before first second text.now }
    ensures behind { drop (result + 1) text.now ≡ spec_behind first second text.now }
{
    for (at, byte) in text.iter().enumerate() {
        if *byte == first || *byte == second {
            return at;
        }
    }
    text.len()
}

// The bytes before the first one that is one of two.
fn before(text: &[u8], first: u8, second: u8) -> &[u8]
    ensures { result.now ≡ spec_before first second text.now }
{
    let (front, _back) = text.split_at(place_of(text, first, second));
    front
}

// The bytes behind the first one that is one of two.
fn behind(text: &[u8], first: u8, second: u8) -> &[u8]
    ensures { result.now ≡ spec_behind first second text.now }
{
    let at = place_of(text, first, second);
    if at == text.len() {
        return &text[at..];
    }
    &text[at + 1..]
}

// How many of the bytes are decimal digits.
fn digit_count(text: &[u8]) -> usize
    ensures { result ≡ length (digits_in text.now) }
{
    text.iter().filter(|byte| is_digit(**byte)).count()
}

// The number that the first `kept` digits among the bytes write, or `most` where that is less.
fn leading(text: &[u8], kept: u128, most: u128) -> u128
    requires { most < 2 ^ 70 }
    ensures { result ≡ min (digits_value 10 (take kept (digits_in text.now))) most }
{
    let mut left = kept;
    let mut number = 0;
    for byte in text {
        if left == 0 {
            return number;
        }
        if is_digit(*byte) {
            number = (10 * number + u128::from(*byte - b'0')).min(most);
            left -= 1;
        }
    }
    number
}

// The number with zeros put behind it, or `most` where that is less.
fn grown(front: u128, zeros: u128, most: u128) -> u128
    requires within { front ≤ most }
    requires most { most < 2 ^ 70 }
    ensures { result ≡ min (front * 10 ^ zeros) most }
{
    let mut number = front;
    let mut left = zeros;
    while left > 0 && number > 0 && number < most {
        number = (10 * number).min(most);
        left -= 1;
    }
    number
}
