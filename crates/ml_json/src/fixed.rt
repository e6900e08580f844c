//! World coordinates as text.
ghost use Rattle.std.specs.Prelude.{◌≡◌, ◌+◌, ◌%◌, ◌++◌, IfOk, OnOk};
ghost use Rattle.ml_ratio.specs.JsonNumber.{IsNumber};
ghost use Rattle.ml_json.specs.Fixed.{e7_text, size_text, ReadsBack};

use itoa::Buffer;
use ml_ratio::Text;
use std::alloc::{AllocError, Global};

/// A coordinate, in units of 10^-7 degree, as a JSON number of always seven decimals: `8.5417000`.
///
/// # Errors
/// Out of memory.
pub fn write_e7(alloc: Global, v: i64) -> Result<Text, AllocError>
    ensures ok { IfOk result (λ text. text ≡ e7_text v) }
    ensures number { IfOk result IsNumber }
    ensures back { IfOk result (ReadsBack v) }
{
    let mut text = Vec::new(alloc);
    put_e7(&mut text, v)?;
    Ok(Text::of_string(unsafe { String::from_utf8_unchecked(text) }))
}

/// Puts the text of a coordinate behind what was written.
///
/// # Errors
/// Out of memory.
pub fn put_e7(out: &mut Vec<u8>, v: i64) -> Result<(), AllocError>
    ensures { OnOk result (out.new.items ≡ out.old.items ++ e7_text v) }
{
    if v < 0 {
        out.push(b'-')?;
        put_size(out, v.unsigned_abs())
    } else {
        put_size(out, v.unsigned_abs())
    }
}

// Puts the text of a size behind what was written.
fn put_size(out: &mut Vec<u8>, size: u64) -> Result<(), AllocError>
    ensures { OnOk result (out.new.items ≡ out.old.items ++ size_text size) }
{
    out.extend_from_slice(Buffer::new().format(size / 10_000_000).as_bytes())?;
    out.extend_from_slice(&[
        b'.',
        last_digit(size / 1_000_000),
        last_digit(size / 100_000),
        last_digit(size / 10_000),
        last_digit(size / 1_000),
        last_digit(size / 100),
        last_digit(size / 10),
        last_digit(size),
    ])
}

// The last decimal digit.
fn last_digit(number: u64) -> u8
    ensures { result ≡ 48 + number % 10 }
{
    b'0' + (number % 10) as u8
}
