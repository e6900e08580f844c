//! Hundredths of a pixel as text.
ghost use Rattle.std.specs.Prelude.{◌≡◌, IfOk};
ghost use Rattle.ml_answer.specs.Px.{sign_text, px_text};

use ml_ratio::Text;
use std::alloc::{AllocError, Global};

/// The text of `v` hundredths with two decimals: `123.45` for 12345, `0.05` for 5, `-0.50` for -50.
///
/// # Errors
/// Out of memory.
#[tactic(auto, unfolding(crate::specs::Px::px_text))]
pub fn write_px(alloc: Global, v: i64) -> Result<Text, AllocError>
    ensures { IfOk result (λ text. text ≡ px_text v) }
{
    let sign = sign_of(v);
    let size = v.unsigned_abs();
    let whole = size / 100;
    let tenths = size % 100 / 10;
    let hundredths = size % 100 % 10;
    Ok(Text::of_string(format!(in alloc; "{sign}{whole}.{tenths}{hundredths}")?))
}

// A minus before what is below 0.
fn sign_of(v: i64) -> &'static str
    ensures { result.now ≡ sign_text v }
{
    if v < 0 { "-" } else { "" }
}
