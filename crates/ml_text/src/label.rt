//! The text of a label.
ghost use Rattle.std.specs.Prelude.{◌≡◌, ◌≤◌, IfOk, length};
ghost use Rattle.ml_text.specs.Label.{label_text as text_there, shown as shown_there};

use ml_ratio::Text;
use std::alloc::{AllocError, Global};

/// The text of a label: the name with U+0000 to U+001F, U+007F to U+009F, U+FFFE and U+FFFF each
/// replaced by one space.
///
/// # Errors
/// Out of memory.
pub fn label_text(alloc: Global, raw: &Text) -> Result<Text, AllocError>
    ensures value { IfOk result (λ text. text ≡ text_there raw.now) }
    ensures short { IfOk result (λ text. length text ≤ length raw.now) }
{
    let text: String = raw.as_str().chars().map(shown).collect(alloc)?;
    Ok(Text::of_string(text))
}

// The character, or a space where it cannot be shown.
fn shown(ch: char) -> char
    ensures { result ≡ shown_there ch }
{
    match ch {
        '\0'..='\u{1f}' | '\u{7f}'..='\u{9f}' | '\u{fffe}' | '\u{ffff}' => ' ',
        _ => ch,
    }
}
