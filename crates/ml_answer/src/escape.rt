//! Text as XML has it.
ghost use Rattle.std.specs.Prelude.{◌≡◌, ◌++◌, OnOk};
ghost use Rattle.std.specs.List.{flat_map};
ghost use Rattle.ml_answer.specs.Svg.{escaped_byte};

use std::alloc::AllocError;

// Adds a text with `&`, `<` and `>` by their names, so that none of it is read as a tag.
pub(crate) fn push_escaped(text: &mut Vec<u8>, piece: &str) -> Result<(), AllocError>
    ensures { OnOk result (text.new.items ≡ text.old.items ++ flat_map escaped_byte piece.now) }
{
    for byte in piece.as_bytes() {
        push_byte(text, *byte)?;
    }
    Ok(())
}

// Adds a byte, or its name.
fn push_byte(text: &mut Vec<u8>, byte: u8) -> Result<(), AllocError>
    ensures { OnOk result (text.new.items ≡ text.old.items ++ escaped_byte byte) }
{
    match byte {
        b'&' => text.extend_from_slice(b"&amp;"),
        b'<' => text.extend_from_slice(b"&lt;"),
        b'>' => text.extend_from_slice(b"&gt;"),
        _ => text.extend_from_slice(&[byte]),
    }
}
