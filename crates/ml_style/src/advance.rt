//! How far one character moves the pen.
ghost use Rattle.std.specs.Prelude.{◌≤◌};

/// A character and its width, at most 65535 of its font's units.
#[derive(Clone, Copy, Debug, PartialEq, Eq)]
pub struct Advance {
    pub ch: char,
    pub width: u32,
    ghost narrow: { width ≤ 65535 },
}
