//! What is still to come of a character in UTF-8.

/// The bytes that a character still wants. The first of them is within narrower bounds behind E0, ED, F0 and F4.
#[derive(Clone, Copy)]
pub enum Tail {
    One,
    Two,
    Three,
    AfterE0,
    AfterEd,
    AfterF0,
    AfterF4,
}
