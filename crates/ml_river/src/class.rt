//! How the text of a river is set.
ghost use Rattle.ml_river.specs.Class.{IsUnits, IsSize, IsReference};

/// How the text of a river is set: `units` of the font's advances make an em (1..=65,535), the text
/// is `size` pixels high (1..=256), and its chain is fitted at `scale_ref` world units a pixel
/// (1..=268,435,455).
#[derive(Clone, Copy, Debug, PartialEq, Eq)]
pub struct RiverClass {
    pub units: u32,
    pub size: u32,
    pub scale_ref: u32,
    ghost units_in: { IsUnits units },
    ghost size_in: { IsSize size },
    ghost reference_in: { IsReference scale_ref },
}
