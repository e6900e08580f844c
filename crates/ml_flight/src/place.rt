//! Places along the scales, and the place where the most labels are shown.
use ml_ratio::Ratio;

// A mark, or what lies just after it. Places are in order of their marks, and a mark comes before
// what lies just after it.
#[derive(Clone, Copy, Debug, PartialEq, Eq, PartialOrd, Ord)]
pub(crate) struct Place {
    pub mark: Ratio,
    pub after: bool,
}

/// The greatest number of labels that are shown at one scale, and the first place that has it: the
/// scale `mark`, or the scales just after it, where `after` says so.
#[derive(Clone, Copy, Debug, PartialEq, Eq)]
pub struct Peak {
    pub count: u32,
    pub mark: Ratio,
    pub after: bool,
}
