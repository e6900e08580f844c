//! How a feature of a map stands.
use ml_label::Reason;

/// How a feature of a map stands: without a label, for this reason, or with the label that has this
/// number.
#[derive(Clone, Copy, Debug, PartialEq, Eq)]
pub enum Standing {
    Unlabelled(Reason),
    Labelled(u32),
}
