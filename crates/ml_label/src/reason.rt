//! Why a feature has no label.
use thiserror::Error;

/// Why a feature has no label. Of several the first holds.
#[derive(Clone, Copy, Debug, PartialEq, Eq, Error)]
pub enum Reason {
    /// The feature has no geometry.
    #[error("the feature has no geometry")]
    NoGeometry,
    /// No class of the style applies to the feature.
    #[error("no class applies to the feature")]
    NoClass,
    /// Its name is absent, null, a truth value, empty or of spaces alone.
    #[error("the feature has no name")]
    NoName,
    /// Its text is straight and reaches further than 512 pixels to the left or right.
    #[error("the label is too wide")]
    TooWide,
}
