//! Why a feature has no label, told without memory.
ghost use Rattle.ml_label.specs.Labelling.{IsReason, IsUnlabelled};

use crate::name::has_name;
use crate::reason::Reason;
use ml_ratio::Feature;
use ml_style::{Style, class_of};

/// Why a feature that has no label under a style has none: the first reason that holds. It takes no
/// memory.
pub fn reason_of(style: &Style, feature: &Feature) -> Reason
    requires { IsUnlabelled style.now feature.now }
    ensures { IsReason style.now feature.now result }
{
    if feature.geometry.is_none() {
        return Reason::NoGeometry;
    }
    if class_of(style, feature).is_none() {
        return Reason::NoClass;
    }
    if has_name(style, feature) {
        Reason::TooWide
    } else {
        Reason::NoName
    }
}
