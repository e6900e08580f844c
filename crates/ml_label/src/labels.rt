//! The labels of a map.
ghost use Rattle.std.specs.Prelude.{◌≡◌, ◌≢◌, ◌≤◌, IfOk, length};
ghost use Rattle.std.specs.List.{AllPairs};
ghost use Rattle.ml_label.specs.Labels.{AreUnsorted, AreLabelsOf};

use crate::label::label_of;
use crate::order::in_priority_order;
use ml_cone::Label;
use ml_ratio::Feature;
use ml_style::Style;
use std::alloc::{AllocError, Global};

/// The labels of the features under a style, in priority order. Features without a label are passed
/// over. No two features may have the same id.
///
/// # Errors
/// Out of memory.
pub fn labels_of(
    alloc: Global,
    style: &Style,
    features: &[Feature],
) -> Result<Vec<Label>, AllocError>
    requires differ { AllPairs (λ one other. one.id ≢ other.id) features.now }
    ensures ok { IfOk result (λ labels. AreLabelsOf style.now features.now labels.items) }
    ensures few { IfOk result (λ labels. length labels.items ≤ length features.now) }
{
    let labels = unsorted(alloc, style, features)?;
    Ok(in_priority_order(labels))
}

// The labels in the order of the features.
fn unsorted(alloc: Global, style: &Style, features: &[Feature]) -> Result<Vec<Label>, AllocError>
    ensures { IfOk result (λ labels. AreUnsorted style.now features.now labels.items) }
{
    let mut labels = Vec::new(alloc);
    for feature in features {
        match label_of(alloc, style, feature)? {
            Ok(label) => labels.push(label)?,
            Err(_reason) => {}
        }
    }
    Ok(labels)
}
