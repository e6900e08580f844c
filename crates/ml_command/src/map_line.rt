//! The line of a view of a map.
ghost use Rattle.std.specs.Prelude.{◌≤◌, IfOk, length};
ghost use Rattle.ml_ratio.specs.Limits.{most_labels};
ghost use Rattle.ml_geojson.specs.Map.{HaveDifferentIds};
ghost use Rattle.ml_command.specs.Answers.{IsMapView};

use crate::loading::loaded;
use ml_answer::view_json;
use ml_cone::View;
use ml_ratio::{Feature, Seq};
use ml_repair::laws::one_label_a_number;
use ml_style::Style;
use std::alloc::{AllocError, Global};
use std::mem::forget;

/// The line of the view of the map of these features under a style, each label active as the longest
/// choice says.
///
/// # Errors
/// Out of memory.
pub fn map_line(
    alloc: Global,
    style: Style,
    features: Seq<Feature>,
    view: &View,
) -> Result<Seq<u8>, AllocError>
    requires differ { HaveDifferentIds features }
    requires few { length features ≤ most_labels }
    ensures { IfOk result (IsMapView style features view.now) }
{
    one_label_a_number();
    let editor = loaded(alloc, style, features)?;
    let mut line = view_json(alloc, &editor, view)?;
    line.push(b'\n')?;
    // The run ends here, and the system takes back all memory at once.
    forget(editor);
    Ok(line)
}
