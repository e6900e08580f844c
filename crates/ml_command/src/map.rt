//! What is asked of a map under a style.
ghost use Rattle.std.specs.Prelude.{◌≡◌, ◌≤◌, IfOk, IfErr, length};
ghost use Rattle.ml_ratio.specs.Limits.{most_labels};
ghost use Rattle.ml_io.specs.Files.{seen};
ghost use Rattle.ml_geojson.specs.Map.{HaveDifferentIds};
ghost use Rattle.ml_command.specs.Answers.{IsMapAnswer, IsMapZoom, IsTextOf};
ghost use Rattle.ml_command.specs.Inputs.{Keeps};
ghost use Rattle.ml_command.specs.MapInputs.{IsMapAnswerStop};

use crate::command::MapTask;
use crate::map_inputs::{load_map, load_style};
use crate::map_line::map_line;
use crate::stop::Stop;
use crate::zoom::zoom_of;
use ml_flight::Window;
use ml_io::Files;
use ml_label::labels_of;
use ml_ratio::{Feature, Seq};
use ml_style::Style;
use std::alloc::{AllocError, Global};

/// The text that is asked of the labels of a map's features under a style, by the names of both.
///
/// # Errors
/// As [`load_style`] and then [`load_map`].
pub fn on_map<F: Files>(
    alloc: Global,
    files: &mut F,
    style: &str,
    map: &str,
    task: MapTask,
) -> Result<Seq<u8>, Stop>
    ensures ok { IfOk result (IsMapAnswer (F.told files.old) style.now map.now task) }
    ensures stop { IfErr result (IsMapAnswerStop
        (seen F.told F.faults F.failed_name files.old files.new) style.now map.now) }
    ensures same { F.told files.new ≡ F.told files.old }
    ensures kept { Keeps (seen F.told F.faults F.failed_name files.old files.new) result }
    ensures later { F.faults files.old ≤ F.faults files.new }
{
    let classes = load_style(alloc, files, style)?;
    let features = load_map(alloc, files, map)?;
    let text = map_text(alloc, classes, features, task)?;
    Ok(text)
}

// The text that is asked of the labels of features under a style.
fn map_text(
    alloc: Global,
    classes: Style,
    features: Seq<Feature>,
    task: MapTask,
) -> Result<Seq<u8>, AllocError>
    requires differ { HaveDifferentIds features }
    requires few { length features ≤ most_labels }
    ensures { IfOk result (IsTextOf classes features task) }
{
    match task {
        MapTask::ViewMap(view) => map_line(alloc, classes, features, &view),
        MapTask::Zoom(window) => map_zoom(alloc, &classes, features.as_slice(), &window),
    }
}

// The text of the zoom timeline of features under a style.
fn map_zoom(
    alloc: Global,
    classes: &Style,
    features: &[Feature],
    window: &Window,
) -> Result<Seq<u8>, AllocError>
    requires differ { HaveDifferentIds features.now }
    requires few { length features.now ≤ most_labels }
    ensures { IfOk result (IsMapZoom classes.now features.now window.now) }
{
    let labels = labels_of(alloc, classes, features)?;
    zoom_of(alloc, &labels, window)
}
