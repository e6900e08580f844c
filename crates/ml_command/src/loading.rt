//! A map that is loaded to be served.
ghost use Rattle.std.specs.Prelude.{◌≡◌, ◌≤◌, IfOk, IfErr, length};
ghost use Rattle.ml_ratio.specs.Limits.{most_labels};
ghost use Rattle.ml_io.specs.Files.{seen};
ghost use Rattle.ml_editor.specs.State.{first_state};
ghost use Rattle.ml_geojson.specs.Map.{HaveDifferentIds};
ghost use Rattle.ml_command.specs.Inputs.{Keeps};
ghost use Rattle.ml_command.specs.Loading.{IsFirstState, no_tiles};
ghost use Rattle.ml_command.specs.MapInputs.{IsMapAnswerStop};

use crate::map_inputs::{load_map, load_style};
use crate::stop::Stop;
use ml_editor::{Editor, LoadRefused};
use ml_io::Files;
use ml_ratio::{Feature, Seq};
use ml_style::Style;
use ml_tile::Tiles;
use std::alloc::{AllocError, Global};

/// A map that was loaded, and the room for tiles of it.
pub type Site = (Editor, Tiles);

/// The map of this name under the style of that name, at its first revision; and room for tiles of it,
/// of which none is held yet.
///
/// # Errors
/// As [`load_style`] and then [`load_map`]; out of memory.
pub fn load_editor<F: Files>(
    alloc: Global,
    files: &mut F,
    style: &str,
    map: &str,
) -> Result<Site, Stop>
    ensures ok { IfOk result
        (λ p. IsFirstState (F.told files.old) style.now map.now p.0.state × (p.1 ≡ no_tiles)) }
    ensures stop { IfErr result (IsMapAnswerStop
        (seen F.told F.faults F.failed_name files.old files.new) style.now map.now) }
    ensures same { F.told files.new ≡ F.told files.old }
    ensures kept { Keeps (seen F.told F.faults F.failed_name files.old files.new) result }
    ensures later { F.faults files.old ≤ F.faults files.new }
{
    let classes = load_style(alloc, files, style)?;
    let features = load_map(alloc, files, map)?;
    let site = site_of(alloc, classes, features)?;
    Ok(site)
}

// The map of these features under the style, at its first revision, and room for tiles of it.
fn site_of(alloc: Global, classes: Style, features: Seq<Feature>) -> Result<Site, AllocError>
    requires differ { HaveDifferentIds features }
    requires few { length features ≤ most_labels }
    ensures state { IfOk result (λ p. p.0.state ≡ first_state classes features) }
    ensures none { IfOk result (λ p. p.1 ≡ no_tiles) }
{
    let editor = loaded(alloc, classes, features)?;
    with_tiles(alloc, editor)
}

// The map of these features under a style, at its first revision. There are no more features than there may be.
pub(crate) fn loaded(
    alloc: Global,
    style: Style,
    features: Seq<Feature>,
) -> Result<Editor, AllocError>
    requires differ { HaveDifferentIds features }
    requires few { length features ≤ most_labels }
    ensures { IfOk result (λ editor. editor.state ≡ first_state style features) }
{
    match Editor::load(alloc, style, features) {
        Ok(editor) => Ok(editor),
        Err(LoadRefused::Full) => unreachable!(),
        Err(LoadRefused::Memory) => Err(AllocError),
    }
}

// The map, and room for tiles of it.
fn with_tiles(alloc: Global, editor: Editor) -> Result<Site, AllocError>
    ensures state { IfOk result (λ p. p.0.state ≡ editor.state) }
    ensures none { IfOk result (λ p. p.1 ≡ no_tiles) }
{
    let tiles = Tiles::new(alloc)?;
    Ok((editor, tiles))
}
