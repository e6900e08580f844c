//! The map of groups, by way of its own text.
ghost use Rattle.std.specs.Prelude.{◌≡◌, ◌*◌, ◌≤◌, List, length, All, IfOk, Contains, codes, flat_map};
ghost use Rattle.ml_ratio.specs.declared.feature.Feature.{Feature as FeatureOfMap};
ghost use Rattle.ml_geojson.specs.Map.{HaveDifferentIds};
ghost use Rattle.ml_editor.specs.State.{HasFeature, first_state};
ghost use Rattle.ml_gen.specs.Group.{IsGroupPlace, HaveOwnNumbers};
ghost use Rattle.ml_gen.specs.Thing.{id_of, things_in};
ghost use Rattle.ml_gen.specs.Totals.{AreReadBack, AreRead};

use crate::group::Group;
use crate::things::things_of;
use ml_editor::{Editor, LoadRefused};
use ml_geojson::{GeoFault, read_collection, write_collection};
use ml_ratio::{Feature, Seq};
use ml_style::Style;
use std::alloc::{AllocError, Global};

// The features that the text of these features is read as.
fn read_back(alloc: Global, made: &Seq<Feature>) -> Result<Seq<Feature>, AllocError>
    requires { HaveDifferentIds made.now }
    ensures read { IfOk result (AreReadBack made.now) }
    ensures differ { IfOk result HaveDifferentIds }
    ensures same { IfOk result (λ read. read ≡ made.now) }
{
    let text = write_collection(alloc, made)?;
    match read_collection(alloc, text.as_slice()) {
        Ok(read) => Ok(read),
        Err(GeoFault::Memory) => Err(AllocError),
        Err(_) => unreachable!(),
    }
}

// The features of groups, read from their own text.
fn read_map(alloc: Global, groups: &[Group]) -> Result<Seq<Feature>, AllocError>
    requires placed { All IsGroupPlace groups.now }
    requires own { HaveOwnNumbers groups.now }
    ensures read { IfOk result (AreRead (flat_map things_in groups.now)) }
    ensures differ { IfOk result HaveDifferentIds }
    ensures there { IfOk result
        (λ read. All (λ group. HasFeature read (id_of group (codes "a"))) groups.now) }
    ensures number { IfOk result (λ read. length read ≡ length groups.now * 5) }
{
    let made = things_of(alloc, groups)?;
    read_back(alloc, &made)
}

/// The map of groups under a style, read from its own text.
///
/// # Errors
/// Out of memory.
pub(crate) fn load_generated(
    alloc: Global,
    style: Style,
    groups: &[Group],
) -> Result<Editor, AllocError>
    requires placed { All IsGroupPlace groups.now }
    requires own { HaveOwnNumbers groups.now }
    requires few { length groups.now ≤ 6000 }
    ensures state { IfOk result (λ editor. (read : List FeatureOfMap)
        × AreRead (flat_map things_in groups.now) read × (editor.state ≡ first_state style read)) }
    ensures there { IfOk result (λ editor.
        All (λ group. HasFeature editor.state.features (id_of group (codes "a"))) groups.now) }
    ensures number { IfOk result (λ editor. length editor.state.features ≡ length groups.now * 5) }
{
    let read = read_map(alloc, groups)?;
    match Editor::load(alloc, style, read) {
        Ok(editor) => Ok(editor),
        Err(LoadRefused::Memory) => Err(AllocError),
        // there are at most 30,000 features
        Err(LoadRefused::Full) => unreachable!(),
    }
}
