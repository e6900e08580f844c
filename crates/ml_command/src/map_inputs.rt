//! Styles and maps as inputs of a command, loaded and read.
ghost use Rattle.std.specs.Prelude.{◌≡◌, ◌≤◌, IfOk, IfErr, MatchResult, string_bytes};
ghost use Rattle.ml_geojson.specs.Map.{HaveDifferentIds};
ghost use Rattle.ml_command.specs.declared.stop.Stop.TheVariants as stop;
ghost use Rattle.ml_io.specs.Files.{seen};
ghost use Rattle.ml_command.specs.Inputs.{IsInputRefusal, Keeps};
ghost use Rattle.ml_command.specs.MapInputs.{HasStyle, IsStyleStop, IsStyleRefusal, HasMap, IsMapStop, IsMapLine, IsFullLine};

use crate::inputs::{input_refusal, load};
use crate::stop::Stop;
use ml_geojson::{GeoFault, read_collection};
use ml_io::Files;
use ml_ratio::{Feature, MOST_LABELS, Seq};
use ml_style::{Style, StyleFault, read_style};
use std::alloc::{AllocError, Global};

/// The style of this name.
///
/// # Errors
/// `FileFault` and `TooLong` where its file is not loaded; `StyleRefused` where it is no style;
/// `Memory`.
pub fn load_style<F: Files>(alloc: Global, files: &mut F, name: &str) -> Result<Style, Stop>
    ensures ok { IfOk result (HasStyle (F.told files.old) name.now) }
    ensures stop { IfErr result
        (IsStyleStop (seen F.told F.faults F.failed_name files.old files.new) name.now) }
    ensures same { F.told files.new ≡ F.told files.old }
    ensures kept { Keeps (seen F.told F.faults F.failed_name files.old files.new) result }
    ensures later { F.faults files.old ≤ F.faults files.new }
{
    let bytes = load(alloc, files, name)?;
    match read_style(alloc, &bytes) {
        Ok(style) => Ok(style),
        Err(fault) => Err(style_refusal(alloc, &fault)),
    }
}

/// The features of the map of this name.
///
/// # Errors
/// `FileFault` and `TooLong` where its file is not loaded; `InputRefused` where it is no map, or one
/// of more than 32,768 features; `Memory`.
pub fn load_map<F: Files>(alloc: Global, files: &mut F, name: &str) -> Result<Seq<Feature>, Stop>
    ensures ok { IfOk result (HasMap (F.told files.old) name.now) }
    ensures different_ids { IfOk result HaveDifferentIds }
    ensures stop { IfErr result
        (IsMapStop (seen F.told F.faults F.failed_name files.old files.new) name.now) }
    ensures same { F.told files.new ≡ F.told files.old }
    ensures kept { Keeps (seen F.told F.faults F.failed_name files.old files.new) result }
    ensures later { F.faults files.old ≤ F.faults files.new }
{
    let bytes = load(alloc, files, name)?;
    match read_collection(alloc, &bytes) {
        Ok(features) => if features.len() > MOST_LABELS {
            Err(full_refusal(alloc))
        } else {
            Ok(features)
        },
        Err(fault) => Err(map_refusal(alloc, fault)),
    }
}

/// Why a style is refused, as a line.
pub fn style_refusal(alloc: Global, fault: &StyleFault) -> Stop
    ensures { IsStyleRefusal fault.now result }
{
    match fault {
        StyleFault::NotToml => refused_style(format!(in alloc; "style refused: 1 NotToml\n")),
        StyleFault::Version => refused_style(format!(in alloc; "style refused: 2 Version\n")),
        StyleFault::BadFont(name) => {
            let name = name.as_str();
            refused_style(format!(in alloc; "style refused: 3 BadFont {name}\n"))
        }
        StyleFault::BadClass(k, field) => {
            let field = field.as_str();
            refused_style(format!(in alloc; "style refused: 4 BadClass {k} {field}\n"))
        }
        StyleFault::UnknownFont(k) => {
            refused_style(format!(in alloc; "style refused: 5 UnknownFont {k}\n"))
        }
        StyleFault::EmptyRange(k) => {
            refused_style(format!(in alloc; "style refused: 6 EmptyRange {k}\n"))
        }
        StyleFault::Memory => Stop::Memory,
    }
}

// Why a map is refused, as a line.
fn map_refusal(alloc: Global, fault: GeoFault) -> Stop
    ensures { IsInputRefusal (IsMapLine fault) result }
{
    match fault {
        GeoFault::NotJson(at) => {
            input_refusal(format!(in alloc; "map refused: 1 NotJson {at}\n"))
        }
        GeoFault::Deep(at) => input_refusal(format!(in alloc; "map refused: 2 Deep {at}\n")),
        GeoFault::NotCollection => {
            input_refusal(format!(in alloc; "map refused: 3 NotCollection\n"))
        }
        GeoFault::NotFeature(k) => {
            input_refusal(format!(in alloc; "map refused: 4 NotFeature {k}\n"))
        }
        GeoFault::BadGeometry(k) => {
            input_refusal(format!(in alloc; "map refused: 5 BadGeometry {k}\n"))
        }
        GeoFault::OutOfRange(k) => {
            input_refusal(format!(in alloc; "map refused: 6 OutOfRange {k}\n"))
        }
        GeoFault::ShortRing(k) => {
            input_refusal(format!(in alloc; "map refused: 7 ShortRing {k}\n"))
        }
        GeoFault::NoId => input_refusal(format!(in alloc; "map refused: 8 NoId\n")),
        GeoFault::Memory => Stop::Memory,
    }
}

// That a map has too many features, as a line.
fn full_refusal(alloc: Global) -> Stop
    ensures { IsInputRefusal IsFullLine result }
{
    input_refusal(format!(in alloc; "map refused: 9 Full\n"))
}

// The line that refuses a style, if there was memory for it.
fn refused_style(line: Result<String, AllocError>) -> Stop
    ensures { MatchResult line (λ line. result ≡ stop.StyleRefused (string_bytes line))
        (λ _. result ≡ stop.Memory) }
{
    match line {
        Ok(line) => Stop::StyleRefused(Seq::of_vec(line.into_bytes())),
        Err(_error) => Stop::Memory,
    }
}
