//! The JSON text of a refused edit.
ghost use Rattle.std.specs.Prelude.{◌≡◌, IfOk};
ghost use Rattle.serde_json.specs.View.{view};
ghost use Rattle.ml_style.specs.declared.fault.StyleFault.TheVariants.{BadFont, BadClass};
ghost use Rattle.ml_answer.specs.Fault.{error_data, place_data, class_data, named_data, geo_data, style_data, fault_data, fault_text};

use crate::compact::compact;
use ml_editor::EditFault;
use ml_geojson::GeoFault;
use ml_ratio::{Seq, Text};
use ml_style::StyleFault;
use serde_json::{Value, json};
use std::alloc::{AllocError, Global};

/// The text of why an edit is refused, as `{"error":"Duplicate","id":"A"}`, with no end of line. A
/// fault of a feature is told without the number of the feature, since a body holds one alone.
///
/// # Errors
/// Out of memory.
pub fn fault_json(alloc: Global, fault: &EditFault) -> Result<Seq<u8>, AllocError>
    ensures { IfOk result (λ text. text ≡ fault_text fault.now) }
{
    let value = fault_value(alloc, fault)?;
    compact(alloc, &value)
}

// The value of a refused edit.
fn fault_value(alloc: Global, fault: &EditFault) -> Result<Value, AllocError>
    ensures { IfOk result (λ value. view value ≡ fault_data fault.now) }
{
    match fault {
        EditFault::RevMoved(now) => json!(in alloc; {"error": "RevMoved", "rev": *now}),
        EditFault::Geo(fault) => geo_value(alloc, *fault),
        EditFault::Style(fault) => style_value(alloc, fault),
        EditFault::Duplicate(id) => named_value(alloc, "Duplicate", id),
        EditFault::Unknown(id) => named_value(alloc, "Unknown", id),
        EditFault::Full => error_value(alloc, "Full"),
        EditFault::RevEnd => error_value(alloc, "RevEnd"),
        EditFault::Memory => error_value(alloc, "Memory"),
    }
}

// The value of what is wrong with a feature.
fn geo_value(alloc: Global, fault: GeoFault) -> Result<Value, AllocError>
    ensures { IfOk result (λ value. view value ≡ geo_data fault) }
{
    match fault {
        GeoFault::NotJson(at) => place_value(alloc, at, "NotJson"),
        GeoFault::Deep(at) => place_value(alloc, at, "Deep"),
        GeoFault::NotCollection => error_value(alloc, "NotCollection"),
        GeoFault::NotFeature(_) => error_value(alloc, "NotFeature"),
        GeoFault::BadGeometry(_) => error_value(alloc, "BadGeometry"),
        GeoFault::OutOfRange(_) => error_value(alloc, "OutOfRange"),
        GeoFault::ShortRing(_) => error_value(alloc, "ShortRing"),
        GeoFault::NoId => error_value(alloc, "NoId"),
        GeoFault::Memory => error_value(alloc, "Memory"),
    }
}

// The value of what is wrong with a style.
fn style_value(alloc: Global, fault: &StyleFault) -> Result<Value, AllocError>
    ensures { IfOk result (λ value. view value ≡ style_data fault.now) }
{
    match fault {
        StyleFault::NotToml => error_value(alloc, "NotToml"),
        StyleFault::Version => error_value(alloc, "Version"),
        StyleFault::BadFont(name) => font_value(alloc, name),
        StyleFault::BadClass(k, field) => field_value(alloc, *k, field),
        StyleFault::UnknownFont(k) => class_value(alloc, *k, "UnknownFont"),
        StyleFault::EmptyRange(k) => class_value(alloc, *k, "EmptyRange"),
        StyleFault::Memory => error_value(alloc, "Memory"),
    }
}

// The value of a fault by its name alone.
fn error_value(alloc: Global, name: &str) -> Result<Value, AllocError>
    ensures { IfOk result (λ value. view value ≡ error_data name.now) }
{
    json!(in alloc; {"error": name})
}

// The value of a fault at a byte of the body.
fn place_value(alloc: Global, at: usize, name: &str) -> Result<Value, AllocError>
    ensures { IfOk result (λ value. view value ≡ place_data at name.now) }
{
    json!(in alloc; {"at": at, "error": name})
}

// The value of a fault of a class.
fn class_value(alloc: Global, k: usize, name: &str) -> Result<Value, AllocError>
    ensures { IfOk result (λ value. view value ≡ class_data k name.now) }
{
    json!(in alloc; {"class": k, "error": name})
}

// The value of a wrong field of a class.
fn field_value(alloc: Global, k: usize, field: &Text) -> Result<Value, AllocError>
    ensures { IfOk result (λ value. view value ≡ style_data (BadClass k field.now)) }
{
    json!(in alloc; {"class": k, "error": "BadClass", "field": field.as_str()})
}

// The value of a font that is not valid.
fn font_value(alloc: Global, name: &Text) -> Result<Value, AllocError>
    ensures { IfOk result (λ value. view value ≡ style_data (BadFont name.now)) }
{
    json!(in alloc; {"error": "BadFont", "font": name.as_str()})
}

// The value of a fault that tells an id.
fn named_value(alloc: Global, name: &str, id: &Text) -> Result<Value, AllocError>
    ensures { IfOk result (λ value. view value ≡ named_data name.now id.now) }
{
    json!(in alloc; {"error": name, "id": id.as_str()})
}
