//! The JSON of refused edits.
use crate::cases::{Table, hold, text_of};
use ml_answer::fault_json;
use ml_editor::EditFault;
use ml_geojson::read_feature;
use ml_ratio::Text;
use ml_style::StyleFault;
use std::alloc::Global;
use std::process::Abort;

/// `BODY => TEXT`, of bodies that are no features.
struct Bodies;

impl Table for Bodies {
    const LINES: &'static str = r#" => {"at":0,"error":"NotJson"}
x => {"at":0,"error":"NotJson"}
[[[[[[[[[[[[[[[[[[[[[[[[[[[[[[[[[[[[[[[[[[[[[[[[[[[[[[[[[[[[[[[[[ => {"at":64,"error":"Deep"}
[] => {"error":"NotFeature"}
{"type":"Feature"} => {"error":"NoId"}
{"type":"Feature","id":"A","geometry":{"type":"Point","coordinates":[1]}} => {"error":"BadGeometry"}
{"type":"Feature","id":"A","geometry":{"type":"Point","coordinates":[201,0]}} => {"error":"OutOfRange"}
{"type":"Feature","id":"A","geometry":{"type":"Polygon","coordinates":[[[0,0],[1,0]]]}} => {"error":"ShortRing"}"#;

    fn told(rt: &impl Abort, alloc: Global, input: &str) -> String {
        match read_feature(alloc, input.as_bytes()) {
            Ok(_feature) => panic!(rt; "a fault"),
            Err(fault) => text_of(
                rt,
                fault_json(alloc, &EditFault::Geo(fault)).expect(rt, "memory"),
            ),
        }
    }
}

#[test]
fn bodies_are_refused(rt: HostRuntime) {
    hold::<Bodies>(&rt, rt.alloc())
}

/// The fault of a style with this name.
fn style_fault(rt: &impl Abort, name: &str, about: Text) -> StyleFault {
    match name {
        "NotToml" => StyleFault::NotToml,
        "Version" => StyleFault::Version,
        "BadFont" => StyleFault::BadFont(about),
        "BadClass" => StyleFault::BadClass(2, about),
        "UnknownFont" => StyleFault::UnknownFont(2),
        "EmptyRange" => StyleFault::EmptyRange(2),
        _ => panic!(rt; "a fault"),
    }
}

/// The fault of an edit with this name.
fn fault_of(rt: &impl Abort, name: &str, about: Text) -> EditFault {
    match name {
        "RevMoved" => EditFault::RevMoved(2),
        "Duplicate" => EditFault::Duplicate(about),
        "Unknown" => EditFault::Unknown(about),
        "Full" => EditFault::Full,
        "RevEnd" => EditFault::RevEnd,
        _ => EditFault::Style(style_fault(rt, name, about)),
    }
}

/// `NAME => TEXT`, of other faults; ids, fonts and fields are `"q"`, and numbers 2.
struct Faults;

impl Table for Faults {
    const LINES: &'static str = r#"RevMoved => {"error":"RevMoved","rev":2}
Duplicate => {"error":"Duplicate","id":"\"q\""}
Unknown => {"error":"Unknown","id":"\"q\""}
Full => {"error":"Full"}
RevEnd => {"error":"RevEnd"}
NotToml => {"error":"NotToml"}
Version => {"error":"Version"}
BadFont => {"error":"BadFont","font":"\"q\""}
BadClass => {"class":2,"error":"BadClass","field":"\"q\""}
UnknownFont => {"class":2,"error":"UnknownFont"}
EmptyRange => {"class":2,"error":"EmptyRange"}"#;

    fn told(rt: &impl Abort, alloc: Global, input: &str) -> String {
        let fault = fault_of(rt, input, Text::of(alloc, "\"q\"").expect(rt, "memory"));
        text_of(rt, fault_json(alloc, &fault).expect(rt, "memory"))
    }
}

#[test]
fn faults_are_named(rt: HostRuntime) {
    hold::<Faults>(&rt, rt.alloc())
}
