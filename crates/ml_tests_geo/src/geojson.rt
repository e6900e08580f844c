//! Map files: worked files and odd ones, and that calls succeed where memory is ample.
//! A case is a line, what is given before the arrow and what is wanted behind it.
use crate::cases::{Subject, each_holds};
use ml_geojson::{GeoFault, read_collection, read_feature, write_collection, write_feature};
use ml_ratio::{Feature, Geometry, Prop, Scalar};
use std::alloc::Global;
use std::process::Abort;

/// A map file as a desktop program writes it: members that are passed over, a third coordinate, two
/// islands, a river, and a feature without geometry.
const SAMPLE: &str = r#"{
"type": "FeatureCollection",
"name": "sample",
"crs": { "type": "name", "properties": { "name": "urn:ogc:def:crs:OGC:1.3:CRS84" } },
"bbox": [ 0.0, 0.0, 8.5416942, 47.3768861 ],
"features": [
{ "type": "Feature", "properties": { "name": "Zürich", "pop": 402762, "place": "city" }, "geometry": { "type": "Point", "coordinates": [ 8.5416942, 47.3768861, 408.0 ] } },
{ "type": "Feature", "properties": { "name": "Inseln" }, "geometry": { "type": "MultiPolygon", "coordinates": [ [ [ [ 0.0, 0.0 ], [ 1.0, 0.0 ], [ 1.0, 1.0 ], [ 0.0, 1.0 ], [ 0.0, 0.0 ] ] ], [ [ [ 2.0, 0.0 ], [ 4.0, 0.0 ], [ 4.0, 2.0 ], [ 2.0, 2.0 ], [ 2.0, 0.0 ] ] ] ] } },
{ "type": "Feature", "properties": { "name": "Sihl" }, "geometry": { "type": "LineString", "coordinates": [ [ 0.0, 0.0 ], [ 0.02, 0.01 ], [ 0.04, 0.0 ] ] } },
{ "type": "Feature", "properties": { "name": "leer", "pop": null }, "geometry": null }
]
}"#;

/// The same map file in canonical text.
const CANONICAL: &str =
    r##"{"type":"FeatureCollection","features":[{"type":"Feature","id":"#0","geometry":{"type":"Point","coordinates":[8.5416942,47.3768861]},"properties":{"name":"Zürich","place":"city","pop":402762}},{"type":"Feature","id":"#1","geometry":{"type":"MultiPolygon","coordinates":[[[[0.0000000,0.0000000],[1.0000000,0.0000000],[1.0000000,1.0000000],[0.0000000,1.0000000],[0.0000000,0.0000000]]],[[[2.0000000,0.0000000],[4.0000000,0.0000000],[4.0000000,2.0000000],[2.0000000,2.0000000],[2.0000000,0.0000000]]]]},"properties":{"name":"Inseln"}},{"type":"Feature","id":"#2","geometry":{"type":"LineString","coordinates":[[0.0000000,0.0000000],[0.0200000,0.0100000],[0.0400000,0.0000000]]},"properties":{"name":"Sihl"}},{"type":"Feature","id":"#3","geometry":null,"properties":{"name":"leer","pop":null}}]}"##;

/// Members of three features, apart by `|`, and the ids that these get.
const IDS: &str = r###""id":7,|"id":"7",| => 7;#1;#2;
"id":"#2",|"id":"##2",| => #2;##2;###2;
"id":"a",|"id":"a",|"id":"a", => a;#1;#2;
"id":1.50,|"id":"",|"id":"", => 1.50;;#2;
"id":null,|"id":[1],|"id":true, => #0;#1;#2;
"id":"#1",||"id":"##1", => #1;##1;#2;
"id":1,"id":2,|"id":1,|"id":2, => 2;1;#2;"###;

/// Geometries, and how they are written again.
const GEOMETRIES: &str = r#"null => null
{"type":"GeometryCollection","geometries":5} => null
{"type":"Point","coordinates":[]} => null
{"type":"Point","coordinates":[1,-2,3,"x"]} => {"type":"Point","coordinates":[1.0000000,-2.0000000]}
{"type":"Point","coordinates":[200.00000004,-2e2]} => {"type":"Point","coordinates":[200.0000000,-200.0000000]}
{"type":"MultiPoint","coordinates":[]} => null
{"type":"MultiPoint","coordinates":[[1,2],[1,2]]} => {"type":"MultiPoint","coordinates":[[1.0000000,2.0000000],[1.0000000,2.0000000]]}
{"type":"LineString","coordinates":[[1,2]]} => {"type":"LineString","coordinates":[[1.0000000,2.0000000]]}
{"type":"MultiLineString","coordinates":[[],[[1,2]],[]]} => {"type":"MultiLineString","coordinates":[[[1.0000000,2.0000000]]]}
{"type":"MultiLineString","coordinates":[[]]} => null
{"type":"Polygon","coordinates":[[[0,0],[1,0],[1,1]],[]]} => {"type":"Polygon","coordinates":[[[0.0000000,0.0000000],[1.0000000,0.0000000],[1.0000000,1.0000000],[0.0000000,0.0000000]]]}
{"type":"Polygon","coordinates":[[[0,0],[1,0],[1,1],[0.00000001,0]]]} => {"type":"Polygon","coordinates":[[[0.0000000,0.0000000],[1.0000000,0.0000000],[1.0000000,1.0000000],[0.0000000,0.0000000]]]}
{"type":"Polygon","coordinates":[[]]} => null
{"type":"MultiPolygon","coordinates":[[[]],[]]} => null
{"type":"MultiPolygon","coordinates":[[],[[],[[0,0],[1,0],[1,1],[0,0]]]]} => {"type":"MultiPolygon","coordinates":[[[[0.0000000,0.0000000],[1.0000000,0.0000000],[1.0000000,1.0000000],[0.0000000,0.0000000]]]]}"#;

/// Geometries, and the fault that refuses them.
const BAD_GEOMETRIES: &str = r#"5 => BadGeometry 0
[] => BadGeometry 0
{} => BadGeometry 0
{"type":"Circle","coordinates":[0,0]} => BadGeometry 0
{"type":5} => BadGeometry 0
{"type":"Point"} => BadGeometry 0
{"type":"Point","coordinates":{}} => BadGeometry 0
{"type":"Point","coordinates":[1]} => BadGeometry 0
{"type":"Point","coordinates":["1",2]} => BadGeometry 0
{"type":"Point","coordinates":[[1,2]]} => BadGeometry 0
{"type":"MultiPoint","coordinates":[[]]} => BadGeometry 0
{"type":"MultiLineString","coordinates":[5]} => BadGeometry 0
{"type":"MultiPolygon","coordinates":[5]} => BadGeometry 0
{"type":"MultiPolygon","coordinates":[[[0,0]]]} => BadGeometry 0
{"type":"Point","coordinates":[201,0]} => OutOfRange 0
{"type":"Point","coordinates":[0,-200.0000001]} => OutOfRange 0
{"type":"Point","coordinates":[201,"x"]} => BadGeometry 0
{"type":"LineString","coordinates":[[201,0],[1]]} => OutOfRange 0
{"type":"LineString","coordinates":[[1],[201,0]]} => BadGeometry 0
{"type":"Polygon","coordinates":[[[0,0],[1,0]],5]} => ShortRing 0
{"type":"Polygon","coordinates":[5,[[0,0],[1,0]]]} => BadGeometry 0
{"type":"Polygon","coordinates":[[[0,0],[1,0],[0,0]]]} => ShortRing 0
{"type":"Polygon","coordinates":[[[0,0],[201,0]]]} => OutOfRange 0
{"type":"MultiPolygon","coordinates":[[[[0,0]]]]} => ShortRing 0"#;

/// Map files, and the fault that refuses them.
const BAD_MAPS: &str = r#" => NotJson 0
{"type":"Feature => NotJson 16
[] => NotCollection
5 => NotCollection
{} => NotCollection
{"type":"FeatureCollection"} => NotCollection
{"type":"FeatureCollection","features":{}} => NotCollection
{"type":"featurecollection","features":[]} => NotCollection
{"type":"FeatureCollection","features":[5]} => NotFeature 0
{"type":"FeatureCollection","features":[{"type":"Feature"},{}]} => NotFeature 1
{"type":"FeatureCollection","features":[{"type":"Feature","geometry":1},{}]} => BadGeometry 0
{"type":"FeatureCollection","features":[{"type":"Feature"},{"type":"Feature","geometry":{"type":"Point","coordinates":[201,0]}}]} => OutOfRange 1"#;

/// Map files, and how they are written again.
const MAPS: &str =
    r##"{"type":"FeatureCollection","features":[]} => {"type":"FeatureCollection","features":[]}
{"type":"Feature","geometry":null,"properties":null} => {"type":"FeatureCollection","features":[{"type":"Feature","id":"#0","geometry":null,"properties":{}}]}
{"type":"Feature","properties":[1]} => {"type":"FeatureCollection","features":[{"type":"Feature","id":"#0","geometry":null,"properties":{}}]}
{"type":"Feature","properties":{"b":[1],"c":true,"a":{},"B":-1E+5,"a\u0000":null}} => {"type":"FeatureCollection","features":[{"type":"Feature","id":"#0","geometry":null,"properties":{"B":-1E+5,"a\u0000":null,"c":true}}]}
{"type":"Feature","features":5,"bbox":{},"id":"\""} => {"type":"FeatureCollection","features":[{"type":"Feature","id":"\"","geometry":null,"properties":{}}]}"##;

/// Single features, and the fault that refuses them.
const BAD_FEATURES: &str = r#" => NotJson 0
[] => NotFeature 0
{"type":"FeatureCollection","features":[]} => NotFeature 0
{"type":"Feature"} => NoId
{"type":"Feature","id":"A","geometry":{"type":"Point","coordinates":[1]}} => BadGeometry 0
{"type":"Feature","geometry":{"type":"Point","coordinates":[201,0]}} => OutOfRange 0
{"type":"Feature","id":"A","geometry":{"type":"Polygon","coordinates":[[[0,0],[1,0]]]}} => ShortRing 0"#;

/// Features in canonical text: each kind of shape, and each kind of property value.
const FEATURES: &str =
    r##"{"type":"Feature","id":"#0","geometry":{"type":"Point","coordinates":[8.5416942,47.3768861]},"properties":{"name":"Zürich","place":"city","pop":402762}}
{"type":"Feature","id":"a","geometry":{"type":"MultiPoint","coordinates":[[1.0000000,2.0000000],[-3.0000000,-4.0000000]]},"properties":{"flag":true,"none":null}}
{"type":"Feature","id":"b","geometry":{"type":"LineString","coordinates":[[1.0000000,2.0000000],[3.0000000,4.0000000]]},"properties":{"flag":false}}
{"type":"Feature","id":"c","geometry":{"type":"MultiLineString","coordinates":[[[1.0000000,2.0000000]],[[3.0000000,4.0000000],[5.0000000,6.0000000]]]},"properties":{"number":-1E+5}}
{"type":"Feature","id":"d","geometry":{"type":"Polygon","coordinates":[[[0.0000000,0.0000000],[1.0000000,0.0000000],[1.0000000,1.0000000],[0.0000000,0.0000000]]]},"properties":{"text":"\"\n"}}
{"type":"Feature","id":"e","geometry":{"type":"MultiPolygon","coordinates":[[[[0.0000000,0.0000000],[1.0000000,0.0000000],[1.0000000,1.0000000],[0.0000000,0.0000000]]]]},"properties":{}}
{"type":"Feature","id":"","geometry":null,"properties":{"":""}}"##;

/// The fault of this name at this place.
fn fault_at(name: &str, place: usize) -> GeoFault {
    match name {
        "NotJson" => GeoFault::NotJson(place),
        "NotFeature" => GeoFault::NotFeature(place),
        "BadGeometry" => GeoFault::BadGeometry(place),
        "OutOfRange" => GeoFault::OutOfRange(place),
        "ShortRing" => GeoFault::ShortRing(place),
        _ => GeoFault::Memory,
    }
}

/// The fault that is written, with its place if it has one.
fn fault(rt: &impl Abort, text: &str) -> GeoFault {
    match text.split_once(' ') {
        Some((name, place)) => fault_at(name, place.parse::<usize>().expect(rt, "a number")),
        None => if text == "NoId" {
            GeoFault::NoId
        } else {
            GeoFault::NotCollection
        },
    }
}

/// The map file, read and written again.
fn rewritten(rt: &impl Abort, alloc: Global, text: &str) -> Vec<u8> {
    let features = read_collection(alloc, text.as_bytes()).expect(rt, "a map");
    write_collection(alloc, &features)
        .expect(rt, "memory")
        .into_vec()
}

/// Whether the map file, read and written again, is the other text.
fn is_rewritten(rt: &impl Abort, alloc: Global, text: &str, want: &str) -> bool {
    rewritten(rt, alloc, text).as_slice() == want.as_bytes()
}

/// Why the map file is refused.
fn refusal(alloc: Global, text: &str) -> Option<GeoFault> {
    read_collection(alloc, text.as_bytes()).err()
}

/// A map file of one feature with this geometry.
fn with_geometry(rt: &impl Abort, alloc: Global, geometry: &str) -> String {
    format!(in alloc; "{{\"type\":\"Feature\",\"geometry\":{geometry}}}").expect(rt, "memory")
}

#[test]
fn a_map_file_is_rewritten_as_canonical_text(rt: HostRuntime) {
    for text in [SAMPLE, CANONICAL] {
        assert!(rt; is_rewritten(&rt, rt.alloc(), text, CANONICAL));
    }
}

/// Whether the feature lies at this point.
fn lies_at(feature: &Feature, x: i64, y: i64) -> bool {
    match &feature.geometry {
        Some(Geometry::Point(place)) => place.x == x && place.y == y,
        _ => false,
    }
}

/// Whether the property is this number.
fn is_number(prop: &Prop, number: &str) -> bool {
    match &prop.value {
        Scalar::Num(text) => text.as_str() == number,
        _ => false,
    }
}

#[test]
fn a_point_has_its_place_and_its_properties(rt: HostRuntime) {
    let features = read_collection(rt.alloc(), SAMPLE.as_bytes()).expect(&rt, "a map");
    let zurich = features.get(0).expect(&rt, "a feature");
    assert!(rt; lies_at(zurich, 85416942, 473768861));
    let population = zurich.props.get(2).expect(&rt, "a property");
    assert!(rt; is_number(population, "402762"));
}

/// A map file of three features with these members.
fn of_three(rt: &impl Abort, alloc: Global, members: &str) -> String {
    let (a, others) = members.split_once('|').expect(rt, "a bar");
    let (b, c) = others.split_once('|').expect(rt, "a bar");
    format!(in alloc;
        "{{\"features\":[{{{a}\"type\":\"Feature\"}},{{{b}\"type\":\"Feature\"}},{{{c}\"type\":\"Feature\"}}],\"type\":\"FeatureCollection\"}}"
    ).expect(rt, "memory")
}

/// The ids of a map file's features, each with a semicolon behind it.
fn ids_of(rt: &impl Abort, alloc: Global, text: &str) -> String {
    let features = read_collection(alloc, text.as_bytes()).expect(rt, "a map");
    let mut ids = String::new(alloc);
    for feature in features.as_slice() {
        ids.push_str(feature.id.as_str()).expect(rt, "memory");
        ids.push(';').expect(rt, "memory");
    }
    ids
}

/// The ids of three features.
struct OfIds;

impl Subject for OfIds {
    fn holds(rt: &impl Abort, alloc: Global, input: &str, want: &str) -> bool {
        let text = of_three(rt, alloc, input);
        ids_of(rt, alloc, text.as_str()).as_str() == want
    }
}

/// The text of a map file of one feature with this geometry and the id that it gets.
fn written(rt: &impl Abort, alloc: Global, geometry: &str) -> String {
    format!(in alloc;
        "{{\"type\":\"FeatureCollection\",\"features\":[{{\"type\":\"Feature\",\"id\":\"#0\",\"geometry\":{geometry},\"properties\":{{}}}}]}}"
    ).expect(rt, "memory")
}

/// How geometries are written again.
struct OfGeometry;

impl Subject for OfGeometry {
    fn holds(rt: &impl Abort, alloc: Global, input: &str, want: &str) -> bool {
        let text = with_geometry(rt, alloc, input);
        let want = written(rt, alloc, want);
        is_rewritten(rt, alloc, text.as_str(), want.as_str())
    }
}

/// The faults of geometries.
struct OfBadGeometry;

impl Subject for OfBadGeometry {
    fn holds(rt: &impl Abort, alloc: Global, input: &str, want: &str) -> bool {
        let text = with_geometry(rt, alloc, input);
        refusal(alloc, text.as_str()) == Some(fault(rt, want))
    }
}

/// The faults of map files.
struct OfBadMap;

impl Subject for OfBadMap {
    fn holds(rt: &impl Abort, alloc: Global, input: &str, want: &str) -> bool {
        refusal(alloc, input) == Some(fault(rt, want))
    }
}

/// How map files are written again.
struct OfMap;

impl Subject for OfMap {
    fn holds(rt: &impl Abort, alloc: Global, input: &str, want: &str) -> bool {
        is_rewritten(rt, alloc, input, want)
    }
}

/// Why the bytes are refused as a feature.
fn feature_refusal(alloc: Global, bytes: &[u8]) -> Option<GeoFault> {
    read_feature(alloc, bytes).err()
}

/// The faults of single features.
struct OfBadFeature;

impl Subject for OfBadFeature {
    fn holds(rt: &impl Abort, alloc: Global, input: &str, want: &str) -> bool {
        feature_refusal(alloc, input.as_bytes()) == Some(fault(rt, want))
    }
}

#[test]
fn files_are_read_by_the_rules(rt: HostRuntime) {
    let alloc = rt.alloc();
    each_holds::<OfIds>(&rt, alloc, IDS);
    each_holds::<OfGeometry>(&rt, alloc, GEOMETRIES);
    each_holds::<OfMap>(&rt, alloc, MAPS)
}

#[test]
fn the_first_fault_decides(rt: HostRuntime) {
    let alloc = rt.alloc();
    each_holds::<OfBadGeometry>(&rt, alloc, BAD_GEOMETRIES);
    each_holds::<OfBadMap>(&rt, alloc, BAD_MAPS);
    each_holds::<OfBadFeature>(&rt, alloc, BAD_FEATURES)
}

#[test]
fn bytes_that_are_no_text_are_no_feature(rt: HostRuntime) {
    assert!(rt; feature_refusal(rt.alloc(), b"\xff") == Some(GeoFault::NotJson(0)));
    assert!(rt; feature_refusal(rt.alloc(), &[b'['; 65]) == Some(GeoFault::Deep(64)));
}

/// Whether this is how the feature is written.
fn is_written(rt: &impl Abort, alloc: Global, feature: &Feature, want: &str) -> bool {
    write_feature(alloc, feature)
        .expect(rt, "memory")
        .as_slice()
        == want.as_bytes()
}

/// Whether the feature of this text is written as it was read.
fn is_same(rt: &impl Abort, alloc: Global, text: &str) -> bool {
    let feature = read_feature(alloc, text.as_bytes()).expect(rt, "a feature");
    is_written(rt, alloc, &feature, text)
}

/// Whether this is how a copy of the feature is written.
fn is_copied(rt: &impl Abort, alloc: Global, feature: &Feature, want: &str) -> bool {
    let copy = feature.copy().expect(rt, "memory");
    is_written(rt, alloc, &copy, want)
}

/// Whether a copy of the feature of this text is written as it was read.
fn is_same_copied(rt: &impl Abort, alloc: Global, text: &str) -> bool {
    let feature = read_feature(alloc, text.as_bytes()).expect(rt, "a feature");
    is_copied(rt, alloc, &feature, text)
}

#[test]
fn features_are_copied_and_written_as_they_were_read(rt: HostRuntime) {
    for line in FEATURES.lines() {
        assert!(rt; is_same(&rt, rt.alloc(), line), "{line}");
        assert!(rt; is_same_copied(&rt, rt.alloc(), line), "{line}");
    }
}
