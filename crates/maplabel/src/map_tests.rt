//! Views of maps over files in memory, worked out by hand.
use crate::tests::{Subject, each_holds, run_told};
use ml_style::SAMPLE;
use std::alloc::Global;
use std::process::Abort;

/// A city, two islands, a river, and a feature without geometry, as a desktop program writes them.
const MAP: &str = r#"{
"type": "FeatureCollection",
"name": "sample",
"crs": { "type": "name", "properties": { "name": "urn:ogc:def:crs:OGC:1.3:CRS84" } },
"bbox": [ 0.0, 0.0, 8.5416942, 47.3768861 ],
"features": [
{ "type": "Feature", "properties": { "name": "Zürich", "pop": 402762, "place": "city" }, "geometry": { "type": "Point", "coordinates": [ 8.5416942, 47.3768861, 408.0 ] } },
{ "type": "Feature", "properties": { "name": "Inseln" }, "geometry": { "type": "MultiPolygon", "coordinates": [ [ [ [ 0.0, 0.0 ], [ 1.0, 0.0 ], [ 1.0, 1.0 ], [ 0.0, 1.0 ], [ 0.0, 0.0 ] ] ], [ [ [ 2.0, 0.0 ], [ 4.0, 0.0 ], [ 4.0, 2.0 ], [ 2.0, 2.0 ], [ 2.0, 0.0 ] ] ] ] } },
{ "type": "Feature", "properties": { "name": "Sihl" }, "geometry": { "type": "LineString", "coordinates": [ [ 0.0, 0.0 ], [ 0.02, 0.01 ], [ 0.04, 0.0 ] ] } },
{ "type": "Feature", "properties": { "name": "leer", "pop": null }, "geometry": null }
]
}
"#;

/// Four points whose names stand in priority order by class, then rank, then id, and one without name.
const RANKED: &str =
    r#"{"type":"FeatureCollection","features":[{"type":"Feature","geometry":{"type":"Point","coordinates":[0,0]},"properties":{"name":"a","pop":9}},{"type":"Feature","geometry":{"type":"Point","coordinates":[0.001,0]},"properties":{"name":"b","place":"city","pop":1}},{"type":"Feature","geometry":{"type":"Point","coordinates":[0,0]}},{"type":"Feature","geometry":{"type":"Point","coordinates":[0.003,0]},"properties":{"name":"d","place":"city","pop":3}},{"type":"Feature","geometry":{"type":"Point","coordinates":[0.002,0]},"properties":{"name":"c","place":"city","pop":3}}]}"#;

/// Three points of one class, 400 units from one another.
const THREE: &str =
    r#"{"type":"FeatureCollection","features":[{"type":"Feature","geometry":{"type":"Point","coordinates":[0.0000800,0]},"properties":{"name":"ab","place":"city","pop":1}},{"type":"Feature","geometry":{"type":"Point","coordinates":[0.0000400,0]},"properties":{"name":"ab","place":"city","pop":2}},{"type":"Feature","geometry":{"type":"Point","coordinates":[0,0]},"properties":{"name":"ab","place":"city","pop":3}}]}"#;

/// Cities that keep five pixels free around their names.
const ROOMY: &str = r#"version = 2
rank = "pop"

[fonts.sans]
units = 1000
default = 500

[[class]]
geometry = "point"
font = "sans"
size = 20
priority = 1
min = "0"
max = "1000"
margin = 5
"#;

/// Styles and maps by name. Those from `cut` on are no maps.
const FILES: [(&str, &str); 13] = [
    ("sample", SAMPLE),
    ("roomy", ROOMY),
    ("newer", "version = 3"),
    ("map", MAP),
    ("ranked", RANKED),
    ("three", THREE),
    ("cut", r#"{"type":"Feature"#),
    (
        "deep",
        "[[[[[[[[[[[[[[[[[[[[[[[[[[[[[[[[[[[[[[[[[[[[[[[[[[[[[[[[[[[[[[[[[",
    ),
    ("list", "[]"),
    (
        "mixed",
        r#"{"type":"FeatureCollection","features":[{"type":"Feature"},1]}"#,
    ),
    (
        "circle",
        r#"{"type":"Feature","geometry":{"type":"Circle"}}"#,
    ),
    (
        "far",
        r#"{"type":"Feature","geometry":{"type":"LineString","coordinates":[[201,0],[1]]}}"#,
    ),
    (
        "short",
        r#"{"type":"Feature","geometry":{"type":"Polygon","coordinates":[[[0,0],[1,0]],5]}}"#,
    ),
];

/// Words, the exit code and what is printed, with `¶` for each line feed.
const VIEWS: &str =
    r##"view sample map 85416942 473768861 1024 768 100 => 0 {"labels":[{"at":[85416942,473768861],"boxes":[[-27,-10,28,10]],"id":"#0","text":"Zürich","until":"1000/1"}],"scale":"100/1"}¶
view sample map 200000 100000 1024 768 1 => 0 {"labels":[{"at":[200000,100000],"boxes":[[-17,-16,-7,4],[-7,-13,-2,7],[-2,-12,8,8],[8,-17,18,3]],"id":"#2","text":"Sihl","until":"2000/1"}],"scale":"1/1"}¶
view sample map 30000000 10000000 1024 768 99999 => 0 {"labels":[{"at":[30000000,10000000],"boxes":[[-30,-10,30,10]],"id":"#1","text":"Inseln","until":"100000/1"}],"scale":"99999/1"}¶
view sample map 30000000 10000000 1024 768 100000 => 0 {"labels":[],"scale":"100000/1"}¶
view sample map 85416942 473768861 1024 768 1000 => 0 {"labels":[],"scale":"1000/1"}¶
view sample map 0 0 2 2 1 => 0 {"labels":[],"scale":"1/1"}¶
view sample ranked 15000 0 4096 4096 20 => 0 {"labels":[{"at":[30000,0],"boxes":[[-5,-10,5,10]],"id":"#3","text":"d","until":"1000/1"},{"at":[20000,0],"boxes":[[-5,-10,5,10]],"id":"#4","text":"c","until":"1000/1"},{"at":[10000,0],"boxes":[[-5,-10,5,10]],"id":"#1","text":"b","until":"1000/1"},{"at":[0,0],"boxes":[[-5,-10,5,10]],"id":"#0","text":"a","until":"1000/1"}],"scale":"20/1"}¶
view sample three 0 0 1024 768 19/1 => 0 {"labels":[{"at":[0,0],"boxes":[[-10,-10,10,10]],"id":"#2","text":"ab","until":"1000/1"},{"at":[400,0],"boxes":[[-10,-10,10,10]],"id":"#1","text":"ab","until":"20/1"},{"at":[800,0],"boxes":[[-10,-10,10,10]],"id":"#0","text":"ab","until":"40/1"}],"scale":"19/1"}¶
view sample three 0 0 1024 768 20/1 => 0 {"labels":[{"at":[0,0],"boxes":[[-10,-10,10,10]],"id":"#2","text":"ab","until":"1000/1"},{"at":[800,0],"boxes":[[-10,-10,10,10]],"id":"#0","text":"ab","until":"40/1"}],"scale":"20/1"}¶
view sample three 0 0 1024 768 40/1 => 0 {"labels":[{"at":[0,0],"boxes":[[-10,-10,10,10]],"id":"#2","text":"ab","until":"1000/1"}],"scale":"40/1"}¶
view roomy three 10 0 2 2 1 => 0 {"labels":[{"at":[0,0],"boxes":[[-10,-10,10,10]],"id":"#2","text":"ab","until":"1000/1"}],"scale":"1/1"}¶
view roomy three 11 0 2 2 1 => 0 {"labels":[],"scale":"1/1"}¶
view roomy three 0 0 1024 768 13/1 => 0 {"labels":[{"at":[0,0],"boxes":[[-10,-10,10,10]],"id":"#2","text":"ab","until":"1000/1"},{"at":[400,0],"boxes":[[-10,-10,10,10]],"id":"#1","text":"ab","until":"40/3"},{"at":[800,0],"boxes":[[-10,-10,10,10]],"id":"#0","text":"ab","until":"80/3"}],"scale":"13/1"}¶
view roomy three 0 0 1024 768 40/3 => 0 {"labels":[{"at":[0,0],"boxes":[[-10,-10,10,10]],"id":"#2","text":"ab","until":"1000/1"},{"at":[800,0],"boxes":[[-10,-10,10,10]],"id":"#0","text":"ab","until":"80/3"}],"scale":"40/3"}¶
view roomy three 0 0 1024 768 80/3 => 0 {"labels":[{"at":[0,0],"boxes":[[-10,-10,10,10]],"id":"#2","text":"ab","until":"1000/1"}],"scale":"80/3"}¶
view none map 0 0 1024 768 1 => 5 file fault¶
view sample none 0 0 1024 768 1 => 5 file fault¶
view newer map 0 0 1024 768 1 => 3 style refused: 2 Version¶
view sample cut 0 0 1024 768 1 => 4 map refused: 1 NotJson 16¶
view sample deep 0 0 1024 768 1 => 4 map refused: 2 Deep 64¶
view sample list 0 0 1024 768 1 => 4 map refused: 3 NotCollection¶
view sample mixed 0 0 1024 768 1 => 4 map refused: 4 NotFeature 1¶
view sample circle 0 0 1024 768 1 => 4 map refused: 5 BadGeometry 0¶
view sample far 0 0 1024 768 1 => 4 map refused: 6 OutOfRange 0¶
view sample short 0 0 1024 768 1 => 4 map refused: 7 ShortRing 0¶"##;

/// Views of the maps of these names.
struct OfMap;

impl Subject for OfMap {
    fn holds(rt: &impl Abort, alloc: Global, input: &str, want: &str) -> bool {
        run_told(rt, alloc, &FILES, input).as_str() == want
    }
}

#[test]
fn maps_are_viewed_or_refused(rt: HostRuntime) {
    each_holds::<OfMap>(&rt, rt.alloc(), VIEWS)
}

/// A style of one class.
const STYLE: &str = r#"version = 2
[fonts.sans]
units = 1000
default = 500
[[class]]
geometry = "point"
font = "sans"
size = 20
priority = 1
min = "0"
max = "1000"
margin = 64
"#;

/// A line of that style, another in its place, and the exit code with what is printed.
const WRONG_LINES: &str = r#"units = 1000 | units =  => 3 style refused: 1 NotToml¶
units = 1000 | units = 0 => 3 style refused: 3 BadFont sans¶
size = 20 | size = 20.0 => 3 style refused: 4 BadClass 0 size¶
font = "sans" | font = "serif" => 3 style refused: 5 UnknownFont 0¶
max = "1000" | max = "0/5" => 3 style refused: 4 BadClass 0 max¶
margin = 64 | margin = 65 => 3 style refused: 4 BadClass 0 margin¶
margin = 64 | margin = "5" => 3 style refused: 4 BadClass 0 margin¶
min = "0" | min = "1000" => 3 style refused: 6 EmptyRange 0¶"#;

/// Styles with a wrong line, before a map that is none.
struct OfStyle;

impl Subject for OfStyle {
    fn holds(rt: &impl Abort, alloc: Global, input: &str, want: &str) -> bool {
        let (usual, wrong) = input.split_once(" | ").expect(rt, "a line");
        let style = STYLE.replace(alloc, usual, wrong).expect(rt, "memory");
        let files = [("s", style.as_str()), ("m", "[")];
        run_told(rt, alloc, &files, "view s m 0 0 1024 768 1").as_str() == want
    }
}

#[test]
fn a_style_is_refused_before_its_map(rt: HostRuntime) {
    each_holds::<OfStyle>(&rt, rt.alloc(), WRONG_LINES)
}

/// How many features without geometry a map has, and the exit code with what is printed.
const COUNTS: &str = r#"0 => 0 {"labels":[],"scale":"1/1"}¶
32768 => 0 {"labels":[],"scale":"1/1"}¶
32769 => 4 map refused: 9 Full¶"#;

/// A map of so many features without geometry.
fn many(rt: &impl Abort, alloc: Global, count: usize) -> String {
    let features = r#"{"type":"Feature"},"#
        .repeat(alloc, count)
        .expect(rt, "memory");
    let features = features.as_str().strip_suffix(',').unwrap_or("");
    format!(in alloc; r#"{{"type":"FeatureCollection","features":[{features}]}}"#).expect(
        rt, "memory",
    )
}

/// Views of maps of many features.
struct OfMany;

impl Subject for OfMany {
    fn holds(rt: &impl Abort, alloc: Global, input: &str, want: &str) -> bool {
        let map = many(rt, alloc, input.parse::<usize>().expect(rt, "a number"));
        let files = [("s", SAMPLE), ("m", map.as_str())];
        run_told(rt, alloc, &files, "view s m 0 0 1024 768 1").as_str() == want
    }
}

#[test]
fn a_map_has_at_most_32768_features(rt: HostRuntime) {
    each_holds::<OfMany>(&rt, rt.alloc(), COUNTS)
}
