//! Zoom timelines of maps over files in memory, worked out by hand.
use crate::tests::{Subject, each_holds, run_told};
use ml_style::SAMPLE;
use std::alloc::Global;
use std::process::Abort;

/// Three cities, 400 units from one another.
const ABC: &str =
    r#"{"type":"FeatureCollection","features":[{"type":"Feature","id":"A","geometry":{"type":"Point","coordinates":[0,0]},"properties":{"name":"ab","place":"city","pop":3}},{"type":"Feature","id":"B","geometry":{"type":"Point","coordinates":[0.0000400,0]},"properties":{"name":"ab","place":"city","pop":2}},{"type":"Feature","id":"C","geometry":{"type":"Point","coordinates":[0.0000800,0]},"properties":{"name":"ab","place":"city","pop":1}}]}"#;

/// One city to the west, whose id is no plain word.
const WEST: &str =
    r#"{"type":"Feature","id":"A b","geometry":{"type":"Point","coordinates":[-0.0001,0]},"properties":{"name":"ab","place":"city"}}"#;

/// What stands in the style in place of `min = "0"`, what stands behind the city's key, the words
/// behind style and map, and the exit code with what is printed, with `¶` for each line feed.
const ABC_ZOOMS: &str =
    r#"min = "0" |  | 0 0 100 100 => 0 A (0/1,1000/1)¶B (20/3,20/1)¶C (40/3,40/1)¶peak 3 after 40/3¶
min = "0" |  | 0 0 2 2 => 0 A (0/1,1000/1)¶peak 1 after 0/1¶
min = "10" |  | 0 0 2 2 => 0 A [10/1,1000/1)¶peak 1 at 10/1¶
min = "0" |  | 2000000000 0 2 2 => 0 peak 0 after 0/1¶"#;

/// The same of the city to the west.
const WEST_ZOOMS: &str =
    r#"min = "0" | dx = 100 | 0 0 2 2 => 0 A%20b (1000/111,1000/89)¶peak 1 after 1000/111¶
min = "0" |  | -1000 0 2 2 => 0 A%20b (0/1,1000/1)¶peak 1 after 0/1¶"#;

/// The style with another minimum and a further line in the class of cities.
fn style_with(rt: &impl Abort, alloc: Global, min: &str, line: &str) -> String {
    let style = SAMPLE
        .replace(alloc, "min = \"0\"", min)
        .expect(rt, "memory");
    let city = format!(in alloc; "value = \"city\"\n{line}").expect(rt, "memory");
    style
        .replace(alloc, "value = \"city\"", city.as_str())
        .expect(rt, "memory")
}

/// What is printed of the map of this name for a case, behind the exit code.
fn zoom_told(rt: &impl Abort, alloc: Global, map: &str, input: &str) -> String {
    let (min, rest) = input.split_once(" | ").expect(rt, "a minimum");
    let (line, words) = rest.split_once(" | ").expect(rt, "a line");
    let style = style_with(rt, alloc, min, line);
    let words = format!(in alloc; "zoom s {map} {words}").expect(rt, "memory");
    let files = [("s", style.as_str()), ("abc", ABC), ("west", WEST)];
    run_told(rt, alloc, &files, words.as_str())
}

/// Timelines of three cities.
struct OfThree;

impl Subject for OfThree {
    fn holds(rt: &impl Abort, alloc: Global, input: &str, want: &str) -> bool {
        zoom_told(rt, alloc, "abc", input).as_str() == want
    }
}

/// Timelines of the city to the west.
struct OfWest;

impl Subject for OfWest {
    fn holds(rt: &impl Abort, alloc: Global, input: &str, want: &str) -> bool {
        zoom_told(rt, alloc, "west", input).as_str() == want
    }
}

#[test]
fn timelines_are_printed(rt: HostRuntime) {
    each_holds::<OfThree>(&rt, rt.alloc(), ABC_ZOOMS);
    each_holds::<OfWest>(&rt, rt.alloc(), WEST_ZOOMS)
}
