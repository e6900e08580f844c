//! Tables of cases, and the parts of a case.
use ml_geojson::read_feature;
use ml_ratio::Feature;
use std::alloc::Global;
use std::process::Abort;

/// What a table of cases is about.
pub trait Subject {
    /// Whether an input has the answer that is wanted.
    fn holds(rt: &impl Abort, alloc: Global, input: &str, want: &str) -> bool;
}

/// Whether a case holds, a line `input => answer`.
fn case_holds<S: Subject>(rt: &impl Abort, alloc: Global, line: &str) -> bool {
    let (input, want) = line.split_once(" => ").expect(rt, "a case");
    S::holds(rt, alloc, input, want)
}

/// Each case of a table holds.
pub fn each_holds<S: Subject>(rt: &impl Abort, alloc: Global, table: &str) {
    for line in table.lines() {
        assert!(rt; case_holds::<S>(rt, alloc, line), "{line}");
    }
}

/// The text with another word for each of one word.
fn replaced(rt: &impl Abort, alloc: Global, text: &str, word: &str, by: &str) -> String {
    text.replace(alloc, word, by).expect(rt, "memory")
}

/// The text with a line feed for each ` / `.
pub fn lines_of(rt: &impl Abort, alloc: Global, text: &str) -> String {
    replaced(rt, alloc, text, " / ", "\n")
}

/// The number without a sign that a word writes.
pub fn count(rt: &impl Abort, word: &str) -> u32 {
    word.parse::<u32>().ok().expect(rt, "a number")
}

/// Coordinates in degrees, from coordinates in world units, of which ten million make a degree.
fn degrees(rt: &impl Abort, alloc: Global, units: &str) -> String {
    let text = replaced(rt, alloc, units, ",", "e-7,");
    let text = replaced(rt, alloc, &text, "]", "e-7]");
    // no number stands right behind a bracket
    replaced(rt, alloc, &text, "]e-7", "]")
}

/// The JSON text of the feature whose shape a text writes.
fn json_of(rt: &impl Abort, alloc: Global, text: &str) -> String {
    let (kind, units) = text.split_once(' ').expect(rt, "a kind");
    let degrees = degrees(rt, alloc, units);
    let degrees = degrees.as_str();
    format!(in alloc;
        r#"{{"type":"Feature","id":"a","geometry":{{"type":"{kind}","coordinates":{degrees}}},"properties":{{}}}}"#
    ).expect(rt, "memory")
}

/// The feature whose shape a text writes, as `LineString [[0,5],[7,5]]` in world units.
pub fn feature_of(rt: &impl Abort, alloc: Global, text: &str) -> Feature {
    let json = json_of(rt, alloc, text);
    read_feature(alloc, json.as_bytes()).expect(rt, "a feature")
}
