//! Edits of a map, one after another, and what is asked of it between them.
ghost use Rattle.std.specs.Prelude.{◌≡◌, ◌<◌, All, IfOk, IfSome};
ghost use Rattle.ml_store.specs.Rows.{IsLive, IsNumberOf};
ghost use Rattle.ml_editor.specs.Editing.{IsReady, HasRoomFor};

use crate::cases::{fraction, text_of, word};
use ml_answer::{edit_json, fault_json, reason_json, rev_json, slot_json};
use ml_cone::View;
use ml_editor::{EditFault, Editor, Ready, Standing};
use ml_geojson::read_collection;
use ml_ratio::lines::parts_of;
use ml_ratio::{Seq, Steps, Text, read_whole};
use ml_style::{Style, read_style};
use ml_watch::{Crowd, MemWatcher};
use std::alloc::Global;
use std::marker::Brand;
use std::process::Abort;
use std::sync::ledger::{Blank, Ledger};

/// A style of towns, each letter ten pixels wide, but for its margin.
const TOWNS: &str = r#"version = 2
rank = "pop"

[fonts.sans]
units = 1000
default = 500

[[class]]
geometry = "point"
key = "place"
value = "city"
font = "sans"
size = 20
priority = 1
min = "0"
max = "1000"
margin = "#;

/// `WORD REV ARGUMENT => ANSWER`. Where no revision is asked for `REV` is `-`. The answer of an edit is
/// how many labels were evaluated for it and its text, that of a refusal `-` and its text. A feature is
/// written as its id, its longitude in ten millionths of a degree, its rank and its name, or as itself.
const EDITS: &str = r#"new - - => {"features":0,"labels":0,"rev":0}
add - A 0 3 ab => 1 {"changes":[{"after":["0/1","1000/1"],"before":null,"id":"A"}],"rev":1}
add - B 400 2 ab => 1 {"changes":[{"after":["0/1","20/1"],"before":null,"id":"B"}],"rev":2}
add - C 800 1 ab => 1 {"changes":[{"after":["0/1","40/1"],"before":null,"id":"C"}],"rev":3}
why - C => {"blocker":"A","id":"C","max":"1000/1","min":"0/1","until":"40/1"}
del - A => 2 {"changes":[{"after":null,"before":["0/1","1000/1"],"id":"A"},{"after":["0/1","1000/1"],"before":["0/1","20/1"],"id":"B"},{"after":["0/1","20/1"],"before":["0/1","40/1"],"id":"C"}],"rev":4}
why - C => {"blocker":"B","id":"C","max":"1000/1","min":"0/1","until":"20/1"}
why - A => none
order - - => B C
del - B => 1 {"changes":[{"after":null,"before":["0/1","1000/1"],"id":"B"},{"after":["0/1","1000/1"],"before":["0/1","20/1"],"id":"C"}],"rev":5}
map - - => C
del - C => 0 {"changes":[{"after":null,"before":["0/1","1000/1"],"id":"C"}],"rev":6}
add - B 400 2 ab => 1 {"changes":[{"after":["0/1","1000/1"],"before":null,"id":"B"}],"rev":7}
add - A 0 1 ab => 1 {"changes":[{"after":["0/1","20/1"],"before":null,"id":"A"}],"rev":8}
map - - => B A
new - - => {"features":0,"labels":0,"rev":0}
add - A -400 3 ab => 1 {"changes":[{"after":["0/1","1000/1"],"before":null,"id":"A"}],"rev":1}
add - B 400 2 ab => 1 {"changes":[{"after":["0/1","40/1"],"before":null,"id":"B"}],"rev":2}
add - C 0 1 ab => 1 {"changes":[{"after":["0/1","20/1"],"before":null,"id":"C"}],"rev":3}
why - C => {"blocker":"A","id":"C","max":"1000/1","min":"0/1","until":"20/1"}
del - A => 2 {"changes":[{"after":null,"before":["0/1","1000/1"],"id":"A"},{"after":["0/1","1000/1"],"before":["0/1","40/1"],"id":"B"}],"rev":4}
why - C => {"blocker":"B","id":"C","max":"1000/1","min":"0/1","until":"20/1"}
add - A -400 3 ab => 3 {"changes":[{"after":["0/1","1000/1"],"before":null,"id":"A"},{"after":["0/1","40/1"],"before":["0/1","1000/1"],"id":"B"}],"rev":5}
why - C => {"blocker":"A","id":"C","max":"1000/1","min":"0/1","until":"20/1"}
order - - => A B C
map - - => B C A
new - - => {"features":0,"labels":0,"rev":0}
add - A 0 3 ab => 1 {"changes":[{"after":["0/1","1000/1"],"before":null,"id":"A"}],"rev":1}
add - A 0 3 ab => - {"error":"Duplicate","id":"A"}
put - Z 0 3 ab => - {"error":"Unknown","id":"Z"}
del - Z => - {"error":"Unknown","id":"Z"}
add 0 x => - {"error":"RevMoved","rev":1}
add 1 x => - {"at":0,"error":"NotJson"}
put 1 x => - {"at":0,"error":"NotJson"}
show - 1 => A
put 1 A 0 3 abc => 1 {"changes":[{"after":["0/1","1000/1"],"before":["0/1","1000/1"],"id":"A"}],"rev":2}
put 1 x => - {"error":"RevMoved","rev":2}
del 1 Z => - {"error":"RevMoved","rev":2}
style 1 x => - {"error":"RevMoved","rev":2}
put - A 0 3 abc => 1 {"changes":[],"rev":3}
put - A 0 3 - => 0 {"changes":[{"after":null,"before":["0/1","1000/1"],"id":"A"}],"rev":4}
why - A => {"id":"A","reason":"NoName"}
show - 1 => none
del - A => 0 {"changes":[],"rev":5}
why - A => none
rev - - => {"features":0,"labels":0,"rev":5}
new - - => {"features":0,"labels":0,"rev":0}
try - A 0 3 ab => {"features":0,"labels":0,"rev":0}
why - A => none
add - A 0 3 ab => 1 {"changes":[{"after":["0/1","1000/1"],"before":null,"id":"A"}],"rev":1}
map - - => A
new - - => {"features":0,"labels":0,"rev":0}
add - A 0 3 ab => 1 {"changes":[{"after":["0/1","1000/1"],"before":null,"id":"A"}],"rev":1}
add - B 15000 2 ab => 1 {"changes":[{"after":["0/1","750/1"],"before":null,"id":"B"}],"rev":2}
add - C 30000 1 ab => 1 {"changes":[{"after":["0/1","1000/1"],"before":null,"id":"C"}],"rev":3}
del - A => 2 {"changes":[{"after":null,"before":["0/1","1000/1"],"id":"A"},{"after":["0/1","1000/1"],"before":["0/1","750/1"],"id":"B"},{"after":["0/1","750/1"],"before":["0/1","1000/1"],"id":"C"}],"rev":4}
new - - => {"features":0,"labels":0,"rev":0}
add - A 0 3 ab => 1 {"changes":[{"after":["0/1","1000/1"],"before":null,"id":"A"}],"rev":1}
add - B 400 2 ab => 1 {"changes":[{"after":["0/1","20/1"],"before":null,"id":"B"}],"rev":2}
add - C 800 1 ab => 1 {"changes":[{"after":["0/1","40/1"],"before":null,"id":"C"}],"rev":3}
style - 5 => 0 {"changes":[{"after":["0/1","1000/1"],"before":["0/1","1000/1"],"id":"A"},{"after":["0/1","40/3"],"before":["0/1","20/1"],"id":"B"},{"after":["0/1","80/3"],"before":["0/1","40/1"],"id":"C"}],"rev":4}
style 4 5 => 0 {"changes":[],"rev":5}
style - version => - {"error":"Version"}
style 0 version => - {"error":"RevMoved","rev":5}
rev - - => {"features":3,"labels":3,"rev":5}
last - - => {"features":0,"labels":0,"rev":9007199254740992}
add - A 0 3 ab => - {"error":"RevEnd"}
style - 5 => - {"error":"RevEnd"}
del - A => - {"error":"Unknown","id":"A"}
add 0 x => - {"error":"RevMoved","rev":9007199254740992}
full - - => {"features":32768,"labels":0,"rev":0}
add - A 0 3 ab => - {"error":"Full"}
add - 5 0 3 ab => - {"error":"Duplicate","id":"5"}
put - 5 0 3 ab => 1 {"changes":[{"after":["0/1","1000/1"],"before":null,"id":"5"}],"rev":1}
del - 7 => 0 {"changes":[],"rev":2}
add - A 0 2 ab => 1 {"changes":[{"after":["0/1","0/1"],"before":null,"id":"A"}],"rev":3}
rev - - => {"features":32768,"labels":2,"rev":3}
style - 5 => 0 {"changes":[{"after":["0/1","1000/1"],"before":["0/1","1000/1"],"id":"5"},{"after":["0/1","0/1"],"before":["0/1","0/1"],"id":"A"}],"rev":4}
rev - - => {"features":32768,"labels":2,"rev":4}"#;

/// A style with this margin, or the text itself.
fn style_of(rt: &impl Abort, alloc: Global, words: &str) -> String {
    match words {
        "version" => String::from_str(alloc, "version = 3").expect(rt, "memory"),
        "x" => String::from_str(alloc, "x").expect(rt, "memory"),
        margin => format!(in alloc; "{TOWNS}{margin}\n").expect(rt, "memory"),
    }
}

/// The feature that four words write.
fn feature_of(rt: &impl Abort, alloc: Global, words: &[&str]) -> String {
    let id = word(rt, words, 0);
    let x = word(rt, words, 1);
    let pop = word(rt, words, 2);
    let name = word(rt, words, 3);
    let name = if name == "-" { "" } else { name };
    format!(in alloc;
        r#"{{"type":"Feature","id":"{id}","geometry":{{"type":"Point","coordinates":[{x}e-7,0]}},"properties":{{"name":"{name}","place":"city","pop":{pop}}}}}"#
    ).expect(rt, "memory")
}

/// The feature that words write, or the words themselves.
fn body_of(rt: &impl Abort, alloc: Global, text: &str) -> String {
    let words = parts_of(alloc, text, ' ').expect(rt, "memory");
    if words.len() == 4 {
        return feature_of(rt, alloc, &words);
    }
    text.to_string(alloc).expect(rt, "memory")
}

/// The style of towns.
fn towns(rt: &impl Abort, alloc: Global) -> Style {
    let style = style_of(rt, alloc, "0");
    read_style(alloc, style.as_bytes()).expect(rt, "a style")
}

/// A map without features; at its last revision for the word `last`, and with as many features as a map
/// may have, none of them with a label, for the word `full`.
fn fresh(rt: &impl Abort, alloc: Global, word: &str) -> Editor {
    let style = towns(rt, alloc);
    match word {
        "last" => Editor::load_at(alloc, style, Seq::new(alloc), 9007199254740992).expect(
            rt, "memory",
        ),
        "full" => full(rt, alloc, style),
        _ => Editor::load(alloc, style, Seq::new(alloc)).expect(rt, "memory"),
    }
}

/// The text of as many features as there may be, none of which has a label.
fn full_text(rt: &impl Abort, alloc: Global) -> String {
    let mut text = r#"{"type":"FeatureCollection","features":["#
        .to_string(alloc)
        .expect(rt, "memory");
    for i in 0..32768 {
        let comma = if i == 0 { "" } else { "," };
        text.push_str(&format!(in alloc;
            r#"{comma}{{"type":"Feature","id":"{i}","geometry":null,"properties":null}}"#
        ).expect(rt, "memory"))
            .expect(rt, "memory");
    }
    text.push_str("]}").expect(rt, "memory");
    text
}

/// A map of as many features as there may be, none of which has a label.
fn full(rt: &impl Abort, alloc: Global, style: Style) -> Editor {
    let text = full_text(rt, alloc);
    let features = read_collection(alloc, text.as_bytes()).expect(rt, "a map");
    Editor::load(alloc, style, features).expect(rt, "memory")
}

/// The text of how many features and labels there are.
fn counted(rt: &impl Abort, alloc: Global, editor: &Editor) -> String {
    text_of(
        rt,
        rev_json(alloc, editor.rev(), editor.features(), editor.labels()).expect(rt, "memory"),
    )
}

/// The revision that a word asks for; `-` asks for none.
fn rev_of(word: &str) -> Option<u64> {
    match read_whole(word) {
        Some(rev) => u64::try_from(rev).ok(),
        None => None,
    }
}

/// The edit that a word names, made ready.
fn prepared<L: Ledger>(
    rt: &impl Abort,
    alloc: Global,
    editor: &mut Editor,
    word: &str,
    rev: Option<u64>,
    words: &str,
    steps: &mut Steps<L>,
) -> Result<Ready, EditFault>
    ensures { IfOk result (λ ready.
        IsReady ready editor.new.state editor.new.engine.rows × HasRoomFor ready editor.new) }
{
    match word {
        "add" => {
            let body = body_of(rt, alloc, words);
            editor.prepare_add(alloc, rev, body.as_bytes(), steps)
        }
        "put" => {
            let body = body_of(rt, alloc, words);
            editor.prepare_replace(alloc, rev, body.as_bytes(), steps)
        }
        "del" => {
            let id = Text::of(alloc, words).expect(rt, "memory");
            editor.prepare_remove(alloc, rev, &id, steps)
        }
        _ => {
            let style = style_of(rt, alloc, words);
            editor.prepare_style(alloc, rev, style.as_bytes())
        }
    }
}

/// The text of what an edit changed, behind how many labels were evaluated for it.
fn ready_told(rt: &impl Abort, alloc: Global, ready: &Ready) -> String {
    let text = text_of(
        rt,
        edit_json(alloc, ready.rev(), ready.changes()).expect(rt, "memory"),
    );
    format!(in alloc; "{} {text}", ready.evaluated()).expect(rt, "memory")
}

/// Why an edit is refused.
fn fault_told(rt: &impl Abort, alloc: Global, fault: &EditFault) -> String {
    let text = text_of(rt, fault_json(alloc, fault).expect(rt, "memory"));
    format!(in alloc; "- {text}").expect(rt, "memory")
}

/// Carries out an edit and tells the watchers; the text of what it changed.
fn committed(
    rt: &impl Abort,
    alloc: Global,
    editor: &mut Editor,
    crowd: &mut Crowd<MemWatcher>,
    ready: Ready,
) -> String
    requires ready { IsReady ready editor.old.state editor.old.engine.rows }
    requires room { HasRoomFor ready editor.old }
{
    let told = ready_told(rt, alloc, &ready);
    editor.commit(ready, crowd);
    told
}

/// Makes an edit and tells the watchers; the text of what it changed, or why it was refused.
fn edited<L: Ledger>(
    rt: &impl Abort,
    alloc: Global,
    editor: &mut Editor,
    crowd: &mut Crowd<MemWatcher>,
    word: &str,
    rev: Option<u64>,
    words: &str,
    steps: &mut Steps<L>,
) -> String {
    match prepared(rt, alloc, editor, word, rev, words, steps) {
        Ok(ready) => committed(rt, alloc, editor, crowd, ready),
        Err(fault) => fault_told(rt, alloc, &fault),
    }
}

/// Whether an edit is ready, of a feature with an id.
fn is_of_an_id(made: &Result<Ready, EditFault>) -> bool {
    match made {
        Ok(ready) => ready.edited_id().is_some(),
        Err(_fault) => false,
    }
}

/// Makes an addition ready and gives it up; how many features and labels there are beside it.
fn tried<L: Ledger>(
    rt: &impl Abort,
    alloc: Global,
    editor: &mut Editor,
    words: &str,
    steps: &mut Steps<L>,
) -> String {
    let made = prepared(rt, alloc, editor, "add", None, words, steps);
    assert!(rt; is_of_an_id(&made), "a ready edit");
    counted(rt, alloc, editor)
}

/// Why the feature with an id has no label, or the slot of its label.
fn why(rt: &impl Abort, alloc: Global, editor: &Editor, words: &str) -> String {
    let id = Text::of(alloc, words).expect(rt, "memory");
    match editor.standing(&id) {
        Some(Standing::Labelled(number)) => slot_of(rt, alloc, editor, &id, number),
        Some(Standing::Unlabelled(reason)) => text_of(
            rt,
            reason_json(alloc, &id, reason).expect(rt, "memory"),
        ),
        None => "none".to_string(alloc).expect(rt, "memory"),
    }
}

/// The slot of the label with this id and this number.
fn slot_of(rt: &impl Abort, alloc: Global, editor: &Editor, id: &Text, number: u32) -> String
    requires { IsNumberOf editor.now.engine.rows id.now number }
{
    let slot = editor.slot_at(number);
    let blocker = blocker_of(editor, slot.blocker);
    text_of(
        rt,
        slot_json(alloc, editor.label_at(number), slot.until, blocker).expect(rt, "memory"),
    )
}

/// The id of the label with this number, if there is a number.
fn blocker_of(editor: &Editor, number: Option<u32>) -> Option<&Text>
    requires { IfSome number (IsLive editor.now.engine.rows) }
{
    match number {
        Some(number) => Some(editor.label_at(number).id()),
        None => None,
    }
}

/// Adds an id to a text of ids.
fn add_id(rt: &impl Abort, ids: &mut String, id: &Text) {
    if !ids.is_empty() {
        ids.push_str(" ").expect(rt, "memory");
    }
    ids.push_str(id.as_str()).expect(rt, "memory");
}

/// The ids of the labels with these numbers, or `none`.
fn ids_of(rt: &impl Abort, alloc: Global, editor: &Editor, numbers: &[u32]) -> String
    requires { All (IsLive editor.now.engine.rows) numbers.now }
{
    if numbers.is_empty() {
        return "none".to_string(alloc).expect(rt, "memory");
    }
    let mut ids = String::new(alloc);
    for number in numbers {
        add_id(rt, &mut ids, editor.label_at(*number).id());
    }
    ids
}

/// The numbers of the labels that a view shows.
fn look<L: Ledger>(
    rt: &impl Abort,
    alloc: Global,
    editor: &Editor,
    view: &View,
    steps: &mut Steps<L>,
) -> Seq<u32>
    ensures { All (IsLive editor.now.engine.rows) result }
{
    editor.shown(alloc, view, steps).expect(rt, "memory")
}

/// The ids of the labels that a view about the middle of the world shows at a scale.
fn shown<L: Ledger>(
    rt: &impl Abort,
    alloc: Global,
    editor: &Editor,
    scale: &str,
    steps: &mut Steps<L>,
) -> String {
    let view = View::of(0, 0, 1024, 768, fraction(rt, scale)).expect(rt, "a view");
    let numbers = look(rt, alloc, editor, &view, steps);
    ids_of(rt, alloc, editor, numbers.as_slice())
}

/// The ids of the features of the text of the map, in their order.
fn mapped(rt: &impl Abort, alloc: Global, editor: &Editor) -> String {
    let text = editor.export(alloc).expect(rt, "memory");
    let features = read_collection(alloc, text.as_slice()).expect(rt, "a map");
    let mut ids = String::new(alloc);
    for feature in features.as_slice() {
        add_id(rt, &mut ids, &feature.id);
    }
    ids
}

/// The numbers of all labels in their order.
fn numbers_of(rt: &impl Abort, alloc: Global, editor: &Editor) -> Seq<u32>
    ensures { All (IsLive editor.now.engine.rows) result }
{
    editor.in_order(alloc).expect(rt, "memory")
}

/// The ids of all labels in their order.
fn ordered(rt: &impl Abort, alloc: Global, editor: &Editor) -> String {
    let numbers = numbers_of(rt, alloc, editor);
    ids_of(rt, alloc, editor, numbers.as_slice())
}

/// Begins again with another map.
fn begun(rt: &impl Abort, alloc: Global, editor: &mut Editor, word: &str) -> String {
    *editor = fresh(rt, alloc, word);
    counted(rt, alloc, editor)
}

/// What a line asks of the map, or what it makes of it.
fn told<L: Ledger>(
    rt: &impl Abort,
    alloc: Global,
    editor: &mut Editor,
    crowd: &mut Crowd<MemWatcher>,
    input: &str,
    steps: &mut Steps<L>,
) -> String {
    let (word, rest) = input.split_once(" ").expect(rt, "a word");
    let (rev, words) = rest.split_once(" ").expect(rt, "a revision");
    match word {
        "new" | "last" | "full" => begun(rt, alloc, editor, word),
        "rev" => counted(rt, alloc, editor),
        "why" => why(rt, alloc, editor, words),
        "order" => ordered(rt, alloc, editor),
        "map" => mapped(rt, alloc, editor),
        "show" => shown(rt, alloc, editor, words, steps),
        "try" => tried(rt, alloc, editor, words, steps),
        _ => edited(rt, alloc, editor, crowd, word, rev_of(rev), words, steps),
    }
}

/// Fails where a line has another answer.
fn holds<L: Ledger>(
    rt: &impl Abort,
    alloc: Global,
    editor: &mut Editor,
    crowd: &mut Crowd<MemWatcher>,
    line: &str,
    steps: &mut Steps<L>,
) {
    let (input, want) = line.split_once(" => ").expect(rt, "a case");
    let told = told(rt, alloc, editor, crowd, input, steps);
    assert!(rt; told.as_str() == want, "{line}, not {told}");
}

/// Fails at the first line that has another answer.
fn each_holds<L: Ledger>(
    rt: &impl Abort,
    alloc: Global,
    editor: &mut Editor,
    crowd: &mut Crowd<MemWatcher>,
    steps: &mut Steps<L>,
) {
    for line in EDITS.lines() {
        holds(rt, alloc, editor, crowd, line, steps);
    }
}

/// Fails at the first line that has another answer, counting the steps.
fn all_hold<L: Ledger>(
    rt: &impl Abort,
    alloc: Global,
    editor: &mut Editor,
    crowd: &mut Crowd<MemWatcher>,
    blank: Blank,
)
    requires name { blank.name ≡ L.name }
    requires parts { blank.parts ≡ L.parts }
    requires some { 0 < blank.parts }
{
    let mut steps: Steps<L> = Steps::new(blank);
    each_holds(rt, alloc, editor, crowd, &mut steps)
}

/// One watcher, who does not fail.
fn one_watcher(rt: &impl Abort, alloc: Global) -> Crowd<MemWatcher> {
    let mut watchers = Vec::new(alloc);
    let watcher = MemWatcher::new(alloc, 100, Vec::new(alloc)).expect(rt, "memory");
    watchers.push(watcher).expect(rt, "memory");
    Crowd::new(watchers)
}

/// Fails at the first line that has another answer, from an empty map on.
fn edits_hold(rt: &impl Abort, alloc: Global, crowd: &mut Crowd<MemWatcher>) {
    let mut editor = fresh(rt, alloc, "new");
    all_hold::<Brand>(rt, alloc, &mut editor, crowd, Blank::new(1))
}

/// How many changes a watcher hears of all edits.
fn heard(rt: &impl Abort, alloc: Global) -> Option<u64> {
    let mut crowd = one_watcher(rt, alloc);
    edits_hold(rt, alloc, &mut crowd);
    crowd.heard(0)
}

#[test]
fn a_map_is_edited(rt: HostRuntime) {
    assert!(rt; heard(&rt, rt.alloc()) == Some(38));
}
