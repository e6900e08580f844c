//! Labels that come, go and take each other's place, and views of them.
ghost use Rattle.std.specs.Prelude.{◌≡◌, ◌<◌, IfSome, All};
ghost use Rattle.ml_repair.specs.Plan.{IsPlanOf};
ghost use Rattle.ml_store.specs.Rows.{IsLive};

use crate::cases::{Table, changes_told, first, hold, label_of, rows_of, view_of};
use ml_cone::{Label, View};
use ml_pass::read_table;
use ml_ratio::{Seq, Steps, Text};
use ml_repair::{Engine, Plan};
use std::alloc::Global;
use std::marker::Brand;
use std::process::Abort;
use std::sync::ledger::{Blank, Ledger};

/// The engine of the labels of a table.
fn engine_of(rt: &impl Abort, alloc: Global, table: &str) -> Engine {
    let text = rows_of(rt, alloc, table);
    let labels = read_table(alloc, text.as_bytes()).expect(rt, "a table");
    Engine::build(alloc, labels).expect(rt, "memory")
}

/// The plan of taking out the label with an id, if there is one.
fn removal<L: Ledger>(
    rt: &impl Abort,
    alloc: Global,
    engine: &Engine,
    id: &Text,
    steps: &mut Steps<L>,
) -> Option<Plan>
    ensures { IfSome result (λ plan. IsPlanOf plan engine.now.rows) }
{
    match engine.number_of(id) {
        Some(_number) => Some(engine.plan_remove(alloc, id, steps).expect(rt, "memory")),
        None => None,
    }
}

/// The plan of the coming of a label, in place of another where there is one with its id.
fn coming<L: Ledger>(
    rt: &impl Abort,
    alloc: Global,
    engine: &Engine,
    label: Label,
    steps: &mut Steps<L>,
) -> Option<Plan>
    ensures { IfSome result (λ plan. IsPlanOf plan engine.now.rows) }
{
    if engine.len() >= 32_768 {
        return None;
    }
    match engine.number_of(label.id()) {
        Some(_number) => Some(
            engine
                .plan_replace(alloc, label, steps)
                .expect(rt, "memory"),
        ),
        None => Some(engine.plan_add(alloc, label, steps).expect(rt, "memory")),
    }
}

/// The plan of an edit: of the coming of a label, or the going of the one with an id.
fn plan_of<L: Ledger>(
    rt: &impl Abort,
    alloc: Global,
    engine: &Engine,
    label: Option<Label>,
    id: &Text,
    blank: Blank,
) -> Option<Plan>
    requires name { blank.name ≡ L.name }
    requires parts { blank.parts ≡ L.parts }
    requires some { 0 < blank.parts }
    ensures { IfSome result (λ plan. IsPlanOf plan engine.now.rows) }
{
    let mut steps: Steps<L> = Steps::new(blank);
    match label {
        Some(label) => coming(rt, alloc, engine, label, &mut steps),
        None => removal(rt, alloc, engine, id, &mut steps),
    }
}

/// The plan of an edit.
fn planned(
    rt: &impl Abort,
    alloc: Global,
    engine: &Engine,
    label: Option<Label>,
    id: &Text,
) -> Option<Plan>
    ensures { IfSome result (λ plan. IsPlanOf plan engine.now.rows) }
{
    plan_of::<Brand>(rt, alloc, engine, label, id, Blank::new(1))
}

/// The label that an edit brings, if it brings one.
fn label_in(rt: &impl Abort, alloc: Global, edit: &str, row: &str) -> Option<Label> {
    if edit.starts_with("-") {
        return None;
    }
    Some(label_of(rt, alloc, row))
}

/// The plan of the edit that a text writes.
fn plan_in(rt: &impl Abort, alloc: Global, engine: &Engine, edit: &str) -> Plan
    ensures { IsPlanOf result engine.now.rows }
{
    let rest = edit.get(1..).expect(rt, "an edit");
    let id = Text::of(alloc, rest).expect(rt, "memory");
    let label = label_in(rt, alloc, edit, rest);
    planned(rt, alloc, engine, label, &id).expect(rt, "a plan")
}

/// What a plan changes, and how many labels were evaluated for it.
fn plan_told(rt: &impl Abort, alloc: Global, plan: &Plan) -> String {
    let changes = changes_told(rt, alloc, plan.changes());
    format!(in alloc; "{changes}evaluated {}|", plan.evaluated()).expect(rt, "memory")
}

/// Makes an edit, and tells what it changes.
fn make(rt: &impl Abort, alloc: Global, engine: &mut Engine, edit: &str) -> String {
    let plan = plan_in(rt, alloc, engine, edit);
    let told = plan_told(rt, alloc, &plan);
    engine.reserve(&plan).expect(rt, "memory");
    engine.apply(plan);
    told
}

/// The slot of the label with a number, with a bar behind it.
fn slot_told(rt: &impl Abort, alloc: Global, engine: &Engine, number: u32) -> String
    requires { IsLive engine.now.rows number }
{
    let slot = engine.slot_at(number);
    let id = engine.label_at(number).id().as_str();
    let blocker = match slot.blocker {
        Some(blocker) => engine.label_at(blocker).id().as_str(),
        None => "-",
    };
    let until = slot.until.text(alloc).expect(rt, "memory");
    format!(in alloc; "{id} {} {blocker}|", until.as_str()).expect(rt, "memory")
}

/// Adds the slots of the labels with these numbers.
fn tell_slots(rt: &impl Abort, alloc: Global, engine: &Engine, numbers: &[u32], told: &mut String)
    requires { All (IsLive engine.now.rows) numbers.now }
{
    for number in numbers {
        told.push_str(&slot_told(rt, alloc, engine, *number))
            .expect(rt, "memory");
    }
}

/// The numbers of all labels in their order.
fn numbers_of(rt: &impl Abort, alloc: Global, engine: &Engine) -> Seq<u32>
    ensures { All (IsLive engine.now.rows) result }
{
    engine.in_order(alloc).expect(rt, "memory")
}

/// What each of some edits changes, and the slots of all labels behind them.
fn edits_told(rt: &impl Abort, alloc: Global, engine: &mut Engine, edits: &str) -> String {
    let mut told = String::new(alloc);
    for edit in edits.split(" | ") {
        told.push_str(&make(rt, alloc, engine, edit))
            .expect(rt, "memory");
    }
    let numbers = numbers_of(rt, alloc, engine);
    tell_slots(rt, alloc, engine, numbers.as_slice(), &mut told);
    told.trim_end_matches('|')
        .to_string(alloc)
        .expect(rt, "memory")
}

/// A table of labels and edits of it: `-ID` takes a label out, `+ROW` adds one, `=ROW` puts one in
/// place of that with its id. The answer is what each edit changes and how many labels it evaluates,
/// and at the end the slots of all labels, with a bar for each line feed.
struct Edits;

impl Table for Edits {
    const LINES: &'static str = "\
A 0 0 0 1000 -10,-5,10,5 / B 400 0 0 1000 -10,-5,10,5 / C 800 0 0 1000 -10,-5,10,5 | -A => A 0/1..1000/1 -|B 0/1..20/1 0/1..1000/1|C 0/1..40/1 0/1..20/1|evaluated 2|B 1000/1 -|C 20/1 B
A -400 0 0 1000 -10,-5,10,5 / B 400 0 0 1000 -10,-5,10,5 / C 0 0 0 1000 -10,-5,10,5 | -A => A 0/1..1000/1 -|B 0/1..40/1 0/1..1000/1|evaluated 2|B 1000/1 -|C 20/1 B
A -400 0 0 1000 -10,-5,10,5 / B 400 0 0 1000 -10,-5,10,5 / C 0 0 0 1000 -10,-5,10,5 | -A | +A -400 0 0 1000 -10,-5,10,5 => A 0/1..1000/1 -|B 0/1..40/1 0/1..1000/1|evaluated 2|A - 0/1..1000/1|B 0/1..1000/1 0/1..40/1|evaluated 3|A 1000/1 -|B 40/1 A|C 20/1 A
A 0 0 0 1000 -10,-10,10,10 / B 15000 0 0 1000 -10,-10,10,10 / C 30000 0 0 1000 -10,-10,10,10 | -A => A 0/1..1000/1 -|B 0/1..750/1 0/1..1000/1|C 0/1..1000/1 0/1..750/1|evaluated 2|B 1000/1 -|C 750/1 B
A 0 0 0 1000 -10,-5,10,5 / B 400 0 0 1000 -10,-5,10,5 / C 800 0 0 1000 -10,-5,10,5 | =A 100000 0 0 1000 -10,-5,10,5 => A 0/1..1000/1 0/1..1000/1|B 0/1..20/1 0/1..1000/1|C 0/1..40/1 0/1..20/1|evaluated 3|A 1000/1 -|B 1000/1 -|C 20/1 B
A 7 7 0 1000 -10,-5,10,5 / B 7 7 0 1000 -10,-5,10,5 | -A | -B => A 0/1..1000/1 -|B 0/1..0/1 0/1..1000/1|evaluated 1|B 0/1..1000/1 -|evaluated 0";

    fn told(rt: &impl Abort, alloc: Global, input: &str) -> String {
        let (table, edits) = first(rt, input);
        let mut engine = engine_of(rt, alloc, table);
        edits_told(rt, alloc, &mut engine, edits)
    }
}

#[test]
fn edits_change_just_what_they_touch(rt: HostRuntime) {
    hold::<Edits>(&rt, rt.alloc())
}

/// The numbers of the labels that a view shows.
fn look<L: Ledger>(
    rt: &impl Abort,
    alloc: Global,
    engine: &Engine,
    view: &View,
    blank: Blank,
) -> Seq<u32>
    requires name { blank.name ≡ L.name }
    requires parts { blank.parts ≡ L.parts }
    requires some { 0 < blank.parts }
    ensures { All (IsLive engine.now.rows) result }
{
    let mut looks: Steps<L> = Steps::new(blank);
    engine.shown(alloc, view, &mut looks).expect(rt, "memory")
}

/// The ids of the labels with these numbers.
fn ids_of(rt: &impl Abort, alloc: Global, engine: &Engine, numbers: &[u32]) -> String
    requires { All (IsLive engine.now.rows) numbers.now }
{
    let mut ids = String::new(alloc);
    for number in numbers {
        ids.push_str(engine.label_at(*number).id().as_str())
            .expect(rt, "memory");
    }
    ids
}

/// The ids of the labels that a view shows.
fn ids_shown(rt: &impl Abort, alloc: Global, engine: &Engine, view: &View) -> String {
    let numbers = look::<Brand>(rt, alloc, engine, view, Blank::new(1));
    ids_of(rt, alloc, engine, numbers.as_slice())
}

/// A table and a view of it, and the ids of the labels that the view shows.
struct Views;

impl Table for Views {
    const LINES: &'static str = "\
A 1000 0 0 1000 500,-5,512,5 | 2520 0 2 2 3 => A
A 0 0 0 1000 -10,-5,10,5 / B 400 0 0 1000 -10,-5,10,5 | 200 0 1024 768 39/2 => AB
A 0 0 0 1000 -10,-5,10,5 / B 400 0 0 1000 -10,-5,10,5 | 200 0 1024 768 20 => A
A 0 0 0 1000 -10,-5,10,5 | 10 0 2 2 1 => A
A 0 0 0 1000 -10,-5,10,5 | 11 0 2 2 1 => ";

    fn told(rt: &impl Abort, alloc: Global, input: &str) -> String {
        let (table, view) = first(rt, input);
        let view = view_of(rt, alloc, view);
        let engine = engine_of(rt, alloc, table);
        ids_shown(rt, alloc, &engine, &view)
    }
}

#[test]
fn views_show_labels_by_their_cells(rt: HostRuntime) {
    hold::<Views>(&rt, rt.alloc())
}
