//! Runs of the top call over files and sinks in memory, worked out by hand. A case is a line
//! `input => answer`: what the files hold and the words, and the exit code with what is printed.
ghost use Rattle.std.specs.Prelude.{◌≡◌, None, false};

use crate::program::{self, watchers_of};
use crate::run::run;
use crate::start::start;
use crate::status::Status;
use ml_io::{CalmFiles, CalmSink, Door, Files, MemDoor, MemFiles, MemSink, MemSource, Sink};
use ml_ratio::Text;
use ml_watch::{Crowd, MemWatcher};
use std::alloc::Global;
use std::io;
use std::process::{Abort, ExitCode};

/// What a table of cases is about.
pub(crate) trait Subject {
    /// Whether an input has the answer that is wanted.
    fn holds(rt: &impl Abort, alloc: Global, input: &str, want: &str) -> bool;
}

/// Whether a case holds, a line `input => answer`.
fn case_holds<S: Subject>(rt: &impl Abort, alloc: Global, line: &str) -> bool {
    let (input, want) = line.split_once(" => ").expect(rt, "a case");
    S::holds(rt, alloc, input, want)
}

/// Each case of a table holds.
pub(crate) fn each_holds<S: Subject>(rt: &impl Abort, alloc: Global, table: &str) {
    for line in table.lines() {
        assert!(rt; case_holds::<S>(rt, alloc, line), "{line}");
    }
}

/// The words of a line, cut at its spaces.
fn words_of(rt: &impl Abort, alloc: Global, line: &str) -> Vec<String> {
    let mut words = Vec::new(alloc);
    for word in line.split(' ') {
        words
            .push(String::from_str(alloc, word).expect(rt, "memory"))
            .expect(rt, "memory");
    }
    words
}

/// Names with bytes.
fn files_of(rt: &impl Abort, alloc: Global, texts: &[(&str, &str)]) -> Vec<(Text, Vec<u8>)> {
    let mut files = Vec::new(alloc);
    for (name, text) in texts {
        let bytes = Vec::from_slice(alloc, text.as_bytes()).expect(rt, "memory");
        files
            .push((Text::of(alloc, name).expect(rt, "memory"), bytes))
            .expect(rt, "memory");
    }
    files
}

/// What a run reads and writes, and who is told what changes.
#[derive(Drop)]
pub(crate) struct Outside {
    pub(crate) files: MemFiles,
    pub(crate) input: MemSource,
    pub(crate) out: MemSink,
    pub(crate) crowd: Crowd<MemWatcher>,
}

/// These files, of which the listed loads fail, no input, room for what is printed, and no watchers.
fn failing_files(
    rt: &impl Abort,
    alloc: Global,
    texts: &[(&str, &str)],
    fails: Vec<u64>,
) -> Outside {
    Outside {
        files: MemFiles::new(files_of(rt, alloc, texts), fails),
        input: MemSource::new(Vec::new(alloc), 1, Vec::new(alloc)),
        out: MemSink::new(alloc, 65536, Vec::new(alloc)).expect(rt, "memory"),
        crowd: Crowd::new(Vec::new(alloc)),
    }
}

/// These files, none of whose loads fail.
pub(crate) fn outside_of(rt: &impl Abort, alloc: Global, texts: &[(&str, &str)]) -> Outside {
    failing_files(rt, alloc, texts, Vec::new(alloc))
}

/// Runs the words of a line at a door.
pub(crate) fn run_at<D: Door>(
    rt: &impl Abort,
    alloc: Global,
    outside: &mut Outside,
    door: &mut D,
    line: &str,
) -> Status
    requires fresh { D.at_port door.old ≡ None }
    requires out { D.is_out door.old ≡ false }
{
    let words = words_of(rt, alloc, line);
    run(
        alloc,
        &words,
        &mut outside.files,
        &mut outside.input,
        &mut outside.out,
        door,
        &mut outside.crowd,
    )
}

/// Runs the words of a line at a door to which no connection comes.
pub(crate) fn run_alone(
    rt: &impl Abort,
    alloc: Global,
    outside: &mut Outside,
    line: &str,
) -> Status {
    let mut door = MemDoor::new(alloc, Vec::new(alloc), Vec::new(alloc)).expect(rt, "memory");
    run_at(rt, alloc, outside, &mut door, line)
}

/// What was printed, with `¶` for each line feed, behind the exit code.
pub(crate) fn told(rt: &impl Abort, alloc: Global, status: Status, out: &MemSink) -> String {
    let printed = std::str::from_utf8(out.bytes()).expect(rt, "a text");
    let printed = printed.replace(alloc, "\n", "¶").expect(rt, "memory");
    let code = status.code();
    format!(in alloc; "{code} {printed}").expect(rt, "memory")
}

/// What a run over these files prints, with `¶` for each line feed, behind its exit code.
pub(crate) fn run_told(
    rt: &impl Abort,
    alloc: Global,
    texts: &[(&str, &str)],
    line: &str,
) -> String {
    let mut outside = outside_of(rt, alloc, texts);
    let status = run_alone(rt, alloc, &mut outside, line);
    told(rt, alloc, status, &outside.out)
}

const TWO: &str = "A 0 0 0 1000 -10,-5,10,5\nB 400 0 0 1000 -10,-5,10,5\n";

/// The table `t`, the slots `s` and the words; the exit code and what is printed. `¶` stands for a line
/// feed, `↵` for a carriage return.
const TABLE_RUNS: &str = r#"||show t 0 0 1024 768 1/1 => 0 {"labels":[],"scale":"1/1"}¶
||show t 0 0 1024 768 38/4 => 0 {"labels":[],"scale":"19/2"}¶
A 0 0 0 1000 -10,-5,10,5¶B 400 0 0 1000 -10,-5,10,5¶||show t 200 0 1024 768 19/1 => 0 {"labels":[{"at":[0,0],"boxes":[[-10,-5,10,5]],"id":"A","text":"A","until":"1000/1"},{"at":[400,0],"boxes":[[-10,-5,10,5]],"id":"B","text":"B","until":"20/1"}],"scale":"19/1"}¶
A 0 0 0 1000 -10,-5,10,5¶B 400 0 0 1000 -10,-5,10,5¶||show t 200 0 1024 768 39/2 => 0 {"labels":[{"at":[0,0],"boxes":[[-10,-5,10,5]],"id":"A","text":"A","until":"1000/1"},{"at":[400,0],"boxes":[[-10,-5,10,5]],"id":"B","text":"B","until":"20/1"}],"scale":"39/2"}¶
A 0 0 0 1000 -10,-5,10,5¶B 400 0 0 1000 -10,-5,10,5¶||show t 200 0 1024 768 20/1 => 0 {"labels":[{"at":[0,0],"boxes":[[-10,-5,10,5]],"id":"A","text":"A","until":"1000/1"}],"scale":"20/1"}¶
A 0 0 0 1000 -10,-5,10,5¶B 400 0 0 1000 -10,-5,10,5¶||show t 10 0 2 2 1 => 0 {"labels":[{"at":[0,0],"boxes":[[-10,-5,10,5]],"id":"A","text":"A","until":"1000/1"}],"scale":"1/1"}¶
A 0 0 0 1000 -10,-5,10,5¶B 400 0 0 1000 -10,-5,10,5¶||show t 11 0 2 2 1 => 0 {"labels":[],"scale":"1/1"}¶
A 1000 0 0 1000 500,-5,512,5¶||show t 2520 0 2 2 3 => 0 {"labels":[{"at":[1000,0],"boxes":[[500,-5,512,5]],"id":"A","text":"A","until":"1000/1"}],"scale":"3/1"}¶
||slots t => 0 
A 0 0 0 1000 -10,-5,10,5¶B 400 0 0 1000 -10,-5,10,5¶||slots t => 0 A 1000/1 -¶B 20/1 A¶
A 0 0 0 1000 -10,-5,10,5¶B 400 0 0 1000 -10,-5,10,5¶C 800 0 0 1000 -10,-5,10,5¶||slots t => 0 A 1000/1 -¶B 20/1 A¶C 40/1 A¶
B 400 0 0 1000 -10,-5,10,5¶C 800 0 0 1000 -10,-5,10,5¶||slots t => 0 B 1000/1 -¶C 20/1 B¶
A -400 0 0 1000 -10,-5,10,5¶B 400 0 0 1000 -10,-5,10,5¶C 0 0 0 1000 -10,-5,10,5¶||slots t => 0 A 1000/1 -¶B 40/1 A¶C 20/1 A¶
A 0 0 0 1000 -10,-5,10,5¶B 0 0 0 1000 -10,-5,10,5¶||slots t => 0 A 1000/1 -¶B 0/1 A¶
A 0 0 0 1000 -10,-5,0,5¶B 0 0 0 1000 0,-5,10,5¶||slots t => 0 A 1000/1 -¶B 1000/1 -¶
A 0 0 50 1000 -10,-5,10,5¶B 400 0 0 1000 -10,-5,10,5¶||slots t => 0 A 1000/1 -¶B 50/1 A¶
A -1800000000 0 0 268435456 -10,-5,10,5¶B 1800000000 0 0 268435456 -10,-5,10,5¶||slots t => 0 A 268435456/1 -¶B 180000000/1 A¶
A 0 0 0 1000 10,-5,30,5¶B 100 0 0 1000 -5,-5,5,5¶||slots t => 0 A 1000/1 -¶B 20/7 A¶
A 0 0 0 1000 -10,-5,10,5¶B 400 0 0 1000 -10,-5,10,5¶||gaps t => 0 A 0/1 1000/1¶B 0/1 20/1¶
A 0 0 0 1000 -10,-5,10,5¶B 400 0 0 2000 -10,-5,10,5¶||gaps t => 0 A 0/1 1000/1¶B 1000/1 2000/1¶
A 0 0 0 1000 10,-5,30,5¶B 100 0 0 1000 -5,-5,5,5¶||gaps t => 0 A 0/1 1000/1¶B 20/1 1000/1¶
A 0 0 0 1000 10,-5,30,5¶B 100 0 0 160/7 -5,-5,5,5¶||gaps t => 0 A 0/1 1000/1¶B 0/1 20/7¶
A 0 0 5 1000 10,-5,30,5¶B 100 0 0 1000 -5,-5,5,5¶||gaps t => 0 A 5/1 1000/1¶B 20/1 1000/1¶
A 0 0 0 1000 -10,-5,10,5¶B 0 0 0 1000 -10,-5,10,5¶||gaps t => 0 A 0/1 1000/1¶B 0/1 0/1¶
||gaps t => 0 
A 0 0 0 1000 10,-5,30,5¶B 100 0 0 1000 -5,-5,5,5¶||gapview t 100 0 100 100 10 => 0 {"labels":[{"at":[0,0],"boxes":[[10,-5,30,5]],"id":"A","text":"A","until":"1000/1"}],"scale":"10/1"}¶
A 0 0 0 1000 10,-5,30,5¶B 100 0 0 1000 -5,-5,5,5¶||gapview t 100 0 100 100 20 => 0 {"labels":[{"at":[0,0],"boxes":[[10,-5,30,5]],"id":"A","text":"A","until":"1000/1"},{"at":[100,0],"boxes":[[-5,-5,5,5]],"id":"B","text":"B","until":"1000/1"}],"scale":"20/1"}¶
A 0 0 0 1000 -10,-5,10,5¶B 400 0 0¶||gaps t => 4 table refused: 1 BadLine 2¶
A 0 0 0 1000 -10,-5,10,5¶B 400 0 0 1000 -10,-5,10,5¶|A 1000/1 -¶B 20/1 A¶|check t s => 0 Best¶
A 0 0 0 1000 -10,-5,10,5¶B 400 0 0 1000 -10,-5,10,5¶|↵¶A 1000 -↵¶B 40/2 A|check t s => 0 Best¶
A 0 0 0 1000 -10,-5,10,5¶B 400 0 0 1000 -10,-5,10,5¶|A 1000/1 -¶B 30/1 A¶|check t s => 1 Clash B A 20/1¶
A 0 0 0 1000 -10,-5,10,5¶B 400 0 0 1000 -10,-5,10,5¶|A 1000/1 -¶B 10/1 A¶|check t s => 1 Uncovered B¶
A 0 0 0 1000 -10,-5,10,5¶B 400 0 0 1000 -10,-5,10,5¶|A 1000/1 -¶B 20/1 -¶|check t s => 1 BadBlocker B¶
A 0 0 0 1000 -10,-5,10,5¶B 400 0 0 1000 -10,-5,10,5¶|A 1000/1 -¶B 1001/1 -¶|check t s => 1 BadEnd B¶
A 0 0 0 1000 -10,-5,10,5¶B 400 0 0 1000 -10,-5,10,5¶|A 1000/1 -¶|check t s => 4 slots refused: 1 BadLine 2¶
A 0 0 0 1000 -10,-5,10,5¶B 400 0 0 1000 -10,-5,10,5¶|B 20/1 A¶A 1000/1 -¶|check t s => 4 slots refused: 1 BadLine 1¶
A -400 0 0 1000 -10,-5,10,5¶B 400 0 0 1000 -10,-5,10,5¶C 0 0 0 1000 -10,-5,10,5¶|A 1000/1 -¶B 40/1 A¶C 20/1 A¶|check t s => 0 Best¶
A -400 0 0 1000 -10,-5,10,5¶B 400 0 0 1000 -10,-5,10,5¶C 0 0 0 1000 -10,-5,10,5¶|A 1000/1 -¶B 40/1 A¶C 20/1 B¶|check t s => 1 BadBlocker C¶
A 0 0 0 1000 -10,-5,10,5¶B 400 0 0¶||slots t => 4 table refused: 1 BadLine 2¶
A 0 0 0 1000 -10,-5,10,5¶B 400 0 0¶||show t 0 0 2 2 1 => 4 table refused: 1 BadLine 2¶
A 0 0 0 1000 -10,-5,10,5¶↵¶¶A 0 0 0 1000 -10,-5,10,5¶x||slots t => 4 table refused: 2 SameId 4¶
A 0 0 0 1000 -10,-5,10,5¶↵¶¶A 0 0 0 1000 -10,-5,10,5¶x||show t 0 0 2 2 1 => 4 table refused: 2 SameId 4¶
A 0 0 0 1000 -10,-5,10,5¶B 400 0 0 1000 -10,-5,10,5¶||slots u => 5 file fault¶
A 0 0 0 1000 -10,-5,10,5¶B 400 0 0 1000 -10,-5,10,5¶||check t u => 5 file fault¶"#;

/// The text with a line feed for each `¶` and a carriage return for each `↵`.
fn text_of(rt: &impl Abort, alloc: Global, written: &str) -> String {
    let lines = written.replace(alloc, "¶", "\n").expect(rt, "memory");
    lines.replace(alloc, "↵", "\r").expect(rt, "memory")
}

/// What the run of a table, of slots and of words prints, behind its exit code.
fn table_told(rt: &impl Abort, alloc: Global, table: &str, slots: &str, line: &str) -> String {
    let table = text_of(rt, alloc, table);
    let slots = text_of(rt, alloc, slots);
    let files = [("t", table.as_str()), ("s", slots.as_str())];
    run_told(rt, alloc, &files, line)
}

/// Runs over tables.
struct OverTable;

impl Subject for OverTable {
    fn holds(rt: &impl Abort, alloc: Global, input: &str, want: &str) -> bool {
        let (table, rest) = input.split_once("|").expect(rt, "a table");
        let (slots, line) = rest.split_once("|").expect(rt, "slots");
        table_told(rt, alloc, table, slots, line).as_str() == want
    }
}

#[test]
fn tables_are_shown_chosen_and_checked(rt: HostRuntime) {
    each_holds::<OverTable>(&rt, rt.alloc(), TABLE_RUNS)
}

/// Words that have none of the forms.
const NO_FORMS: &str = "\

show
slots
slots t t
check t
check t t t
Slots t
show t 0 0 1024 768 0
show t 0 0 1024 768 5/0
show t 0 0 1024 768 268435456
show t 0 0 1023 768 1
show t 0 0 1024 768
show t 0 0 1024 768 1 1
show t 2000000001 0 1024 768 1
show t 0 0 0 768 1
show t 0 0 1024 4098 1
--help
view s m 0 0 1023 768 1
view s m 0 0 1024 768 0
view s m 0 0 1024 768
view s m 0 0 1024 768 1 1
View s m 0 0 1024 768 1
show s m 0 0 1024 768 1
gaps
gaps t t
gapview t 0 0 1023 768 1
gapview t 0 0 1024 768
zoom s m 0 0 100
zoom s m 0 0 100 100 1
zoom s m 0 0 101 100
zoom s m 2000000001 0 100 100
zoom";

/// What is printed of these, behind the exit code.
const USAGE: &str = "2 usage: maplabel show, slots, check, view, pipe, serve or gen¶";

#[test]
fn words_of_no_form_are_told_so(rt: HostRuntime) {
    for line in NO_FORMS.lines() {
        let told = run_told(&rt, rt.alloc(), &[("t", TWO)], line);
        assert!(rt; told.as_str() == USAGE, "{line}");
    }
}

/// The code of a program that is started with these values over the table `t`, and what it prints.
fn started(rt: &impl Abort, alloc: Global, values: io::Result<Vec<String>>) -> (ExitCode, MemSink) {
    let outside = outside_of(rt, alloc, &[("t", TWO)]);
    let Outside {
        mut files,
        mut input,
        mut out,
        crowd: _,
    } = outside;
    let errors = MemSink::new(alloc, 64, Vec::new(alloc)).expect(rt, "memory");
    let mut door = MemDoor::new(alloc, Vec::new(alloc), Vec::new(alloc)).expect(rt, "memory");
    let code = start(
        alloc, values, errors, &mut files, &mut input, &mut out, &mut door,
    );
    (code, out)
}

#[test]
fn a_program_runs_the_words_behind_its_name(rt: HostRuntime) {
    let values = words_of(&rt, rt.alloc(), "maplabel slots t");
    let (code, out) = started(&rt, rt.alloc(), Ok(values));
    assert!(rt; code == ExitCode::from(0));
    assert!(rt; out.bytes() == b"A 1000/1 -\nB 20/1 A\n".as_slice());
}

#[test]
fn values_that_are_no_text_are_no_words(rt: HostRuntime) {
    let error = io::Error::from(io::ErrorKind::InvalidData);
    let (code, out) = started(&rt, rt.alloc(), Err(error));
    assert!(rt; code == ExitCode::from(2));
    assert!(rt; out.bytes().starts_with(b"usage: "));
}

#[test]
fn without_memory_for_the_values_nothing_is_run(rt: HostRuntime) {
    let error = io::Error::from(io::ErrorKind::OutOfMemory);
    let (code, out) = started(&rt, rt.alloc(), Err(error));
    assert!(rt; code == ExitCode::from(9));
    assert!(rt; out.bytes().is_empty());
}

#[test]
fn words_stand_behind_the_name(rt: HostRuntime) {
    let values = words_of(&rt, rt.alloc(), "maplabel slots t");
    assert!(rt; program::words_of(&values).len() == 2);
    assert!(rt; program::words_of(&[]).is_empty());
}

/// Whether somebody is told what the words of the line change.
fn is_watched(rt: &impl Abort, alloc: Global, line: &str) -> bool {
    let words = words_of(rt, alloc, line);
    let errors = MemSink::new(alloc, 64, Vec::new(alloc)).expect(rt, "memory");
    let crowd = watchers_of(alloc, &words, errors).expect(rt, "memory");
    crowd.heard(0).is_some()
}

#[test]
fn commands_that_change_maps_are_watched(rt: HostRuntime) {
    assert!(rt; is_watched(&rt, rt.alloc(), "follow s"));
    assert!(rt; is_watched(&rt, rt.alloc(), "pipe s m"));
    assert!(rt; !is_watched(&rt, rt.alloc(), "slots t"));
    assert!(rt; !is_watched(&rt, rt.alloc(), "follow"));
}

/// A table of one label more than a table may hold.
fn long_table(rt: &impl Abort, alloc: Global) -> String {
    let mut table = String::new(alloc);
    for i in 0..32_769 {
        table
            .push_str(
                format!(in alloc; "L{i} 0 0 0 1 0,0,1,1\n")
                    .expect(rt, "memory")
                    .as_str(),
            )
            .expect(rt, "memory");
    }
    table
}

#[test]
fn a_table_is_full(rt: HostRuntime) {
    let table = long_table(&rt, rt.alloc());
    let told = run_told(&rt, rt.alloc(), &[("t", table.as_str())], "slots t");
    assert!(rt; told.as_str() == "4 table refused: 3 Full¶");
}

/// A file `t` of so many line feeds.
fn line_feeds(rt: &impl Abort, alloc: Global, count: usize) -> Vec<(Text, Vec<u8>)> {
    let mut files = Vec::new(alloc);
    let bytes = vec![in alloc; b'\n'; count].expect(rt, "memory");
    files
        .push((Text::of(alloc, "t").expect(rt, "memory"), bytes))
        .expect(rt, "memory");
    files
}

/// The status of a run over a file of so many line feeds.
fn status_over(rt: &impl Abort, alloc: Global, count: usize, line: &str) -> Status {
    let mut outside = outside_of(rt, alloc, &[]);
    outside.files = MemFiles::new(line_feeds(rt, alloc, count), Vec::new(alloc));
    run_alone(rt, alloc, &mut outside, line)
}

/// The status of a run over an empty file, whose first load fails.
fn status_of_fault(rt: &impl Abort, alloc: Global, line: &str) -> Status {
    let mut outside = failing_files(
        rt,
        alloc,
        &[("t", "")],
        vec![in alloc; 0].expect(rt, "memory"),
    );
    run_alone(rt, alloc, &mut outside, line)
}

#[test]
fn files_that_fail_or_are_too_long(rt: HostRuntime) {
    for line in ["slots t", "view t m 0 0 1024 768 1"] {
        assert!(rt;
            status_over(&rt, rt.alloc(), 67_108_865, line) == Status::TooLong,
            "{line}"
        );
        assert!(rt;
            status_of_fault(&rt, rt.alloc(), line) == Status::FileFault,
            "{line}"
        );
    }
}

/// Whether a run to a sink whose first call fails ends so, with nothing printed.
fn is_unprinted(rt: &impl Abort, alloc: Global, line: &str) -> bool {
    let mut outside = outside_of(rt, alloc, &[("t", TWO)]);
    outside.out = MemSink::new(alloc, 1000, vec![in alloc; 0].expect(rt, "memory")).expect(
        rt, "memory",
    );
    let status = run_alone(rt, alloc, &mut outside, line);
    status == Status::WriteFault && outside.out.bytes().is_empty()
}

#[test]
fn sinks_that_fail(rt: HostRuntime) {
    for line in ["show t 0 0 1024 768 1/1", "slots t", "slots u", "none"] {
        assert!(rt; is_unprinted(&rt, rt.alloc(), line), "{line}");
    }
}

/// The status of `slots t` over files and a sink.
fn slots_status<F: Files, K: Sink>(
    rt: &impl Abort,
    alloc: Global,
    files: &mut F,
    out: &mut K,
) -> Status {
    let words = words_of(rt, alloc, "slots t");
    let mut input = MemSource::new(Vec::new(alloc), 1, Vec::new(alloc));
    let mut door = MemDoor::new(alloc, Vec::new(alloc), Vec::new(alloc)).expect(rt, "memory");
    let mut crowd: Crowd<MemWatcher> = Crowd::new(Vec::new(alloc));
    run(alloc, &words, files, &mut input, out, &mut door, &mut crowd)
}

#[test]
fn calm_things_do_not_fail(rt: HostRuntime) {
    let mut files = CalmFiles::new(files_of(&rt, rt.alloc(), &[("t", TWO)]));
    let mut out = CalmSink::new();
    assert!(rt; slots_status(&rt, rt.alloc(), &mut files, &mut out) == Status::Done);
    assert!(rt; out.count() == 20);
}

/// Each status with its code.
const CODES: [(Status, u8); 12] = [
    (Status::Done, 0),
    (Status::NotBest, 1),
    (Status::Usage, 2),
    (Status::StyleRefused, 3),
    (Status::InputRefused, 4),
    (Status::FileFault, 5),
    (Status::ReadFault, 6),
    (Status::WriteFault, 7),
    (Status::DoorFault, 8),
    (Status::Memory, 9),
    (Status::TooLong, 10),
    (Status::NotAdopted, 11),
];

#[test]
fn statuses_have_these_codes(rt: HostRuntime) {
    for (status, code) in CODES {
        assert!(rt; status.code() == code, "{status:?}");
    }
}
