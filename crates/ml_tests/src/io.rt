//! What no clause says: that calls succeed with ample memory, and what the system does.
use crate::cases::{Table, first, hold, number};
use ml_io::{CalmFiles, CalmSink, Files, MemFiles, MemSink, RealFiles, RealOutput, Sink, put_all};
use ml_ratio::Text;
use std::alloc::Global;
use std::io::Write;
use std::process::Abort;
use std::{fs, io, rt};

/// What a sink answers to some bytes: how many of them it takes, or `failed`.
fn put_told<K: Sink>(rt: &impl Abort, alloc: Global, sink: &mut K, text: &str) -> String {
    match sink.put(text.as_bytes()) {
        Ok(count) => count.to_string(alloc).expect(rt, "memory"),
        Err(_failed) => "failed".to_string(alloc).expect(rt, "memory"),
    }
}

/// What a sink answers to one step: `put TEXT` puts some of the text, `all TEXT` all of it.
fn step_told<K: Sink>(rt: &impl Abort, alloc: Global, sink: &mut K, step: &str) -> String {
    let (word, text) = step.split_once(" ").expect(rt, "a step");
    if word == "put" {
        return put_told(rt, alloc, sink, text);
    }
    let done = put_all(sink, text.as_bytes()).is_ok();
    if done { "done" } else { "failed" }
        .to_string(alloc)
        .expect(rt, "memory")
}

/// What a sink answers to each of the steps.
fn steps_told<K: Sink>(rt: &impl Abort, alloc: Global, sink: &mut K, steps: &str) -> String {
    let mut told = String::new(alloc);
    for step in steps.split(" | ") {
        told.push_str(&step_told(rt, alloc, sink, step))
            .expect(rt, "memory");
        told.push_str(", ").expect(rt, "memory");
    }
    told
}

/// The answers with the text that bytes are behind them.
fn with_bytes(rt: &impl Abort, alloc: Global, told: &str, bytes: &[u8]) -> String {
    let text = std::str::from_utf8(bytes).ok().expect(rt, "a text");
    format!(in alloc; "{told}[{text}]").expect(rt, "memory")
}

/// The sink in memory that a text writes, as its room and the call that fails.
fn sink_of(rt: &impl Abort, alloc: Global, text: &str) -> MemSink {
    let (room, fails) = text.split_once(" ").expect(rt, "two numbers");
    let room = number(rt, &[room], 0) as usize;
    let fails = number(rt, &[fails], 0);
    MemSink::new(alloc, room, vec![in alloc; fails; 1].expect(rt, "memory")).expect(rt, "memory")
}

/// The room of a sink in memory, the call that fails, and steps; what the sink answers, and the bytes
/// that it keeps. Three bytes are too many where two fit.
struct MemSinks;

impl Table for MemSinks {
    const LINES: &'static str = "\
5 2 | put abc | put def | put  | all de | all  | all f => 3, failed, failed, done, done, failed, [abcde]
10 0 | all ab => failed, []
10 0 | all ab | all ab => failed, done, [ab]";

    fn told(rt: &impl Abort, alloc: Global, input: &str) -> String {
        let (words, steps) = first(rt, input);
        let mut sink = sink_of(rt, alloc, words);
        let told = steps_told(rt, alloc, &mut sink, steps);
        with_bytes(rt, alloc, &told, sink.bytes())
    }
}

#[test]
fn a_sink_in_memory_keeps_what_it_takes(rt: HostRuntime) {
    hold::<MemSinks>(&rt, rt.alloc())
}

/// Steps, and what a calm sink answers and counts.
struct CalmSinks;

impl Table for CalmSinks {
    const LINES: &'static str = "\
all abc | put de => done, 2, 5";

    fn told(rt: &impl Abort, alloc: Global, input: &str) -> String {
        let mut sink = CalmSink::new();
        let told = steps_told(rt, alloc, &mut sink, input);
        format!(in alloc; "{told}{}", sink.count()).expect(rt, "memory")
    }
}

#[test]
fn a_calm_sink_counts(rt: HostRuntime) {
    hold::<CalmSinks>(&rt, rt.alloc())
}

/// A writer that takes two bytes a call, and fails once it has `room` bytes.
#[derive(Drop)]
struct Narrow {
    bytes: Vec<u8>,
    room: usize,
}

impl Write for Narrow {
    fn write(&mut self, buf: &[u8]) -> io::Result<usize> {
        if self.bytes.len() >= self.room {
            return Err(io::ErrorKind::WriteZero.into());
        }
        let count = buf.len().min(2);
        self.bytes.extend_from_slice(&buf[..count])?;
        Ok(count)
    }

    fn flush(&mut self) -> io::Result<()> {
        Ok(())
    }
}

/// Steps, what output to a writer that takes few bytes at a time answers, and the bytes that it took.
struct NarrowOutputs;

impl Table for NarrowOutputs {
    const LINES: &'static str = "\
all abcde | put fg | put h | all h => done, 2, failed, failed, [abcdefg]";

    fn told(rt: &impl Abort, alloc: Global, input: &str) -> String {
        let bytes = Vec::new(alloc);
        let mut writer = Narrow { bytes, room: 6 };
        let told = steps_told(rt, alloc, &mut RealOutput::new(&mut writer), input);
        with_bytes(rt, alloc, &told, &writer.bytes)
    }
}

#[test]
fn output_goes_out_piece_by_piece(rt: HostRuntime) {
    hold::<NarrowOutputs>(&rt, rt.alloc())
}

/// Steps, and what output to two bytes answers.
struct FullOutputs;

impl Table for FullOutputs {
    const LINES: &'static str = "\
all ab | put  | all c => done, 0, failed, ";

    fn told(rt: &impl Abort, alloc: Global, input: &str) -> String {
        let mut full = [0u8; 2];
        steps_told(rt, alloc, &mut RealOutput::new(full.as_mut_slice()), input)
    }
}

#[test]
fn a_writer_that_takes_nothing_is_a_fault(rt: HostRuntime) {
    hold::<FullOutputs>(&rt, rt.alloc())
}

/// A file with a name and bytes.
fn file_of(rt: &impl Abort, alloc: Global, name: &str, bytes: &[u8]) -> (Text, Vec<u8>) {
    let name = Text::of(alloc, name).expect(rt, "memory");
    (name, Vec::from_slice(alloc, bytes).expect(rt, "memory"))
}

/// The files `a` with `abc`, `b` without bytes, and a second `a`, which does not count.
fn some_files(rt: &impl Abort, alloc: Global) -> Vec<(Text, Vec<u8>)> {
    let mut files = Vec::new(alloc);
    files
        .push(file_of(rt, alloc, "a", b"abc"))
        .expect(rt, "memory");
    files
        .push(file_of(rt, alloc, "b", b""))
        .expect(rt, "memory");
    files
        .push(file_of(rt, alloc, "a", b"x"))
        .expect(rt, "memory");
    files
}

/// The text of a file that is loaded as a text says, as `NAME LIMIT`, or why it is not.
fn load_told<F: Files>(rt: &impl Abort, alloc: Global, files: &mut F, load: &str) -> String {
    let (name, limit) = load.rsplit_once(" ").expect(rt, "a name and a limit");
    let limit = number(rt, &[limit], 0);
    match files.load(alloc, name, limit) {
        Ok(bytes) => String::from_utf8(bytes).ok().expect(rt, "a text"),
        Err(fault) => format!(in alloc; "{fault:?}").expect(rt, "memory"),
    }
}

/// A text, and the name of the last load that failed, with `-` for none.
fn with_name(rt: &impl Abort, alloc: Global, told: &str, name: Option<&Text>) -> String {
    let name = match name {
        Some(name) => name.as_str(),
        None => "-",
    };
    format!(in alloc; "{told} {name}, ").expect(rt, "memory")
}

/// Files that are loaded in this order, and the text of each, or why it is not loaded, with the name of
/// the last load that failed. The load after four others is to fail.
struct MemLoads;

impl Table for MemLoads {
    const LINES: &'static str = "\
a 3 | a 2 | c 9 | b 0 | a 9 | a 9 => abc -, TooLong -, Failed c,  c, Failed a, abc a, ";

    fn told(rt: &impl Abort, alloc: Global, input: &str) -> String {
        let mut files = MemFiles::new(
            some_files(rt, alloc),
            vec![in alloc; 4].expect(rt, "memory"),
        );
        let mut told = String::new(alloc);
        for load in input.split(" | ") {
            let text = load_told(rt, alloc, &mut files, load);
            told.push_str(&with_name(rt, alloc, &text, files.failed_name()))
                .expect(rt, "memory");
        }
        told
    }
}

#[test]
fn files_in_memory_are_loaded(rt: HostRuntime) {
    hold::<MemLoads>(&rt, rt.alloc())
}

/// Files that are loaded, and the text of each, or why it is not loaded. Each name is there.
struct CalmLoads;

impl Table for CalmLoads {
    const LINES: &'static str = "\
a 3 | a 2 | c 0 => abc, TooLong, , ";

    fn told(rt: &impl Abort, alloc: Global, input: &str) -> String {
        let mut files = CalmFiles::new(some_files(rt, alloc));
        let mut told = String::new(alloc);
        for load in input.split(" | ") {
            told.push_str(&load_told(rt, alloc, &mut files, load))
                .expect(rt, "memory");
            told.push_str(", ").expect(rt, "memory");
        }
        told
    }
}

#[test]
fn calm_files_have_every_name(rt: HostRuntime) {
    hold::<CalmLoads>(&rt, rt.alloc())
}

/// What loads of real files give, with the name of the last load that failed.
fn real_told<R: rt::Files>(
    rt: &impl Abort,
    alloc: Global,
    files: &mut RealFiles<R>,
    loads: &str,
) -> String {
    let mut told = String::new(alloc);
    for load in loads.split(" | ") {
        let text = load_told(rt, alloc, files, load);
        told.push_str(&with_name(rt, alloc, &text, files.failed_name()))
            .expect(rt, "memory");
    }
    told
}

/// Whether a file is loaded with these bytes.
fn is_loaded<F: Files>(alloc: Global, files: &mut F, name: &str, bytes: &[u8]) -> bool {
    match files.load(alloc, name, 20000) {
        Ok(loaded) => loaded.as_slice() == bytes,
        Err(_fault) => false,
    }
}

#[test]
fn real_files_are_read_to_their_end(rt: HostRuntime) {
    let alloc = rt.alloc();
    let bytes = vec![in alloc; 7u8; 20000].expect(&rt, "memory");
    fs::write(&rt, "real_files.bin", bytes.as_slice()).expect(&rt, "a file that is written");
    let mut files = RealFiles::new(&rt);
    assert!(rt; is_loaded(alloc, &mut files, "real_files.bin", bytes.as_slice()));
    let told = real_told(&rt, alloc, &mut files, "real_files.bin 19999");
    assert!(rt; told.as_str() == "TooLong -, ");
    fs::remove_file(&rt, "real_files.bin").expect(&rt, "a file that is removed");
}

#[test]
fn what_has_no_end_or_is_gone_or_a_folder_is_refused(rt: HostRuntime) {
    fs::write(&rt, "gone_file.bin", b"abc").expect(&rt, "a file that is written");
    fs::remove_file(&rt, "gone_file.bin").expect(&rt, "a file that is removed");
    let mut files = RealFiles::new(&rt);
    let told = real_told(
        &rt,
        rt.alloc(),
        &mut files,
        "/dev/zero 10 | gone_file.bin 9 | . 20000",
    );
    assert!(rt; told.as_str() == "TooLong -, Failed gone_file.bin, Failed ., ");
}

#[test]
fn a_name_is_taken_with_its_blanks(rt: HostRuntime) {
    fs::write(&rt, " blanks ", b"abc").expect(&rt, "a file that is written");
    let mut files = RealFiles::new(&rt);
    let told = real_told(&rt, rt.alloc(), &mut files, " blanks  3 | blanks 3");
    assert!(rt; told.as_str() == "abc -, Failed blanks, ");
    fs::remove_file(&rt, " blanks ").expect(&rt, "a file that is removed");
}
