//! Tables of cases.
use std::alloc::Global;
use std::process::Abort;

/// What a table of cases is about.
pub trait Subject {
    /// Whether an input has the answer that is wanted.
    fn holds(rt: &impl Abort, alloc: Global, input: &str, want: &str) -> bool;
}

/// Whether a case holds, a line `input => answer`.
fn case_holds<S: Subject>(rt: &impl Abort, alloc: Global, line: &str) -> bool {
    let (input, want) = line.split_once(" => ").expect(rt, "a case");
    S::holds(rt, alloc, input, want)
}

/// Each case of a table holds.
pub fn each_holds<S: Subject>(rt: &impl Abort, alloc: Global, table: &str) {
    for line in table.lines() {
        assert!(rt; case_holds::<S>(rt, alloc, line), "{line}");
    }
}

/// The text with each `~` as CR LF.
pub fn wire(rt: &impl Abort, alloc: Global, text: &str) -> String {
    text.replace(alloc, "~", "\r\n").expect(rt, "memory")
}
