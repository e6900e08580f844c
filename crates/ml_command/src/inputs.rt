//! The inputs of a command, loaded and read.
ghost use Rattle.std.specs.Prelude.{◌≡◌, ◌≤◌, length, IfOk, IfErr, MatchResult, string_bytes};
ghost use Rattle.ml_ratio.specs.Limits.{most_labels};
ghost use Rattle.ml_io.specs.Files.{IsLoaded, seen};
ghost use Rattle.ml_command.specs.declared.stop.Stop.TheVariants as stop;
ghost use Rattle.ml_command.specs.Inputs.{most_bytes, Keeps, HasTable, IsLoadStop, IsTableStop, IsTableLine, IsInputRefusal, HasSlots, IsSlotsStop, IsSlotsLine};

use crate::stop::Stop;
use ml_cert::{SlotsFault, read_slots};
use ml_cone::{Label, Slot};
use ml_io::{FileFault, Files};
use ml_pass::{TableFault, read_table};
use ml_ratio::Seq;
use std::alloc::{AllocError, Global};

// How many bytes a file may have: 64 MiB.
const MOST_BYTES: u64 = 67_108_864;

/// The labels of the table of this name.
///
/// # Errors
/// `FileFault` and `TooLong` where its file is not loaded; `InputRefused` where it is no table; `Memory`.
pub fn load_table<F: Files>(alloc: Global, files: &mut F, name: &str) -> Result<Seq<Label>, Stop>
    ensures ok { IfOk result (λ labels. HasTable (F.told files.old) name.now labels) }
    ensures stop { IfErr result
        (IsTableStop (seen F.told F.faults F.failed_name files.old files.new) name.now) }
    ensures same { F.told files.new ≡ F.told files.old }
    ensures kept { Keeps (seen F.told F.faults F.failed_name files.old files.new) result }
    ensures later { F.faults files.old ≤ F.faults files.new }
{
    let bytes = load(alloc, files, name)?;
    match read_table(alloc, &bytes) {
        Ok(labels) => Ok(labels),
        Err(fault) => Err(table_refusal(alloc, fault)),
    }
}

/// The slots that the file of this name gives to the labels.
///
/// # Errors
/// `FileFault` and `TooLong` where the file is not loaded; `InputRefused` where it has no slots for these
/// labels; `Memory`.
pub fn load_slots<F: Files>(
    alloc: Global,
    files: &mut F,
    name: &str,
    labels: &[Label],
) -> Result<Seq<Slot>, Stop>
    requires { length labels.now ≤ most_labels }
    ensures ok { IfOk result (λ slots. HasSlots (F.told files.old) labels.now name.now slots) }
    ensures stop { IfErr result
        (IsSlotsStop (seen F.told F.faults F.failed_name files.old files.new) labels.now name.now) }
    ensures same { F.told files.new ≡ F.told files.old }
    ensures kept { Keeps (seen F.told F.faults F.failed_name files.old files.new) result }
    ensures later { F.faults files.old ≤ F.faults files.new }
{
    let bytes = load(alloc, files, name)?;
    match read_slots(alloc, labels, &bytes) {
        Ok(slots) => Ok(slots),
        Err(fault) => Err(slots_refusal(alloc, fault)),
    }
}

/// The bytes of the file of this name.
///
/// # Errors
/// `FileFault`, `TooLong`, `Memory`.
pub fn load<F: Files>(alloc: Global, files: &mut F, name: &str) -> Result<Vec<u8>, Stop>
    ensures ok { IfOk result
        (λ bytes. IsLoaded (F.told files.old) name.now most_bytes bytes.items) }
    ensures stop { IfErr result
        (IsLoadStop (seen F.told F.faults F.failed_name files.old files.new) name.now) }
    ensures same { F.told files.new ≡ F.told files.old }
    ensures kept { Keeps (seen F.told F.faults F.failed_name files.old files.new) result }
    ensures later { F.faults files.old ≤ F.faults files.new }
{
    match files.load(alloc, name, MOST_BYTES) {
        Ok(bytes) => Ok(bytes),
        Err(FileFault::Failed) => Err(Stop::FileFault),
        Err(FileFault::TooLong) => Err(Stop::TooLong),
        Err(FileFault::Memory) => Err(Stop::Memory),
    }
}

// Why a table is refused, as a line.
fn table_refusal(alloc: Global, fault: TableFault) -> Stop
    ensures { IsInputRefusal (IsTableLine fault) result }
{
    match fault {
        TableFault::BadLine(k) => input_refusal(format!(in alloc;
            "table refused: 1 BadLine {k}\n"
        )),
        TableFault::SameId(k) => input_refusal(format!(in alloc; "table refused: 2 SameId {k}\n")),
        TableFault::Full => input_refusal(format!(in alloc; "table refused: 3 Full\n")),
        TableFault::Memory => Stop::Memory,
    }
}

// Why slots are refused, as a line.
fn slots_refusal(alloc: Global, fault: SlotsFault) -> Stop
    ensures { IsInputRefusal (IsSlotsLine fault) result }
{
    match fault {
        SlotsFault::BadLine(k) => input_refusal(format!(in alloc;
            "slots refused: 1 BadLine {k}\n"
        )),
        SlotsFault::Memory => Stop::Memory,
    }
}

/// The line that refuses an input, if there was memory for it.
pub fn input_refusal(line: Result<String, AllocError>) -> Stop
    ensures { MatchResult line (λ line. result ≡ stop.InputRefused (string_bytes line))
        (λ _. result ≡ stop.Memory) }
{
    match line {
        Ok(line) => Stop::InputRefused(Seq::of_vec(line.into_bytes())),
        Err(_error) => Stop::Memory,
    }
}
