//! Slots that are checked.
ghost use Rattle.std.specs.Prelude.{◌≡◌, ◌≤◌, IfOk, IfErr};
ghost use Rattle.ml_io.specs.Files.{seen};
ghost use Rattle.ml_command.specs.Answers.{IsVerdictTold};
ghost use Rattle.ml_command.specs.Inputs.{IsCheckStop, Keeps};

use crate::inputs::{load_slots, load_table};
use crate::stop::Stop;
use crate::verdict_text::verdict_line;
use ml_cert::Verdict;
use ml_io::Files;
use ml_ratio::Seq;
use std::alloc::Global;

/// The verdict on the slots that a file gives to a table's labels, and its line.
///
/// # Errors
/// As [`load_table`] and then [`load_slots`].
pub fn check<F: Files>(
    alloc: Global,
    files: &mut F,
    table: &str,
    slots: &str,
) -> Result<(Verdict, Seq<u8>), Stop>
    ensures ok { IfOk result
        (λ answer. IsVerdictTold (F.told files.old) table.now slots.now answer.0 answer.1) }
    ensures stop { IfErr result
        (IsCheckStop (seen F.told F.faults F.failed_name files.old files.new) table.now slots.now) }
    ensures same { F.told files.new ≡ F.told files.old }
    ensures kept { Keeps (seen F.told F.faults F.failed_name files.old files.new) result }
    ensures later { F.faults files.old ≤ F.faults files.new }
{
    let labels = load_table(alloc, files, table)?;
    let given = load_slots(alloc, files, slots, labels.as_slice())?;
    let verdict = ml_cert::check(labels.as_slice(), given.as_slice());
    let line = verdict_line(alloc, labels.as_slice(), verdict)?;
    Ok((verdict, Seq::of_vec(line.into_bytes())))
}
