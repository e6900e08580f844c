//! What is asked of a table.
ghost use Rattle.std.specs.Prelude.{◌≡◌, ◌≤◌, IfOk, IfErr, length};
ghost use Rattle.ml_ratio.specs.Limits.{most_labels};
ghost use Rattle.ml_io.specs.Files.{seen};
ghost use Rattle.ml_command.specs.Answers.{IsTableText, IsTableAnswer};
ghost use Rattle.ml_command.specs.Inputs.{IsTableStop, Keeps};

use crate::choice::{line_of, slots_of};
use crate::command::TableTask;
use crate::gap_lines::{gap_line_of, gaps_of};
use crate::inputs::load_table;
use crate::stop::Stop;
use ml_cone::Label;
use ml_io::Files;
use ml_ratio::Seq;
use std::alloc::{AllocError, Global};

/// The text that is asked of the labels of the table of this name.
///
/// # Errors
/// As [`load_table`].
pub fn on_table<F: Files>(
    alloc: Global,
    files: &mut F,
    table: &str,
    task: TableTask,
) -> Result<Seq<u8>, Stop>
    ensures ok { IfOk result (IsTableAnswer (F.told files.old) table.now task) }
    ensures stop { IfErr result
        (IsTableStop (seen F.told F.faults F.failed_name files.old files.new) table.now) }
    ensures same { F.told files.new ≡ F.told files.old }
    ensures kept { Keeps (seen F.told F.faults F.failed_name files.old files.new) result }
    ensures later { F.faults files.old ≤ F.faults files.new }
{
    let labels = load_table(alloc, files, table)?;
    let text = table_text(alloc, labels.as_slice(), task)?;
    Ok(text)
}

// The text that is asked of labels.
fn table_text(alloc: Global, labels: &[Label], task: TableTask) -> Result<Seq<u8>, AllocError>
    requires few { length labels.now ≤ most_labels }
    ensures { IfOk result (IsTableText labels.now task) }
{
    match task {
        TableTask::Show(view) => line_of(alloc, labels, &view),
        TableTask::Slots => slots_of(alloc, labels),
        TableTask::Gaps => gaps_of(alloc, labels),
        TableTask::GapView(view) => gap_line_of(alloc, labels, &view),
    }
}
