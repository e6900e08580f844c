//! The program, over the objects that it works on.
ghost use Rattle.std.specs.Prelude.{◌≡◌, ◌≤◌, None, false, true, drop, map, string_bytes, IfOk, OnErr};
ghost use Rattle.std.specs.Process.{exit_status};
ghost use Rattle.ml_io.specs.Files.{seen};
ghost use Rattle.ml_io.specs.Calls.{put, taken, passed, link_ends};
ghost use Rattle.maplabel.specs.Program.{IsProgram, IsTelling, AreWatchers};
ghost use Rattle.maplabel.specs.Run.{lending};

use crate::run::run;
use ml_command::read_command;
use ml_io::{Door, Files, Sink, Source};
use ml_watch::{Crowd, LineWatcher, Watcher};
use std::alloc::{AllocError, Global};
use std::process::ExitCode;

/// The words behind the program's name, which is the first of these values.
pub fn words_of(values: &[String]) -> &[String]
    ensures { result.now ≡ drop 1 values.now }
{
    match values {
        [_name, words @ ..] => words,
        [] => &[],
    }
}

/// Runs the words over these objects, and gives what the process ends with: the code of the status of
/// the run.
pub fn program<F: Files, S: Source, K: Sink, D: Door, W: Watcher>(
    alloc: Global,
    words: &[String],
    files: &mut F,
    input: &mut S,
    out: &mut K,
    door: &mut D,
    crowd: &mut Crowd<W>,
) -> ExitCode
    requires fresh { D.at_port door.old ≡ None }
    requires out { D.is_out door.old ≡ false }
    ensures end { IsProgram
        (record {
          files = seen F.told F.faults F.failed_name files.old files.new;
          out = put K.written K.faults out.old out.new;
          input = taken S.left S.faults input.old input.new;
          door = passed D.coming D.served D.faults D.at_port D.listens door.old door.new;
          old = lending input.old door.old crowd.old;
          new = lending input.new door.new crowd.new;
          hearing = W.hearing;
          ends = link_ends D.In.left D.In.faults D.Out.written D.Out.faults;
        })
        (map string_bytes words.now) (exit_status result) }
    ensures same { F.told files.new ≡ F.told files.old }
    ensures later { (F.faults files.old ≤ F.faults files.new)
        × (K.faults out.old ≤ K.faults out.new)
        × (S.faults input.old ≤ S.faults input.new) × (D.faults door.old ≤ D.faults door.new) }
    ensures out { D.is_out door.new ≡ false }
{
    let status = run(alloc, words, files, input, out, door, crowd);
    ExitCode::from(status.code())
}

/// Who is told what changes: a line for each change into this sink, where the words ask for a command
/// that tells; else nobody.
///
/// # Errors
/// Out of memory, where the words ask for a command that tells.
pub fn watchers_of<E: Sink + Drop>(
    alloc: Global,
    words: &[String],
    errors: E,
) -> Result<Crowd<LineWatcher<E>>, AllocError>
    ensures ok { IfOk result (AreWatchers (map string_bytes words.now) errors) }
    ensures err { OnErr result (IsTelling (map string_bytes words.now) true) }
{
    let mut watchers = Vec::new(alloc);
    if are_told(words) {
        watchers.push(LineWatcher::new(errors))?;
    }
    Ok(Crowd::new(watchers))
}

// Whether the words ask for a command that tells what changes.
fn are_told(words: &[String]) -> bool
    ensures { IsTelling (map string_bytes words.now) result }
{
    match read_command(words) {
        Some(command) => command.tells_changes(),
        None => false,
    }
}
