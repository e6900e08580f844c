//! The whole program, over what the process was given.
ghost use Rattle.std.specs.Prelude.{◌≡◌, ◌⊎◌, ◌≤◌, List, None, false};
ghost use Rattle.std.specs.Process.{exit_status};
ghost use Rattle.ml_io.specs.Files.{seen};
ghost use Rattle.ml_io.specs.Calls.{put, taken, passed, link_ends};
ghost use Rattle.ml_watch.specs.declared.line_watcher.LineWatcher.{LineWatcher};
ghost use Rattle.maplabel.specs.Program.{IsStarted, IsNotStarted, hearing_of};
ghost use Rattle.maplabel.specs.Run.{lending};

use crate::program::{program, watchers_of, words_of};
use crate::status::Status;
use ml_io::{Door, Files, Sink, Source};
use std::alloc::Global;
use std::io;
use std::process::ExitCode;

/// Starts the program: runs the words that the process was given over these objects, and gives what the process
/// ends with. Changes are told to `errors`, where the words ask for a command that tells them.
///
/// `values` is the program's name and the words behind it, or why there are none. Where one of them is no text,
/// the program behaves as if no words were given, since such words have none of the forms. Where there is no
/// memory for the values or for the watcher, nothing is done, and the code says so.
pub fn start<E: Sink + Drop, F: Files, S: Source, K: Sink, D: Door>(
    alloc: Global,
    values: io::Result<Vec<String>>,
    errors: E,
    files: &mut F,
    input: &mut S,
    out: &mut K,
    door: &mut D,
) -> ExitCode
    requires fresh { D.at_port door.old ≡ None }
    requires out { D.is_out door.old ≡ false }
    ensures end { ((crowd : List (LineWatcher E)) × (crowd_after : List (LineWatcher E)) × IsStarted
        (record {
          files = seen F.told F.faults F.failed_name files.old files.new;
          out = put K.written K.faults out.old out.new;
          input = taken S.left S.faults input.old input.new;
          door = passed D.coming D.served D.faults D.at_port D.listens door.old door.new;
          old = lending input.old door.old crowd;
          new = lending input.new door.new crowd_after;
          hearing = hearing_of E.written;
          ends = link_ends D.In.left D.In.faults D.Out.written D.Out.faults;
        })
        values errors (exit_status result))
        ⊎ (IsNotStarted values (exit_status result) × (files.new ≡ files.old)
        × (input.new ≡ input.old) × (out.new ≡ out.old) × (door.new ≡ door.old)) }
    ensures same { F.told files.new ≡ F.told files.old }
    ensures later { (F.faults files.old ≤ F.faults files.new)
        × (K.faults out.old ≤ K.faults out.new)
        × (S.faults input.old ≤ S.faults input.new) × (D.faults door.old ≤ D.faults door.new) }
    ensures out { D.is_out door.new ≡ false }
{
    let given = match values {
        Ok(given) => given,
        Err(error) => match error.kind() {
            io::ErrorKind::OutOfMemory => return ExitCode::from(Status::Memory.code()),
            _ => Vec::new(alloc),
        },
    };
    let words = words_of(&given);
    let Ok(mut crowd) = watchers_of(alloc, words, errors) else {
        return ExitCode::from(Status::Memory.code());
    };
    program(alloc, words, files, input, out, door, &mut crowd)
}
