//! The top call.
ghost use Rattle.std.specs.Prelude.{◌≡◌, ◌≤◌, None, false, map, string_bytes};
ghost use Rattle.ml_io.specs.Files.{seen};
ghost use Rattle.ml_io.specs.Calls.{put, taken, passed, link_ends};
ghost use Rattle.maplabel.specs.Run.{IsFollowEnd, IsRun, lending, status_of_following};

use crate::generating::totals_of;
use crate::printing::{print_answer, print_stop, print_usage, print_verdict};
use crate::serving::{pipe, serve_at};
use crate::status::Status;
use ml_command::{
    Command, FollowEnd, LiveTask, check, follow, load_editor, load_states, on_map, on_table,
    read_command,
};
use ml_io::{Door, Files, Sink, Source};
use ml_serve::Hours;
use ml_watch::{Crowd, Watcher};
use std::alloc::Global;

/// Does what the words after the program's name ask for: loads the files, and prints what is due, or
/// serves connections over a map, or follows states.
///
/// The status says how the run ended; its line, if any, is printed too. Where it is `WriteFault`,
/// only a part of what was due was printed. The input is read by `pipe` alone, the door opened by
/// `serve` alone. The watchers are told the changes of all edits that these two accept, and those of
/// the states that `follow` adopts.
pub fn run<F: Files, S: Source, K: Sink, D: Door, W: Watcher>(
    alloc: Global,
    words: &[String],
    files: &mut F,
    input: &mut S,
    out: &mut K,
    door: &mut D,
    crowd: &mut Crowd<W>,
) -> Status
    requires fresh { D.at_port door.old ≡ None }
    requires out { D.is_out door.old ≡ false }
    ensures end { IsRun
        (record {
          files = seen F.told F.faults F.failed_name files.old files.new;
          out = put K.written K.faults out.old out.new;
          input = taken S.left S.faults input.old input.new;
          door = passed D.coming D.served D.faults D.at_port D.listens door.old door.new;
          old = lending input.old door.old crowd.old;
          new = lending input.new door.new crowd.new;
          hearing = W.hearing;
          ends = link_ends D.In.left D.In.faults D.Out.written D.Out.faults;
        })
        (map string_bytes words.now) result }
    ensures same { F.told files.new ≡ F.told files.old }
    ensures later { (F.faults files.old ≤ F.faults files.new)
        × (K.faults out.old ≤ K.faults out.new)
        × (S.faults input.old ≤ S.faults input.new) × (D.faults door.old ≤ D.faults door.new) }
    ensures out { D.is_out door.new ≡ false }
{
    match read_command(words) {
        Some(Command::OnTable(table, task)) => {
            print_answer(out, on_table(alloc, files, table, task))
        }
        Some(Command::Check(table, slots)) => print_verdict(out, check(alloc, files, table, slots)),
        Some(Command::OnMap(style, map, task)) => {
            print_answer(out, on_map(alloc, files, style, map, task))
        }
        Some(Command::Live(style, map, task)) => match load_editor(alloc, files, style, map) {
            Ok(site) => match task {
                LiveTask::Pipe => pipe(alloc, site, input, out, crowd),
                LiveTask::Serve(port, count) => {
                    serve_at(alloc, site, out, door, crowd, Hours { port, count })
                }
            },
            Err(stop) => print_stop(out, &stop),
        },
        Some(Command::Gen(groups, seed)) => print_answer(out, totals_of(alloc, groups, seed)),
        Some(Command::Follow(name)) => follow_file(alloc, name, files, out, crowd),
        None => print_usage(out),
    }
}

// Loads states, and follows them.
fn follow_file<F: Files, K: Sink, W: Watcher>(
    alloc: Global,
    name: &str,
    files: &mut F,
    out: &mut K,
    crowd: &mut Crowd<W>,
) -> Status
    ensures end { IsFollowEnd W.hearing (seen F.told F.faults F.failed_name files.old files.new)
        (put K.written K.faults out.old out.new) name.now crowd.old crowd.new result }
    ensures same { F.told files.new ≡ F.told files.old }
    ensures later { (F.faults files.old ≤ F.faults files.new)
        × (K.faults out.old ≤ K.faults out.new) }
{
    match load_states(alloc, files, name) {
        Ok(states) => status_of_following(follow(alloc, states, out, crowd)),
        Err(stop) => print_stop(out, &stop),
    }
}

// The status of a run by how following ended.
fn status_of_following(end: FollowEnd) -> Status
    ensures { result ≡ status_of_following end }
{
    match end {
        FollowEnd::Adopted => Status::Done,
        FollowEnd::NotAdopted => Status::NotAdopted,
        FollowEnd::WriteFault => Status::WriteFault,
        FollowEnd::Memory => Status::Memory,
    }
}
