//! Connections that are served over a map.
ghost use Rattle.std.specs.Prelude.{◌≡◌, ◌<◌, ◌≤◌, None, false};
ghost use Rattle.ml_io.specs.Calls.{link_ends, passed, put, taken};
ghost use Rattle.ml_command.specs.Loading.{no_tiles};
ghost use Rattle.maplabel.specs.Serving.{IsPiped, IsAllServed, status_of_link, status_of_serving, watched};

use crate::status::Status;
use ml_command::Site;
use ml_editor::Editor;
use ml_http::{ConnEnd, Context, serve_link};
use ml_io::{Door, Sink, Source};
use ml_ratio::Steps;
use ml_serve::{Hours, ServeEnd, serve};
use ml_watch::{Crowd, Watcher};
use std::alloc::Global;
use std::marker::Brand;
use std::mem::forget;
use std::sync::ledger::{Blank, Ledger};

/// Serves one connection over the map, from the input to the output.
pub fn pipe<S: Source, K: Sink, W: Watcher>(
    alloc: Global,
    site: Site,
    input: &mut S,
    out: &mut K,
    crowd: &mut Crowd<W>,
) -> Status
    requires none { site.1 ≡ no_tiles }
    ensures served { IsPiped (watched W.hearing crowd.old crowd.new) site.0.state
        (taken S.left S.faults input.old input.new)
        (put K.written K.faults out.old out.new) result }
    ensures later { (K.faults out.old ≤ K.faults out.new)
        × (S.faults input.old ≤ S.faults input.new) }
{
    pipe_counted::<Brand, S, K, W>(alloc, site, input, out, crowd, Blank::new(1))
}

// The same, with a counter of its own.
fn pipe_counted<L: Ledger, S: Source, K: Sink, W: Watcher>(
    alloc: Global,
    site: Site,
    input: &mut S,
    out: &mut K,
    crowd: &mut Crowd<W>,
    blank: Blank,
) -> Status
    requires name { blank.name ≡ L.name }
    requires parts { blank.parts ≡ L.parts }
    requires some { 0 < blank.parts }
    requires none { site.1 ≡ no_tiles }
    ensures served { IsPiped (watched W.hearing crowd.old crowd.new) site.0.state
        (taken S.left S.faults input.old input.new)
        (put K.written K.faults out.old out.new) result }
    ensures later { (K.faults out.old ≤ K.faults out.new)
        × (S.faults input.old ≤ S.faults input.new) }
{
    let (mut editor, mut tiles) = site;
    let mut steps: Steps<L> = Steps::new(blank);
    let end = serve_link(
        alloc,
        &mut editor,
        input,
        out,
        crowd,
        &mut tiles,
        &mut steps,
    );
    let_go(editor);
    status_of_link(end)
}

/// Serves at most so many connections over the map at a port, one after another, and says so.
pub fn serve_at<K: Sink, D: Door, W: Watcher>(
    alloc: Global,
    site: Site,
    out: &mut K,
    door: &mut D,
    crowd: &mut Crowd<W>,
    hours: Hours,
) -> Status
    requires fresh { D.at_port door.old ≡ None }
    requires out { D.is_out door.old ≡ false }
    requires none { site.1 ≡ no_tiles }
    ensures served { IsAllServed (watched W.hearing crowd.old crowd.new)
        (link_ends D.In.left D.In.faults D.Out.written D.Out.faults) site.0.state hours
        (passed D.coming D.served D.faults D.at_port D.listens door.old door.new)
        (put K.written K.faults out.old out.new) result }
    ensures out { D.is_out door.new ≡ false }
    ensures later { (K.faults out.old ≤ K.faults out.new)
        × (D.faults door.old ≤ D.faults door.new) }
{
    serve_counted::<Brand, K, D, W>(alloc, site, out, door, crowd, hours, Blank::new(1))
}

// The same, with a counter of its own.
fn serve_counted<L: Ledger, K: Sink, D: Door, W: Watcher>(
    alloc: Global,
    site: Site,
    out: &mut K,
    door: &mut D,
    crowd: &mut Crowd<W>,
    hours: Hours,
    blank: Blank,
) -> Status
    requires fresh { D.at_port door.old ≡ None }
    requires out { D.is_out door.old ≡ false }
    requires name { blank.name ≡ L.name }
    requires parts { blank.parts ≡ L.parts }
    requires some { 0 < blank.parts }
    requires none { site.1 ≡ no_tiles }
    ensures served { IsAllServed (watched W.hearing crowd.old crowd.new)
        (link_ends D.In.left D.In.faults D.Out.written D.Out.faults) site.0.state hours
        (passed D.coming D.served D.faults D.at_port D.listens door.old door.new)
        (put K.written K.faults out.old out.new) result }
    ensures out { D.is_out door.new ≡ false }
    ensures later { (K.faults out.old ≤ K.faults out.new)
        × (D.faults door.old ≤ D.faults door.new) }
{
    let (mut editor, mut tiles) = site;
    let mut steps: Steps<L> = Steps::new(blank);
    let mut context = Context {
        alloc,
        editor: &mut editor,
        crowd,
        tiles: &mut tiles,
        steps: &mut steps,
    };
    let end = serve(&mut context, out, door, hours);
    let_go(editor);
    status_of_serving(end)
}

// Lets go of the map: the run ends here, and the system takes back all memory at once.
fn let_go(editor: Editor) {
    forget(editor);
}

// The status of a run by how its one connection ended.
fn status_of_link(end: ConnEnd) -> Status
    ensures { result ≡ status_of_link end }
{
    match end {
        ConnEnd::Shut => Status::Done,
        ConnEnd::Starved => Status::Memory,
        ConnEnd::Closed => Status::Done,
        ConnEnd::ReadFault => Status::ReadFault,
        ConnEnd::WriteFault => Status::WriteFault,
    }
}

// The status of a run by how serving ended.
fn status_of_serving(end: ServeEnd) -> Status
    ensures { result ≡ status_of_serving end }
{
    match end {
        ServeEnd::Done => Status::Done,
        ServeEnd::WriteFault => Status::WriteFault,
        ServeEnd::DoorFault => Status::DoorFault,
    }
}
