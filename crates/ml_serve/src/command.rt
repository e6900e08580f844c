//! Listens, serves, and says so.
ghost use Rattle.std.specs.Prelude.{◌≡◌, ◌≤◌, List, Some, None, false, length};
ghost use Rattle.ml_io.specs.Calls.{link_ends, passed};
ghost use Rattle.ml_http.specs.Context.{IsSameLoan, state_of};
ghost use Rattle.ml_http.specs.Link.{HoldsTexts};
ghost use Rattle.ml_http.specs.Step.{LinkAnswer};
ghost use Rattle.ml_serve.specs.Headline.{Headline};
ghost use Rattle.ml_serve.specs.Printed.{IsEndOfServing, IsFaultSaid, HasServeCause, prints_after};
ghost use Rattle.ml_serve.specs.Session.{Visit};

use crate::hours::Hours;
use crate::line::put_served;
use crate::links::serve_links;
use crate::serve_end::ServeEnd;
use ml_http::Context;
use ml_io::laws::{append_nothing, append_twice, take_nothing};
use ml_io::{Door, Link, Sink, put_all};
use ml_watch::Watcher;
use ml_watch::laws::{hear_nothing, hear_twice};
use std::sync::ledger::Ledger;

/// Listens at a port, writes `ready`, serves at most `count` connections one after another, and writes
/// how many these were. Where the door fails it writes `door fault`; the connections before stay served.
/// Printing takes no memory.
pub fn serve<K: Sink, D: Door, W: Watcher, L: Ledger>(
    context: &mut Context<W, L>,
    out: &mut K,
    door: &mut D,
    hours: Hours,
) -> ServeEnd
    requires fresh { D.at_port door.old ≡ None }
    requires out { D.is_out door.old ≡ false }
    requires texts { HoldsTexts (state_of context.old) }
    ensures loan { IsSameLoan context.old context.new }
    ensures served { (visits : List (Visit D.In D.Out LinkAnswer))
        × Headline W.hearing (link_ends D.In.left D.In.faults D.Out.written D.Out.faults)
        (state_of context.old) (state_of context.new)
        (passed D.coming D.served D.faults D.at_port D.listens door.old door.new) visits
        × IsEndOfServing hours.count (length visits)
        (record {
          listens = D.listens door.new;
          coming_after = D.coming door.new;
          faults = D.faults door.old;
          faults_after = D.faults door.new;
        })
        (K.written out.old) (K.written out.new) result }
    ensures texts { HoldsTexts (state_of context.new) }
    ensures out { D.is_out door.new ≡ false }
    ensures port { D.at_port door.new ≡ Some hours.port }
    ensures cause { HasServeCause (D.faults door.old) (D.faults door.new)
        (K.faults out.old) (K.faults out.new) result }
{
    take_nothing::<Link<D::In, D::Out>>();
    append_nothing::<Link<D::In, D::Out>>();
    append_twice::<u8>();
    hear_nothing::<W>();
    hear_twice::<W>();
    match door.listen(hours.port) {
        Ok(()) => {}
        Err(_) => return say_fault(out),
    }
    match put_all(out, b"ready\n") {
        Ok(()) => {}
        Err(_) => return ServeEnd::WriteFault,
    }
    match serve_links(context, door, hours.count) {
        Ok(number) => match put_served(out, number) {
            Ok(()) => ServeEnd::Done,
            Err(_) => ServeEnd::WriteFault,
        },
        Err(_) => say_fault(out),
    }
}

// Writes that the door failed.
fn say_fault<K: Sink>(out: &mut K) -> ServeEnd
    ensures said { IsFaultSaid (K.written out.old) (K.written out.new) result }
    ensures later { K.faults out.old ≤ K.faults out.new }
    ensures writes { K.faults out.new ≡ prints_after result (K.faults out.old) }
{
    match put_all(out, b"door fault\n") {
        Ok(()) => ServeEnd::DoorFault,
        Err(_) => ServeEnd::WriteFault,
    }
}
