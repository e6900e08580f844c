//! Connections one after another.
ghost use Rattle.std.specs.Prelude.{◌≡◌, ◌<◌, ◌≤◌, ◌⊎◌, ℕ, true, false, Ok, IfOk, OnErr};
ghost use Rattle.ml_io.specs.Calls.{link_ends, passed};
ghost use Rattle.ml_io.specs.Causes.{HasCause};
ghost use Rattle.ml_io.specs.Takes.{HasRunOut};
ghost use Rattle.ml_http.specs.Context.{IsSameLoan, state_of};
ghost use Rattle.ml_http.specs.Link.{HoldsTexts};
ghost use Rattle.ml_serve.specs.Session.{HasServed, links_in};
ghost use Rattle.ml_serve.specs.Visit.{IsVisit};

use ml_http::Context;
use ml_io::laws::{append_nothing, append_twice, take_nothing, take_twice};
use ml_io::{Door, Failed, Link};
use ml_watch::Watcher;
use std::sync::ledger::Ledger;

/// Serves connections one after another, until so many were served or the door gives none. Each finds
/// the map, and the tiles that are held of it, as the one before left them, and is given back to the
/// door.
///
/// # Errors
/// `Failed` comes only where the door's count of faults rose in this call; the connections before
/// stay served.
pub fn serve_links<D: Door, W: Watcher, L: Ledger>(
    context: &mut Context<W, L>,
    door: &mut D,
    count: u64,
) -> Result<u64, Failed>
    requires listens { D.listens door.old ≡ true }
    requires out { D.is_out door.old ≡ false }
    requires texts { HoldsTexts (state_of context.old) }
    ensures loan { IsSameLoan context.old context.new }
    ensures texts { HoldsTexts (state_of context.new) }
    ensures ok { IfOk result (λ k. (k ≤ count)
        × HasServed (IsVisit W.hearing
        (link_ends D.In.left D.In.faults D.Out.written D.Out.faults)) k
        (passed D.coming D.served D.faults D.at_port D.listens door.old door.new)
        (state_of context.old) (state_of context.new)
        × ((k ≡ count) ⊎ HasRunOut (D.coming door.new))) }
    ensures err { OnErr result ((k : ℕ) × (k < count)
        × HasServed (IsVisit W.hearing
        (link_ends D.In.left D.In.faults D.Out.written D.Out.faults)) k
        (passed D.coming D.served D.faults D.at_port D.listens door.old door.new)
        (state_of context.old) (state_of context.new)) }
    ensures listens { D.listens door.new ≡ true }
    ensures out { D.is_out door.new ≡ false }
    ensures port { D.at_port door.new ≡ D.at_port door.old }
    ensures cause { HasCause (D.faults door.old) (D.faults door.new) result }
{
    take_nothing::<Link<D::In, D::Out>>();
    take_twice::<Link<D::In, D::Out>>();
    append_nothing::<Link<D::In, D::Out>>();
    append_twice::<Link<D::In, D::Out>>();
    let mut served = 0;
    'links: while served < count {
        match serve_visit(context, door) {
            Ok(true) => served += 1,
            Ok(false) => return Ok(served),
            Err(_) => return Err(Failed),
        }
    }
    Ok(served)
}

// Serves the next connection, if there is one, and gives it back. How it ended changes nothing.
fn serve_visit<D: Door, W: Watcher, L: Ledger>(
    context: &mut Context<W, L>,
    door: &mut D,
) -> Result<bool, Failed>
    requires listens { D.listens door.old ≡ true }
    requires out { D.is_out door.old ≡ false }
    requires texts { HoldsTexts (state_of context.old) }
    ensures loan { IsSameLoan context.old context.new }
    ensures texts { HoldsTexts (state_of context.new) }
    ensures served { HasServed (IsVisit W.hearing
        (link_ends D.In.left D.In.faults D.Out.written D.Out.faults)) (links_in result)
        (passed D.coming D.served D.faults D.at_port D.listens door.old door.new)
        (state_of context.old) (state_of context.new) }
    ensures ended { result ≡ Ok false → HasRunOut (D.coming door.new) }
    ensures listens { D.listens door.new ≡ true }
    ensures out { D.is_out door.new ≡ false }
    ensures port { D.at_port door.new ≡ D.at_port door.old }
    ensures cause { HasCause (D.faults door.old) (D.faults door.new) result }
{
    take_nothing::<Link<D::In, D::Out>>();
    append_nothing::<Link<D::In, D::Out>>();
    match door.next() {
        Ok(Some(link)) => {
            let mut link = link;
            context.serve(&mut link.source, &mut link.sink);
            door.done(link);
            Ok(true)
        }
        Ok(None) => Ok(false),
        Err(_) => Err(Failed),
    }
}
