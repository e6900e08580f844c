//! A door in memory, which tells its connections and fails at listed calls.
ghost use Rattle.std.specs.Prelude.{◌≡◌, ◌∷◌, ◌++◌, ◌↔◌, [], true, false, Some, None, IfOk, IsOk, OnErr, is_ok, is_some, Contains};
ghost use Rattle.ml_io.specs.Causes.{HasCause};
ghost use Rattle.ml_io.specs.MemDoor.{fresh_door, NextLeaves};
ghost use Rattle.ml_io.specs.Takes.{GivesNext};

use crate::door::Door;
use crate::failed::Failed;
use crate::failing::FailingCalls;
use crate::link::Link;
use crate::link_list::LinkList;
use crate::mem_sink::MemSink;
use crate::mem_source::MemSource;
use std::alloc::{AllocError, Global};
use std::marker::Model;

/// A connection in memory.
pub type MemLink = Link<MemSource, MemSink>;

/// Connections in memory, with room for them once they are served.
#[derive(Drop)]
pub struct MemDoor {
    links: LinkList<MemSource, MemSink>,
    calls: FailingCalls,
    faults: u64,
}

impl Model for MemDoor {
    ghost use Rattle.ml_io.specs.MemDoor.{MemDoorState};
    ghost use Rattle.ml_io.specs.MemSink.{MemSinkState};
    ghost use Rattle.ml_io.specs.MemSource.{MemSourceState};

    ghost Value = { MemDoorState MemSourceState MemSinkState };

    ghost view = { λ a. record {
      links = a.links;
      fails = a.calls.listed.items;
      calls = a.calls.made;
      faults = a.faults;
    } };
}

impl MemDoor {
    /// These connections to come. Its calls of `next` that `fails` lists, counted from 0, fail.
    ///
    /// # Errors
    /// Out of memory.
    pub fn new(alloc: Global, links: Vec<MemLink>, fails: Vec<u64>) -> Result<MemDoor, AllocError>
        ensures { IfOk result (λ door. door ≡ fresh_door links.items fails.items) }
    {
        Ok(MemDoor {
            links: LinkList::new(alloc, links)?,
            calls: FailingCalls::new(fails),
            faults: 0,
        })
    }

    /// The links done, in order.
    pub fn links_done(&self) -> &[MemLink]
        ensures { result.now ≡ self.now.links.served }
    {
        self.links.links_done()
    }
}

impl Door for MemDoor {
    type In = MemSource;

    type Out = MemSink;

    ghost at_port = { λ d. d.links.port };

    ghost listens = { λ d. d.links.listens };

    ghost is_out = { λ d. d.links.out };

    ghost coming = { λ d. Some d.links.coming };

    ghost served = { λ d. Some d.links.served };

    ghost faults = { λ d. d.faults };

    /// It never fails.
    fn listen(&mut self, port: u16) -> Result<(), Failed>
        requires { self.old.links.port ≡ None }
        ensures port { self.new.links.port ≡ Some port }
        ensures listens { self.new.links.listens ≡ is_ok result }
        ensures same { (self.new.links.out ≡ self.old.links.out)
            × (Some self.new.links.coming ≡ Some self.old.links.coming)
            × (Some self.new.links.served ≡ Some self.old.links.served) }
        ensures cause { HasCause self.old.faults self.new.faults result }
        ensures ok { IsOk result }
        ensures calls { (self.new.calls ≡ self.old.calls) × (self.new.fails ≡ self.old.fails) }
    {
        self.links.listen(port);
        Ok(())
    }

    /// Fails exactly where this call is listed.
    fn next(&mut self) -> Result<Option<MemLink>, Failed>
        requires listens { self.old.links.listens ≡ true }
        requires out { self.old.links.out ≡ false }
        ensures ok { IfOk result (λ link.
            GivesNext (Some self.old.links.coming) (Some self.new.links.coming) link
            × (self.new.links.out ≡ is_some link)) }
        ensures err { OnErr result ((Some self.new.links.coming ≡ Some self.old.links.coming)
            × (self.new.links.out ≡ false)) }
        ensures same { (self.new.links.port ≡ self.old.links.port)
            × (self.new.links.listens ≡ self.old.links.listens)
            × (Some self.new.links.served ≡ Some self.old.links.served) }
        ensures cause { HasCause self.old.faults self.new.faults result }
        ensures given { IsOk result ↔ (¬ (Contains self.old.fails self.old.calls)) }
        ensures leaves { NextLeaves self.old self.new result }
    {
        if self.calls.next_fails() {
            self.faults = self.faults.saturating_add(1);
            return Err(Failed);
        }
        Ok(self.links.next())
    }

    fn done(&mut self, link: MemLink)
        requires { self.old.links.out ≡ true }
        ensures last { Some self.new.links.served ≡ Some (self.old.links.served ++ link ∷ []) }
        ensures out { self.new.links.out ≡ false }
        ensures same { (self.new.links.port ≡ self.old.links.port)
            × (self.new.links.listens ≡ self.old.links.listens)
            × (Some self.new.links.coming ≡ Some self.old.links.coming) }
        ensures faults { self.new.faults ≡ self.old.faults }
        ensures calls { (self.new.calls ≡ self.old.calls) × (self.new.fails ≡ self.old.fails) }
    {
        self.links.done(link);
    }
}
