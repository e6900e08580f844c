//! A door in memory that never fails, nor do its connections.
ghost use Rattle.std.specs.Prelude.{◌≡◌, ◌∷◌, ◌++◌, [], true, false, Some, None, IfOk, IsOk, OnErr, is_ok, is_some};
ghost use Rattle.ml_io.specs.Causes.{HasCause};
ghost use Rattle.ml_io.specs.LinkList.{fresh_links};
ghost use Rattle.ml_io.specs.Takes.{GivesNext};

use crate::calm_sink::CalmSink;
use crate::calm_source::CalmSource;
use crate::door::Door;
use crate::failed::Failed;
use crate::link::Link;
use crate::link_list::LinkList;
use std::alloc::{AllocError, Global};
use std::marker::Model;

/// A connection that never fails.
pub type CalmLink = Link<CalmSource, CalmSink>;

/// Connections in memory, with room for them once they are served.
#[derive(Drop)]
pub struct CalmDoor {
    links: LinkList<CalmSource, CalmSink>,
}

impl Model for CalmDoor {
    ghost use Rattle.std.specs.Prelude.{ℕ, List};
    ghost use Rattle.ml_io.specs.LinkList.{LinkListState};

    ghost Value = { LinkListState (List ℕ) ℕ };

    ghost view = { λ a. a.links };
}

impl CalmDoor {
    /// These connections to come.
    ///
    /// # Errors
    /// Out of memory.
    pub fn new(alloc: Global, links: Vec<CalmLink>) -> Result<CalmDoor, AllocError>
        ensures { IfOk result (λ door. door ≡ fresh_links links.items) }
    {
        Ok(CalmDoor {
            links: LinkList::new(alloc, links)?,
        })
    }

    /// The links done, in order.
    pub fn links_done(&self) -> &[CalmLink]
        ensures { result.now ≡ self.now.served }
    {
        self.links.links_done()
    }
}

impl Door for CalmDoor {
    type In = CalmSource;

    type Out = CalmSink;

    ghost at_port = { λ d. d.port };

    ghost listens = { λ d. d.listens };

    ghost is_out = { λ d. d.out };

    ghost coming = { λ d. Some d.coming };

    ghost served = { λ d. Some d.served };

    ghost faults = { λ _. 0 };

    /// It never fails.
    fn listen(&mut self, port: u16) -> Result<(), Failed>
        requires { self.old.port ≡ None }
        ensures port { self.new.port ≡ Some port }
        ensures listens { self.new.listens ≡ is_ok result }
        ensures same { (self.new.out ≡ self.old.out) × (Some self.new.coming ≡ Some self.old.coming)
            × (Some self.new.served ≡ Some self.old.served) }
        ensures cause { HasCause 0 0 result }
        ensures ok { IsOk result }
    {
        self.links.listen(port);
        Ok(())
    }

    /// It never fails.
    fn next(&mut self) -> Result<Option<CalmLink>, Failed>
        requires listens { self.old.listens ≡ true }
        requires out { self.old.out ≡ false }
        ensures ok { IfOk result
            (λ link. GivesNext (Some self.old.coming) (Some self.new.coming) link
            × (self.new.out ≡ is_some link)) }
        ensures err { OnErr result
            ((Some self.new.coming ≡ Some self.old.coming) × (self.new.out ≡ false)) }
        ensures same { (self.new.port ≡ self.old.port) × (self.new.listens ≡ self.old.listens)
            × (Some self.new.served ≡ Some self.old.served) }
        ensures cause { HasCause 0 0 result }
        ensures calm { IsOk result }
    {
        Ok(self.links.next())
    }

    fn done(&mut self, link: CalmLink)
        requires { self.old.out ≡ true }
        ensures last { Some self.new.served ≡ Some (self.old.served ++ link ∷ []) }
        ensures out { self.new.out ≡ false }
        ensures same { (self.new.port ≡ self.old.port) × (self.new.listens ≡ self.old.listens)
            × (Some self.new.coming ≡ Some self.old.coming) }
    {
        self.links.done(link);
    }
}
