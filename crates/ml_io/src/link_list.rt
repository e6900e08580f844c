//! The connections of a door in memory, of which doors are made.
ghost use Rattle.std.specs.Prelude.{◌≡◌, ◌∷◌, ◌++◌, [], true, false, Some, None, IfOk, is_some};
ghost use Rattle.ml_io.specs.LinkList.{fresh_links};
ghost use Rattle.ml_io.specs.Takes.{GivesNext};

use crate::link::Link;
use std::alloc::{AllocError, Global};
use std::marker::Model;

/// The connections to come, and those done, for which there is room.
#[derive(Drop)]
pub(crate) struct LinkList<I, O> {
    coming: Vec<Link<I, O>>,
    served: Vec<Link<I, O>>,
    port: Option<u16>,
    listens: bool,
    out: bool,
}

impl<I, O> Model for LinkList<I, O> {
    ghost use Rattle.std.specs.Prelude.{◌≤◌, ◌+◌, vec_capacity, vec_len, if◌then◌else◌};
    ghost use Rattle.ml_io.specs.LinkList.{LinkListState};

    ghost Value = { LinkListState I O };

    ghost view = { λ a. record {
      coming = a.coming.items;
      served = a.served.items;
      port = a.port;
      listens = a.listens;
      out = a.out;
    } };

    ghost invariant = { λ a.
        vec_len a.coming + vec_len a.served + (if a.out then 1 else 0) ≤ vec_capacity a.served };
}

impl<I: Drop, O: Drop> LinkList<I, O> {
    /// These connections to come.
    ///
    /// # Errors
    /// Out of memory.
    pub(crate) fn new(alloc: Global, links: Vec<Link<I, O>>) -> Result<LinkList<I, O>, AllocError>
        ensures { IfOk result (λ list. list ≡ fresh_links links.items) }
    {
        let served = Vec::with_capacity(alloc, links.len())?;
        Ok(LinkList {
            coming: links,
            served,
            port: None,
            listens: false,
            out: false,
        })
    }
}

impl<I, O> LinkList<I, O> {
    /// Listens on this port.
    pub(crate) fn listen(&mut self, port: u16)
        ensures { self.new ≡ record self.old { port = Some port; listens = true } }
    {
        self.port = Some(port);
        self.listens = true;
    }

    /// The next connection, if there is one.
    pub(crate) fn next(&mut self) -> Option<Link<I, O>>
        requires { self.old.out ≡ false }
        ensures given { GivesNext (Some self.old.coming) (Some self.new.coming) result }
        ensures out { self.new.out ≡ is_some result }
        ensures port { self.new.port ≡ self.old.port }
        ensures listens { self.new.listens ≡ self.old.listens }
        ensures served { self.new.served ≡ self.old.served }
    {
        if self.coming.is_empty() {
            return None;
        }
        let link = self.coming.remove(0);
        self.out = true;
        Some(link)
    }

    /// Takes a connection back, last of those done. It takes no memory.
    pub(crate) fn done(&mut self, link: Link<I, O>)
        requires { self.old.out ≡ true }
        ensures { self.new
            ≡ record self.old { served = self.old.served ++ link ∷ []; out = false } }
    {
        match self.served.push(link) {
            Ok(()) => self.out = false,
            Err(_) => unreachable!(),
        }
    }

    /// The links done, in order.
    pub(crate) fn links_done(&self) -> &[Link<I, O>]
        ensures { result.now ≡ self.now.served }
    {
        self.served.as_slice()
    }
}
