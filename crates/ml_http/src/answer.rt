//! What an event is answered.
ghost use Rattle.std.specs.Prelude.{◌≡◌, IfOk, OnErr};
ghost use Rattle.ml_http.specs.Context.{IsSameLoan, state_of};
ghost use Rattle.ml_http.specs.Link.{HoldsTexts, IsAnswered, LinkIdles};
ghost use Rattle.ml_http.specs.Routes.{path_of, route_of};
ghost use Rattle.ml_http.specs.Step.{IsRouted, MapStep};

use crate::context::Context;
use crate::query::query_pairs_of;
use crate::read::read;
use crate::replies::{no_route_reply, refusal_reply};
use crate::route::Route;
use crate::target::{query_asked, route_asked};
use crate::tile::tile_reply;
use ml_request::{Event, Request};
use ml_watch::Watcher;
use ml_watch::laws::hear_nothing;
use std::alloc::AllocError;
use std::sync::ledger::Ledger;

impl<W: Watcher, L: Ledger> Context<'_, '_, W, L> {
    /// Answers one event, and gives the bytes of the reply.
    ///
    /// # Errors
    /// Out of memory: the map, the watchers and the tiles are as before.
    pub(crate) fn answer(&mut self, event: &Event) -> Result<Vec<u8>, AllocError>
        requires texts { HoldsTexts (state_of self.old) }
        ensures loan { IsSameLoan self.old self.new }
        ensures ok { IfOk result
            (λ bytes. IsAnswered W.hearing (λ s answer t. MapStep s event.now answer t)
            (state_of self.old) (state_of self.new) bytes.items) }
        ensures memory { OnErr result (LinkIdles (state_of self.old) (state_of self.new)) }
    {
        hear_nothing::<W>();
        match event {
            Event::Whole(request) => self.answer_request(request),
            Event::Refused(refusal) => refusal_reply(self.alloc, *refusal),
        }
    }

    // Answers a whole request.
    fn answer_request(&mut self, request: &Request) -> Result<Vec<u8>, AllocError>
        requires texts { HoldsTexts (state_of self.old) }
        ensures loan { IsSameLoan self.old self.new }
        ensures ok { IfOk result (λ bytes. IsAnswered W.hearing
            (λ s answer t. IsRouted
            (route_of request.now.method (path_of request.now.target)) s request.now answer t)
            (state_of self.old) (state_of self.new) bytes.items) }
        ensures memory { OnErr result (LinkIdles (state_of self.old) (state_of self.new)) }
    {
        hear_nothing::<W>();
        match route_asked(request) {
            Ok(Route::Read(route)) => {
                let pairs = query_pairs_of(self.alloc, query_asked(request))?;
                read(self.alloc, self.editor, route, request.closes(), &pairs)
            }
            Ok(Route::Tile) => {
                let pairs = query_pairs_of(self.alloc, query_asked(request))?;
                tile_reply(
                    self.alloc,
                    self.editor,
                    self.tiles,
                    request.closes(),
                    &pairs,
                )
            }
            Ok(Route::Edit(route)) => {
                let pairs = query_pairs_of(self.alloc, query_asked(request))?;
                self.edit(route, request, &pairs)
            }
            Err(none) => no_route_reply(self.alloc, request.closes(), none),
        }
    }
}
