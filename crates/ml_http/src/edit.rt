//! Requests that edit the map. The reply to an edit is made whole before the edit is carried out.
ghost use Rattle.std.specs.Prelude.{◌≡◌, IfOk, OnErr, map};
ghost use Rattle.ml_editor.specs.Editing.{IsReady, HasRoomFor};
ghost use Rattle.ml_http.specs.Context.{IsSameLoan, state_of};
ghost use Rattle.ml_http.specs.Link.{IsAccepted, IsAnswered, LinkIdles};
ghost use Rattle.ml_http.specs.Routes.{pair_bytes};
ghost use Rattle.ml_editor.specs.Faults.{wish_of};
ghost use Rattle.std.specs.Option.{option_map};
ghost use Rattle.ml_http.specs.Replies.{json_reply as json_reply_text};
ghost use Rattle.ml_answer.specs.Edit.{edit_text};
ghost use Rattle.ml_http.specs.Step.{IsEditReply, wish_in};

use crate::context::Context;
use crate::forget::forget_changes;
use crate::query::{Pair, id_asked, revision_asked};
use crate::replies::{fault_reply, json_reply, query_reply};
use crate::route::EditRoute;
use http::StatusCode;
use ml_answer::edit_json;
use ml_editor::{Asked, Ready};
use ml_request::Request;
use ml_watch::Watcher;
use ml_watch::laws::hear_nothing;
use std::alloc::{AllocError, Global};
use std::sync::ledger::Ledger;

impl<W: Watcher, L: Ledger> Context<'_, '_, W, L> {
    /// Answers a request for an edit.
    ///
    /// # Errors
    /// Out of memory: the map, the watchers and the tiles are as before.
    pub(crate) fn edit(
        &mut self,
        route: EditRoute,
        request: &Request,
        pairs: &[Pair<'_>],
    ) -> Result<Vec<u8>, AllocError>
        ensures loan { IsSameLoan self.old self.new }
        ensures ok { IfOk result (λ bytes. IsAnswered W.hearing
            (λ s answer t. IsEditReply route s request.now.closes
            (map pair_bytes pairs.now) request.now.body answer t)
            (state_of self.old) (state_of self.new) bytes.items) }
        ensures memory { OnErr result (LinkIdles (state_of self.old) (state_of self.new)) }
    {
        hear_nothing::<W>();
        let closes = request.closes();
        let Some(asked) = asked_in(route, request, pairs) else {
            return query_reply(self.alloc, closes, "id");
        };
        let Some(rev) = revision_asked(pairs) else {
            return query_reply(self.alloc, closes, "rev");
        };
        match self.editor.prepare(self.alloc, rev, asked, self.steps) {
            Ok(ready) => self.accept(ready, closes),
            Err(fault) => fault_reply(self.alloc, closes, &fault),
        }
    }

    // Makes the reply to an edit that is ready, and then drops the tiles that show what it changes and
    // carries it out, which cannot fail. The steps for it were spent when it was made ready.
    fn accept(&mut self, ready: Ready, closes: bool) -> Result<Vec<u8>, AllocError>
        requires of_state { IsReady ready self.old.editor.now.state
            self.old.editor.now.engine.rows }
        requires room { HasRoomFor ready self.old.editor.now }
        ensures loan { IsSameLoan self.old self.new }
        ensures ok { IfOk result (λ bytes.
            IsAccepted W.hearing closes ready.edit ready.evaluated
            (state_of self.old) (state_of self.new) bytes.items) }
        ensures memory { OnErr result (state_of self.new ≡ state_of self.old) }
    {
        let reply = accepted_reply(self.alloc, &ready, closes)?;
        forget_changes(self.editor, self.tiles, &ready);
        self.editor.commit(ready, self.crowd);
        Ok(reply)
    }
}

// What a request for an edit asks; none where it needs an id that its query does not give.
fn asked_in<'a>(route: EditRoute, request: &'a Request, pairs: &'a [Pair<'_>]) -> Option<Asked<'a>>
    ensures { option_map wish_of result
        ≡ wish_in route (map pair_bytes pairs.now) request.now.body }
{
    match route {
        EditRoute::Add => Some(Asked::Add(request.body())),
        EditRoute::Replace => Some(Asked::Replace(request.body())),
        EditRoute::Remove => match id_asked(pairs) {
            Some(id) => Some(Asked::Remove(id)),
            None => None,
        },
        EditRoute::Restyle => Some(Asked::Restyle(request.body())),
    }
}

// The reply to an edit that is ready.
fn accepted_reply(alloc: Global, ready: &Ready, closes: bool) -> Result<Vec<u8>, AllocError>
    ensures { IfOk result (λ bytes.
        bytes.items ≡ json_reply_text 200 closes (edit_text ready.now.rev ready.now.changes)) }
{
    let text = edit_json(alloc, ready.rev(), ready.changes())?;
    json_reply(alloc, StatusCode::OK, closes, text.as_slice())
}
