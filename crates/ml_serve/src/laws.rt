//! Laws over the definitions alone. Each function takes nothing and does nothing but call the laws below that it
//! stands on: its contract is the law, for all values.
ghost use Rattle.std.specs.Prelude.{◌≡◌, List, flat_map};
ghost use Rattle.ml_io.specs.Calls.{LinkEnds};
ghost use Rattle.ml_io.specs.declared.link.Link.{Link};
ghost use Rattle.ml_watch.specs.Hearing.{Hearing};
ghost use Rattle.ml_editor.specs.State.{IsState};
ghost use Rattle.ml_http.specs.Link.{LinkState};
ghost use Rattle.ml_http.specs.Once.{AreLikeStates};
ghost use Rattle.ml_http.specs.Step.{LinkAnswer};
ghost use Rattle.ml_serve.specs.Headline.{changes_in};
ghost use Rattle.ml_serve.specs.Once.{AreOverTheSame, Session, written_in};
ghost use Rattle.ml_serve.specs.Session.{Follow, Visit};
ghost use Rattle.ml_serve.specs.Visit.{IsVisit};

use ml_http::laws::{one_account, stays_reached};

/// A session leads from a state that can be reached to one, whatever its connections bring and however they end.
pub fn session_stays_reached<W, I, O>()
    ensures { (hearing : W → Hearing) (ends : LinkEnds I O)
        (old new : LinkState W) (visits : List (Visit I O LinkAnswer)) →
        IsState old.map_state → Follow (IsVisit hearing ends) old visits new →
        IsState new.map_state }
{
    stays_reached::<W>();
}

/// Each session gives the replies: two sessions over the same links, which tell what they bring, from states that
/// are alike, have written the same to each of them, where both served as many and each connection ended
/// well. They tell the watchers the same changes, and leave states that are alike.
pub fn one_session<W, I, O>()
    ensures replies { (hearing : W → Hearing) (ends : LinkEnds I O)
        (links : List (Link I O)) (one other : Session W I O) →
        AreOverTheSame hearing ends links one other →
        written_in ends one.visits ≡ written_in ends other.visits }
    ensures told { (hearing : W → Hearing) (ends : LinkEnds I O)
        (links : List (Link I O)) (one other : Session W I O) →
        AreOverTheSame hearing ends links one other →
        flat_map changes_in one.visits ≡ flat_map changes_in other.visits }
    ensures states { (hearing : W → Hearing) (ends : LinkEnds I O)
        (links : List (Link I O)) (one other : Session W I O) →
        AreOverTheSame hearing ends links one other → AreLikeStates one.last other.last }
{
    one_account::<W>();
    stays_reached::<W>();
}
