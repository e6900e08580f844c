//! Laws over the definitions alone. Each function takes nothing and does nothing: its contract is the
//! law, for all values.
ghost use Rattle.std.specs.Prelude.{◌≡◌, ◌≢◌, ℕ, ℤ, Bool, List, [], ◌∷◌, ◌++◌, flat_map, Option, Some, All, IsUtf8};
ghost use Rattle.ml_io.specs.Calls.{Put, Taken};
ghost use Rattle.ml_cone.specs.Slots.{AreSlots};
ghost use Rattle.ml_cone.specs.declared.label.Label.{Label};
ghost use Rattle.ml_cone.specs.declared.slot.Slot.{Slot};
ghost use Rattle.ml_ratio.specs.Fraction.{Fraction};
ghost use Rattle.ml_ratio.specs.declared.feature.Feature.{Feature};
ghost use Rattle.ml_style.specs.declared.class.Class.{Class};
ghost use Rattle.ml_style.specs.declared.class.Kind.TheVariants.{LineKind};
ghost use Rattle.ml_style.specs.declared.style.Style.{Style};
ghost use Rattle.ml_label.specs.Labelling.{IsClassOf, IsFeatureLabel};
ghost use Rattle.ml_view.specs.Drawn.{MayRise};
ghost use Rattle.ml_http.specs.Level.{ReachesHeight};
ghost use Rattle.ml_label.specs.Labels.{AreLabelsOf};
ghost use Rattle.ml_tile.specs.declared.key.TileKey.{TileKey};
ghost use Rattle.ml_follow.specs.Alike.{IsStateWith};
ghost use Rattle.ml_follow.specs.Follower.{IsStale, IsDue};
ghost use Rattle.ml_follow.specs.States.{AreStates};
ghost use Rattle.ml_follow.specs.declared.state.State as followed;
ghost use Rattle.ml_editor.specs.State.{State, IsState};
ghost use Rattle.ml_http.specs.StateReply.{IsStateText};
ghost use Rattle.ml_tile.specs.Cache.{Cache};
ghost use Rattle.ml_http.specs.Link.{AreTexts, IsLinkServed, LinkState};
ghost use Rattle.ml_http.specs.Once.{Account, AreAccounts, AreLikeStates, AreOneAnswer};
ghost use Rattle.ml_http.specs.Owed.{AreReplies, IsBeginning};
ghost use Rattle.ml_http.specs.declared.connection_end.ConnEnd.{ConnEnd};
ghost use Rattle.ml_watch.specs.Hearing.{Hearing};
ghost use Rattle.ml_http.specs.TileWork.{IsDoneTo};
ghost use Rattle.ml_http.specs.Alike.{LookAlike};
ghost use Rattle.ml_http.specs.Step.{LinkAnswer, Query, IsRead, IsTileText, IsTileAnswer, MapStep};
ghost use Rattle.ml_http.specs.declared.route.ReadRoute.{ReadRoute};
ghost use Rattle.ml_http.specs.declared.route.ReadRoute.TheVariants as reads;
ghost use Rattle.ml_request.specs.Stream.{AreEvents};
ghost use Rattle.ml_view.specs.Words.{SomeCoordinate, SomeSide, SomeScale};
ghost use Rattle.ml_tile.specs.Words.{IsDepthWord, SomeColumn};
ghost use Rattle.ml_request.specs.declared.request.Event.{Event};

use ml_conflict::laws::{l0 as one_longest, one_choice};
use ml_editor::laws::{accepted_is_reached, one_edit, one_refusal};
use ml_follow::laws::adopted;
use ml_label::laws::one_label;
use ml_repair::laws::{one_changes, one_cost, one_label_an_id, unchanged_stays};
use ml_view::laws::level_labels;

/// Two maps with one style and the same features, in whatever order, answer each request for a view, as
/// JSON or as SVG, with the same bytes, whatever edits led to them.
pub fn l4()
    ensures json { (s t : State) (closes : Bool) (query : Query) (a b : List ℕ) → LookAlike s t →
        IsRead reads.View s closes query a → IsRead reads.View t closes query b → a ≡ b }
    ensures svg { (s t : State) (closes : Bool) (query : Query) (a b : List ℕ) → LookAlike s t →
        IsRead reads.Svg s closes query a → IsRead reads.Svg t closes query b → a ≡ b }
{
    one_label();
    one_longest();
}

/// The events of a prefix of the bytes are a prefix of the events, up to the first whose reply closes
/// and at most `left` of them. So they depend on the bytes alone, and not on the pieces in which these
/// come.
#[tactic(auto, using(ml_request::proofs::lemmas::Streams::events_of_prefix))]
pub fn l5()
    ensures { (left : ℕ) (front more : List ℕ) (few all : List Event)
        → AreEvents left front few → AreEvents left (front ++ more) all
        → (others : List Event) × (all ≡ few ++ others) }
{}

/// An empty word is no coordinate, no side of a window and no scale, and neither the depth of a tile nor
/// its column or row. A name of a query that is missing, or stands twice or more, is read as an empty
/// word; so it is judged like a wrong value.
pub fn empty_word()
    ensures coordinate { ¬ (SomeCoordinate []) }
    ensures side { ¬ (SomeSide []) }
    ensures scale { ¬ (SomeScale []) }
    ensures depth { (z : ℕ) → ¬ (IsDepthWord [] z) }
    ensures column { (z : ℕ) → ¬ (SomeColumn z []) }
{}

/// The bodies of tiles that are held stay those of their tiles while requests are answered, whatever
/// these are: of a map that was edited just as of one that was not. So a tile that is held is answered
/// as one that is not.
pub fn held_tiles_stay_right()
    ensures { (s t : State) (event : Event) (answer : LinkAnswer) (old new : Cache) →
        MapStep s event answer t → IsDoneTo answer.work answer.changes old new →
        AreTexts s old.tiles → AreTexts t new.tiles }
{
    one_label();
    one_longest();
    unchanged_stays();
    one_label_an_id();
}

/// Two maps with one style and the same features, in whatever order, have the same body for each tile, and
/// answer each request for a tile with the same bytes. So a tile that is held, whose body is that of the
/// present map, is answered as one that is made for the request.
pub fn one_tile()
    ensures body { (s t : State) (key : TileKey) (a b : List ℕ) →
        LookAlike s t → IsTileText s key a → IsTileText t key b → a ≡ b }
    ensures reply { (s t : State) (closes : Bool) (query : Query)
        (one other : LinkAnswer) (u v : State) → LookAlike s t →
        IsTileAnswer s closes query one u →
        IsTileAnswer t closes query other v → one.reply ≡ other.reply }
{
    one_label();
    one_longest();
}

/// Whatever map was reached, the text of its state is read as one state, which a follower that holds
/// nothing, or a smaller revision, is to adopt; and it has the labels of the map's features in priority
/// order, alike in ids, anchors, boxes, selectable ranges and margins, with their ends and blockers.
pub fn states_are_adopted()
    ensures { (s : State) (text : List ℕ) (held : Option followed.State) →
        IsState s → All (λ f. IsUtf8 f.id) s.features →
        IsStateText s text → ¬ (IsStale held s.rev) →
        (labels : List Label) × (slots : List Slot)
        × (state : followed.State) × AreLabelsOf s.style s.features labels
        × AreSlots (λ j. j) labels slots × AreStates text (state ∷ [])
        × IsStateWith s.rev labels slots state × IsDue held state }
{
    adopted();
}

/// Names at points and in areas may rise over one another, where straight texts of their classes reach one
/// height over their anchors, margins counted.
///
/// So a view of a map whose style has such classes alone may be drawn on a map that is stretched in y.
pub fn names_rise()
    ensures { (style : Style) (f g : Feature) (one other : Class)
        (a b : Label) (height : ℤ) (s : Fraction) →
        IsClassOf style f one → one.kind ≢ LineKind →
        ReachesHeight height one → IsFeatureLabel style f a →
        IsClassOf style g other → other.kind ≢ LineKind →
        ReachesHeight height other → IsFeatureLabel style g b →
        MayRise a b s }
{
    level_labels();
}

/// A request that changes nothing has one reply.
pub fn one_read()
    ensures { (s : State) (route : ReadRoute) (closes : Bool) (query : Query) (a b : List ℕ) →
        IsState s →
        IsRead route s closes query a → IsRead route s closes query b → a ≡ b }
{
    one_label();
    one_longest();
    one_choice();
}

/// Each event has one answer: two answers of the machine to one event of one state have one reply, one
/// list of changes and one cost, and leave one state.
pub fn one_reply()
    ensures { (s : State) (event : Event) (one other : LinkAnswer) (t u : State) → IsState s →
        MapStep s event one t → MapStep s event other u → AreOneAnswer one other t u }
{
    one_label();
    one_longest();
    one_choice();
    one_refusal();
    one_edit();
    one_changes();
    one_cost();
}

/// What answers requests leads from states that can be reached to such states: one event, and a connection,
/// however it ends.
pub fn stays_reached<W>()
    ensures event { (s t : State) (event : Event) (answer : LinkAnswer) →
        IsState s → MapStep s event answer t → IsState t }
    ensures connection { (hearing : W → Hearing) (old new : LinkState W)
        (input : Taken) (out : Put) (end : ConnEnd) →
        IsState old.map_state → IsLinkServed hearing old new input out end → IsState new.map_state }
{
    accepted_is_reached();
}

/// Each connection gets the replies: two accounts of one that both end well, over the same bytes and from
/// states that are alike, write the same bytes, in whatever pieces these came. They end alike, tell the
/// watchers the same changes, and leave states that are alike; so the next connection finds one map.
pub fn one_account<W>()
    ensures written { (hearing : W → Hearing) (bytes : List ℕ) (one other : Account W) →
        AreAccounts hearing bytes one other →
        one.out.written ≡ other.out.written → one.out.written_after ≡ other.out.written_after }
    ensures ended { (hearing : W → Hearing) (bytes : List ℕ) (one other : Account W) →
        AreAccounts hearing bytes one other → one.end ≡ other.end }
    ensures told { (hearing : W → Hearing) (bytes : List ℕ)
        (one other : Account W) (both : AreAccounts hearing bytes one other) →
        flat_map (λ (a : LinkAnswer). a.changes) both.served.served.exchange.answers
        ≡ flat_map (λ (a : LinkAnswer). a.changes) both.served_too.served.exchange.answers }
    ensures states { (hearing : W → Hearing) (bytes : List ℕ) (one other : Account W) →
        AreAccounts hearing bytes one other → AreLikeStates one.new other.new }
{
    one_reply();
    accepted_is_reached();
}

/// The bytes of a connection are owed one list of replies.
pub fn one_list_of_replies()
    ensures { (s : State) (bytes : List ℕ) (one other : List (List ℕ)) → IsState s →
        AreReplies s bytes one → AreReplies s bytes other → one ≡ other }
{
    one_reply();
    accepted_is_reached();
}

/// However a connection ends, what it got is a beginning of the replies that its bytes are owed: all of them
/// where it ended well; the first of them where the source failed; these and the reply that memory is wanting
/// where it is; and a part of such replies where the sink failed.
pub fn one_prefix<W>()
    ensures { (hearing : W → Hearing) (old new : LinkState W) (bytes : List ℕ)
        (input : Taken) (out : Put) (end : ConnEnd) (texts : List (List ℕ)) →
        IsState old.map_state → input.left ≡ Some bytes →
        IsLinkServed hearing old new input out end →
        AreReplies old.map_state bytes texts → IsBeginning end out.written out.written_after texts }
{
    one_reply();
    accepted_is_reached();
}
