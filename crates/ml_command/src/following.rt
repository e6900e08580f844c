//! States of a file that are offered to a follower, one after another.
ghost use Rattle.std.specs.Prelude.{◌≡◌, ◌≤◌, [], All, Any, IfErr, IfOk, MatchBool, OnErr};
ghost use Rattle.ml_follow.specs.Reading.{IsGood};
ghost use Rattle.ml_io.specs.Calls.{put};
ghost use Rattle.ml_io.specs.Files.{seen};
ghost use Rattle.ml_command.specs.FollowLines.{held_line};
ghost use Rattle.ml_command.specs.Following.{HasStates, IsFollowed, IsStatesLine, IsStatesStop};
ghost use Rattle.ml_command.specs.Inputs.{IsInputRefusal, Keeps};
ghost use Rattle.ml_command.specs.declared.following.FollowEnd.TheVariants.{Adopted, NotAdopted};
ghost use Rattle.ml_command.specs.Offering.{AreOffered, IsOfferAnswered, IsHeldPrinted, IsOfferPrinted, halted};

use crate::follow_lines::{adopted_line, fault_line, held_line, spelled_ids};
use crate::inputs::{input_refusal, load};
use crate::stop::Stop;
use ml_follow::{Follower, State, StateFault, read_states};
use ml_io::{Failed, Files, Sink, put_all};
use ml_ratio::Seq;
use ml_watch::laws::{hear_nothing, hear_twice};
use ml_watch::{Crowd, Watcher};
use std::alloc::{AllocError, Global};

/// How following ends.
#[derive(Clone, Copy, Debug, PartialEq, Eq)]
pub enum FollowEnd {
    /// All states were offered and adopted.
    Adopted,
    /// All states were offered, and not all of them adopted.
    NotAdopted,
    /// Not all could be printed.
    WriteFault,
    /// Out of memory.
    Memory,
}

/// What a state that was offered is answered.
#[derive(Drop)]
pub struct Answer {
    /// The line that says what became of it.
    pub line: Vec<u8>,
    /// Whether it was adopted.
    pub adopted: bool,
}

/// What ends following before all states were offered and all lines printed.
#[derive(Clone, Copy, Debug, PartialEq, Eq)]
pub enum Halt {
    /// Out of memory.
    Memory,
    /// Not all could be printed.
    WriteFault,
}

/// The states of the file of this name.
///
/// # Errors
/// `FileFault` and `TooLong` where its file is not loaded; `InputRefused` where it holds no states;
/// `Memory`.
pub fn load_states<F: Files>(alloc: Global, files: &mut F, name: &str) -> Result<Seq<State>, Stop>
    ensures ok { IfOk result (λ states. HasStates (F.told files.old) name.now states) }
    ensures good { IfOk result (λ states. All IsGood states) }
    ensures stop { IfErr result
        (IsStatesStop (seen F.told F.faults F.failed_name files.old files.new) name.now) }
    ensures same { F.told files.new ≡ F.told files.old }
    ensures kept { Keeps (seen F.told F.faults F.failed_name files.old files.new) result }
    ensures later { F.faults files.old ≤ F.faults files.new }
{
    let bytes = load(alloc, files, name)?;
    match read_states(alloc, &bytes) {
        Ok(states) => Ok(states),
        Err(fault) => Err(states_refusal(alloc, fault)),
    }
}

// Why a file of states is refused, as a line.
fn states_refusal(alloc: Global, fault: StateFault) -> Stop
    ensures { IsInputRefusal (IsStatesLine fault) result }
{
    match fault {
        StateFault::BadState(k) => input_refusal(format!(in alloc;
            "states refused: 1 BadState {k}\n"
        )),
        StateFault::Memory => Stop::Memory,
    }
}

/// Offers the states one after another to a follower that holds nothing, and prints what became of
/// each, and what is held in the end. The watchers are told what each adopted state changes.
pub fn follow<K: Sink, W: Watcher>(
    alloc: Global,
    states: Seq<State>,
    out: &mut K,
    crowd: &mut Crowd<W>,
) -> FollowEnd
    requires good { All IsGood states }
    ensures followed { IsFollowed W.hearing states crowd.old crowd.new
        (put K.written K.faults out.old out.new) result }
    ensures later { K.faults out.old ≤ K.faults out.new }
{
    let mut follower = Follower::new(alloc);
    let all = match offer_all(alloc, &mut follower, states, out, crowd) {
        Ok(all) => all,
        Err(halt) => return halted(halt),
    };
    match print_held(alloc, &follower, out) {
        Ok(()) => end_of_offers(all),
        Err(halt) => halted(halt),
    }
}

// The end where all states were offered.
fn end_of_offers(all: bool) -> FollowEnd
    ensures { MatchBool all (result ≡ Adopted) (result ≡ NotAdopted) }
{
    if all {
        FollowEnd::Adopted
    } else {
        FollowEnd::NotAdopted
    }
}

// The end where following was halted.
fn halted(halt: Halt) -> FollowEnd
    ensures { result ≡ halted halt }
{
    match halt {
        Halt::Memory => FollowEnd::Memory,
        Halt::WriteFault => FollowEnd::WriteFault,
    }
}

// Offers the states in order, and prints what became of each. Whether all were adopted.
fn offer_all<K: Sink, W: Watcher>(
    alloc: Global,
    follower: &mut Follower,
    states: Seq<State>,
    out: &mut K,
    crowd: &mut Crowd<W>,
) -> Result<bool, Halt>
    requires good { All IsGood states }
    ensures offered { AreOffered W.hearing follower.old states follower.new crowd.old crowd.new
        (put K.written K.faults out.old out.new) result }
    ensures later { K.faults out.old ≤ K.faults out.new }
{
    hear_nothing::<W>();
    hear_twice::<W>();
    let mut all = true;
    for state in states.into_vec() {
        match offer(alloc, follower, state, out, crowd) {
            Ok(adopted) => all = all && adopted,
            Err(halt) => return Err(halt),
        }
    }
    Ok(all)
}

// Offers one state, and prints what became of it. Whether it was adopted.
fn offer<K: Sink, W: Watcher>(
    alloc: Global,
    follower: &mut Follower,
    state: State,
    out: &mut K,
    crowd: &mut Crowd<W>,
) -> Result<bool, Halt>
    requires good { IsGood state }
    ensures turn { IsOfferPrinted W.hearing follower.old state follower.new crowd.old crowd.new
        (put K.written K.faults out.old out.new) result }
    ensures later { K.faults out.old ≤ K.faults out.new }
{
    let Ok(answer) = answer_to(alloc, follower, state, crowd) else {
        return Err(Halt::Memory);
    };
    match put_all(out, &answer.line) {
        Ok(()) => Ok(answer.adopted),
        Err(Failed) => Err(Halt::WriteFault),
    }
}

// Offers one state. Its line is made before that, in case it is adopted, since there is no way back
// from then on; so are the ids that name what is wrong with it, since the follower takes the state.
fn answer_to<W: Watcher>(
    alloc: Global,
    follower: &mut Follower,
    state: State,
    crowd: &mut Crowd<W>,
) -> Result<Answer, AllocError>
    requires good { IsGood state }
    ensures answered { IfOk result
        (IsOfferAnswered W.hearing follower.old state follower.new crowd.old crowd.new) }
    ensures held { OnErr result (follower.new ≡ follower.old) }
    ensures crowd { OnErr result (crowd.new ≡ crowd.old) }
{
    hear_nothing::<W>();
    let line = adopted_line(alloc, state.rev, state.labels.len())?;
    let ids = spelled_ids(alloc, state.labels.as_slice())?;
    let rev = state.rev;
    match follower.offer(state, crowd) {
        Ok(()) => Ok(Answer {
            line,
            adopted: true,
        }),
        Err(fault) => {
            let line = fault_line(alloc, rev, ids.as_slice(), fault)?;
            Ok(Answer {
                line,
                adopted: false,
            })
        }
    }
}

// Prints what is held.
fn print_held<K: Sink>(alloc: Global, follower: &Follower, out: &mut K) -> Result<(), Halt>
    ensures printed { IsHeldPrinted follower.now (put K.written K.faults out.old out.new) result }
    ensures later { K.faults out.old ≤ K.faults out.new }
{
    let Ok(line) = held_line(alloc, follower) else {
        return Err(Halt::Memory);
    };
    match put_all(out, &line) {
        Ok(()) => Ok(()),
        Err(Failed) => Err(Halt::WriteFault),
    }
}
