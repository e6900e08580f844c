//! The first line of a state.
ghost use Rattle.std.specs.Prelude.{IfOk};
ghost use Rattle.ml_follow.specs.Reading.{IsHeadAnswer, IsEmpty, IsBegunBy, IsBegunAnswer};

use crate::opened::Opened;
use crate::state::State;
use ml_ratio::lines::parts_of;
use ml_ratio::number::read_up_to;
use ml_ratio::{MOST_LABELS, Seq};
use std::alloc::{AllocError, Global};
use std::collections::BTreeSet;

// The greatest revision, 2^53.
const LAST_REVISION: u64 = 9_007_199_254_740_992;

/// The state that a line begins, as `state 7 3`: the revision and the number of labels; none where it
/// begins none.
///
/// # Errors
/// Out of memory.
pub fn opened_by(alloc: Global, line: &[u8]) -> Result<Option<Opened>, AllocError>
    ensures { IfOk result (λ answer. IsBegunAnswer line.now answer) }
{
    let Ok(text) = std::str::from_utf8(line) else {
        return Ok(None);
    };
    let words = parts_of(alloc, text, ' ')?;
    match words.as_slice() {
        [word, rev, count] => Ok(begun_by(alloc, word, rev, count)),
        _ => Ok(None),
    }
}

// The state that three words begin; none where they begin none.
fn begun_by(alloc: Global, word: &str, rev: &str, count: &str) -> Option<Opened>
    ensures { IsBegunBy word.now rev.now count.now result }
{
    let (rev, count) = read_head(word, rev, count)?;
    Some(none_yet(alloc, rev, count))
}

// The revision and the number of labels that three words write; none where they write none.
fn read_head(word: &str, rev: &str, count: &str) -> Option<(u64, usize)>
    ensures { IsHeadAnswer word.now rev.now count.now result }
{
    if word != "state" {
        return None;
    }
    let rev = read_up_to(16, rev)?;
    let count = read_up_to(5, count)?;
    if rev <= LAST_REVISION && count <= MOST_LABELS as u64 {
        Some((rev, count as usize))
    } else {
        None
    }
}

// A state of this revision and so many labels, none of which have come.
fn none_yet(alloc: Global, rev: u64, count: usize) -> Opened
    ensures { IsEmpty rev count result }
{
    let state = State {
        rev,
        labels: Seq::new(alloc),
        slots: Seq::new(alloc),
    };
    Opened {
        count,
        state,
        taken: BTreeSet::new(alloc),
    }
}
