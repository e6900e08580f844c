//! The lines that say what became of states that were offered, and what is held in the end.
ghost use Rattle.std.specs.Prelude.{◌≡◌, ◌<◌, ◌++◌, [], codes, length, map, slice_index_or, IfOk, OnOk, string_bytes};
ghost use Rattle.ml_ratio.specs.Ratio.{ratio_text};
ghost use Rattle.ml_command.specs.FollowLines.{AreFaultPlaces, IsFaultLine, adopted_line, held_line, refused_line, spelled_ids, stale_line};
ghost use Rattle.ml_command.specs.VerdictText.{AreItsPlaces, verdict_line};

use ml_cert::Verdict;
use ml_cone::Label;
use ml_follow::{Follower, OfferFault};
use ml_ratio::{Ratio, Seq};
use ml_watch::id_text;
use std::alloc::{AllocError, Global};

/// The ids of labels, as they stand in lines.
///
/// # Errors
/// Out of memory.
pub fn spelled_ids(alloc: Global, labels: &[Label]) -> Result<Seq<Seq<u8>>, AllocError>
    ensures { IfOk result (λ ids. ids ≡ spelled_ids labels.now) }
{
    let mut ids = Seq::new(alloc);
    for label in labels {
        ids.push(id_text(alloc, label.id())?)?;
    }
    Ok(ids)
}

/// The line of a state that was adopted: its revision, and how many labels it has.
///
/// # Errors
/// Out of memory.
pub fn adopted_line(alloc: Global, rev: u64, count: usize) -> Result<Vec<u8>, AllocError>
    ensures { IfOk result (λ line. line.items ≡ adopted_line rev count) }
{
    Ok(format!(in alloc; "adopted {rev} {count}\n")?.into_bytes())
}

/// The line of a state with this revision and these ids that was not adopted.
///
/// # Errors
/// Out of memory, which may be the fault itself.
pub fn fault_line(
    alloc: Global,
    rev: u64,
    ids: &[Seq<u8>],
    fault: OfferFault,
) -> Result<Vec<u8>, AllocError>
    requires { AreFaultPlaces ids.now fault }
    ensures { IfOk result (λ line. IsFaultLine rev ids.now fault line.items) }
{
    match fault {
        OfferFault::Stale(held) => stale_line(alloc, rev, held),
        OfferFault::NotBest(verdict) => refused_line(alloc, rev, ids, verdict),
        OfferFault::Memory => Err(AllocError),
    }
}

// The line of a state that was stale.
fn stale_line(alloc: Global, rev: u64, held: u64) -> Result<Vec<u8>, AllocError>
    ensures { IfOk result (λ line. line.items ≡ stale_line rev held) }
{
    Ok(format!(in alloc; "stale {rev} {held}\n")?.into_bytes())
}

// The line of a state that was refused with this verdict.
fn refused_line(
    alloc: Global,
    rev: u64,
    ids: &[Seq<u8>],
    verdict: Verdict,
) -> Result<Vec<u8>, AllocError>
    requires { AreItsPlaces ids.now verdict }
    ensures { IfOk result (λ line. line.items ≡ refused_line rev ids.now verdict) }
{
    let mut line = format!(in alloc; "refused {rev} ")?.into_bytes();
    push_verdict(&mut line, ids, verdict)?;
    Ok(line)
}

// Adds the words of a verdict, and the end of the line.
fn push_verdict(line: &mut Vec<u8>, ids: &[Seq<u8>], verdict: Verdict) -> Result<(), AllocError>
    requires { AreItsPlaces ids.now verdict }
    ensures { OnOk result (line.new.items ≡ line.old.items ++ verdict_line ids.now verdict) }
{
    match verdict {
        Verdict::Best => line.extend_from_slice(b"Best\n"),
        Verdict::BadEnd(i) => push_named(line, b"BadEnd ", id_at(ids, i)),
        Verdict::Clash(i, j, limit) => push_clash(line, id_at(ids, i), id_at(ids, j), limit),
        Verdict::Uncovered(i) => push_named(line, b"Uncovered ", id_at(ids, i)),
        Verdict::BadBlocker(i) => push_named(line, b"BadBlocker ", id_at(ids, i)),
    }
}

// The id at a place.
fn id_at(ids: &[Seq<u8>], i: usize) -> &[u8]
    requires { i < length ids.now }
    ensures { result.now ≡ slice_index_or ids.now i [] }
{
    ids[i].as_slice()
}

// Adds a word, an id, and the end of the line.
fn push_named(line: &mut Vec<u8>, word: &[u8], id: &[u8]) -> Result<(), AllocError>
    ensures { OnOk result
        (line.new.items ≡ line.old.items ++ (word.now ++ (id.now ++ codes "\n"))) }
{
    line.extend_from_slice(word)?;
    line.extend_from_slice(id)?;
    line.extend_from_slice(b"\n")
}

// Adds the words of a clash: the ids of a label and of the earlier one, and the limit that this one sets.
fn push_clash(line: &mut Vec<u8>, id: &[u8], earlier: &[u8], limit: Ratio) -> Result<(), AllocError>
    ensures { OnOk result (line.new.items ≡ line.old.items
        ++ (codes "Clash " ++ (id.now
        ++ (codes " " ++ (earlier.now ++ (codes " " ++ (ratio_text limit ++ codes "\n"))))))) }
{
    let limit = limit.text(*line.allocator())?;
    line.extend_from_slice(b"Clash ")?;
    line.extend_from_slice(id)?;
    line.extend_from_slice(b" ")?;
    line.extend_from_slice(earlier)?;
    push_named(line, b" ", limit.as_str().as_bytes())
}

/// The line of what is held: its revision and how many labels it has, or that nothing is.
///
/// # Errors
/// Out of memory.
pub fn held_line(alloc: Global, follower: &Follower) -> Result<Vec<u8>, AllocError>
    ensures { IfOk result (λ line. line.items ≡ held_line follower.now) }
{
    let count = follower.labels().len();
    match follower.rev() {
        Some(rev) => Ok(format!(in alloc; "held {rev} {count}\n")?.into_bytes()),
        None => Vec::from_slice(alloc, b"held none\n"),
    }
}
