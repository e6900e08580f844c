//! The later rivals of a label.
ghost use Rattle.std.specs.Prelude.{ℕ, ◌≡◌, ◌≢◌, ◌+◌, ◌<◌, ◌⊎◌, ◌↔◌, false, IsTrue, length, All, Contains, IfOk, slice_index_or};
ghost use Rattle.ml_repair.specs.Repair.{AreSuspects, IsWokenBy, AreWoken};
ghost use Rattle.ml_repair.specs.Touched.{IsRivalBefore};
ghost use Rattle.ml_store.specs.Rows.{labels_in};

use crate::roster::{Roster, no_places};
use crate::waiting::Waiting;
use ml_cone::laws::{rivals_overlap, rivals_share};
use ml_cone::{Label, last_band};
use ml_conflict::are_rivals;
use ml_ratio::Seq;
use std::alloc::{AllocError, Global};

// So many labels are asked whether they wait, to tell whether few do not.
const ASKED: usize = 64;

// Where no more labels than these are left, they are asked one by one: a search may find many more, which come
// before.
const FEW_LATER: usize = 64;

// Places, among them those of all rivals of the label: rivals share a cell in the last band of one of them, so the
// bands of the label's range are searched from that on in which a range ends first.
fn suspects(alloc: Global, roster: &Roster<'_>, label: &Label) -> Result<Seq<u32>, AllocError>
    ensures { IfOk result (AreSuspects roster.now label.now) }
{
    rivals_share();
    let mut places = Seq::new(alloc);
    let last = last_band(label);
    let mut band = roster.first_end().min(last).max(label.min().band());
    while band <= last {
        roster.near(alloc, label, band, &mut places)?;
        band += 1;
    }
    Ok(places)
}

// Places, among them those of all rivals of the label, by searches in all bands of its range. Where there are many
// labels these find fewer that are no rivals, since they look at small cells about the label. One search does for
// the bands up to that in which a range ends first.
fn near_suspects(alloc: Global, roster: &Roster<'_>, label: &Label) -> Result<Seq<u32>, AllocError>
    ensures { IfOk result (AreSuspects roster.now label.now) }
{
    rivals_overlap();
    let mut places = no_places(alloc)?;
    let last = last_band(label);
    let first_end = roster.first_end();
    let mut band = label.min().band();
    while band <= last {
        let upto = first_end.max(band).min(last);
        band = roster.across(alloc, label, band, upto, &mut places)?;
    }
    Ok(places)
}

// Whether the label at `k` is a later rival of that at `i`, which is `own`.
fn is_later_rival(roster: &Roster<'_>, own: &Label, i: usize, k: usize) -> bool
    requires own { (d : Label) → slice_index_or (labels_in roster.now) i d ≡ own.now }
    requires k_is_place { k < length roster.now }
    ensures { IsTrue result ↔ IsRivalBefore (labels_in roster.now) i k }
{
    i < k && are_rivals(&roster.row(k).label, own)
}

// The label at `k` waits from now on, if it is a later rival of that at `i`, which is `own`. One that waits is
// not asked.
fn wake_one(roster: &Roster<'_>, own: &Label, i: usize, k: usize, waiting: &mut Waiting)
    requires one_each { length waiting.old ≡ length roster.now }
    requires own { (d : Label) → slice_index_or (labels_in roster.now) i d ≡ own.now }
    requires k_is_place { k < length roster.now }
    ensures one_each { length waiting.new ≡ length roster.now }
    ensures woken { IsTrue (slice_index_or waiting.new k false) ↔ (IsTrue
        (slice_index_or waiting.old k false) ⊎ IsRivalBefore (labels_in roster.now) i k) }
    ensures others { (m : ℕ) → m ≢ k →
        slice_index_or waiting.new m false ≡ slice_index_or waiting.old m false }
{
    if waiting.has(k) {
        return;
    }
    if is_later_rival(roster, own, i, k) {
        waiting.wake(k);
    }
}

// Those of the places whose labels are later rivals of that at `i` wait from now on.
fn wake_among(roster: &Roster<'_>, places: &[u32], i: usize, waiting: &mut Waiting)
    requires one_each { length waiting.old ≡ length roster.now }
    requires is_place { i < length roster.now }
    requires in_roster { All (λ p. p < length roster.now) places.now }
    ensures one_each { length waiting.new ≡ length roster.now }
    ensures woken { IsWokenBy (labels_in roster.now) i
        (Contains places.now) waiting.old waiting.new }
{
    let own = &roster.row(i).label;
    for place in places {
        wake_one(roster, own, i, *place as usize, waiting);
    }
}

// The later rivals of the label at `i` wait from now on. Each later label that does not wait is asked.
fn wake_idle(roster: &Roster<'_>, i: usize, waiting: &mut Waiting)
    requires one_each { length waiting.old ≡ length roster.now }
    requires is_place { i < length roster.now }
    ensures one_each { length waiting.new ≡ length roster.now }
    ensures woken { AreWoken roster.now i waiting.old waiting.new }
{
    let own = &roster.row(i).label;
    let many = waiting.len();
    let mut k = waiting.next_idle(i + 1);
    while k < many {
        wake_one(roster, own, i, k, waiting);
        k = waiting.next_idle(k + 1);
    }
}

// Whether few of the labels behind that at `i` are idle: fewer than a quarter of some that are spread over them.
fn are_few_idle(waiting: &Waiting, i: usize) -> bool
    requires { i < length waiting.now }
{
    let many = waiting.len();
    let mut at = i + 1;
    let apart = (many - at) / ASKED + 1;
    let mut idle = 0;
    while at < many {
        if !waiting.has(at) {
            idle += 1;
        }
        at += apart;
    }
    idle < ASKED / 4
}

/// The later rivals of the label at `i` wait from now on.
///
/// # Errors
/// Out of memory.
pub fn wake(
    alloc: Global,
    roster: &Roster<'_>,
    i: usize,
    waiting: &mut Waiting,
) -> Result<(), AllocError>
    requires one_each { length waiting.old ≡ length roster.now }
    requires is_place { i < length roster.now }
    ensures one_each { length waiting.new ≡ length roster.now }
    ensures woken { IfOk result (λ _. AreWoken roster.now i waiting.old waiting.new) }
{
    if roster.len() - i <= FEW_LATER {
        wake_idle(roster, i, waiting);
        return Ok(());
    }
    let row = roster.row(i);
    let places = suspects(alloc, roster, &row.label)?;
    wake_among(roster, places.as_slice(), i, waiting);
    Ok(())
}

// The later rivals of the label at `i` wait from now on, found near it.
fn wake_near(
    alloc: Global,
    roster: &Roster<'_>,
    i: usize,
    waiting: &mut Waiting,
) -> Result<(), AllocError>
    requires one_each { length waiting.old ≡ length roster.now }
    requires is_place { i < length roster.now }
    ensures one_each { length waiting.new ≡ length roster.now }
    ensures woken { IfOk result (λ _. AreWoken roster.now i waiting.old waiting.new) }
{
    let row = roster.row(i);
    let places = near_suspects(alloc, roster, &row.label)?;
    wake_among(roster, places.as_slice(), i, waiting);
    Ok(())
}

/// The later rivals of the label at `i` wait from now on, where others wait already, and whether rivals of many
/// labels were woken before is told, for the sake of time alone.
///
/// # Errors
/// Out of memory.
pub fn wake_more(
    alloc: Global,
    roster: &Roster<'_>,
    many: bool,
    i: usize,
    waiting: &mut Waiting,
) -> Result<(), AllocError>
    requires one_each { length waiting.old ≡ length roster.now }
    requires is_place { i < length roster.now }
    ensures one_each { length waiting.new ≡ length roster.now }
    ensures woken { IfOk result (λ _. AreWoken roster.now i waiting.old waiting.new) }
{
    if are_few_idle(waiting, i) {
        wake_idle(roster, i, waiting);
        return Ok(());
    }
    if many {
        wake_near(alloc, roster, i, waiting)
    } else {
        wake(alloc, roster, i, waiting)
    }
}
