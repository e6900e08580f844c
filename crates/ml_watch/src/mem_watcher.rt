//! A watcher in memory, which tells the changes that it keeps and fails at listed calls.
ghost use Rattle.std.specs.Prelude.{◌≡◌, ◌+◌, ◌<◌, ◌≤◌, ◌↔◌, ◌++◌, ◌∷◌, [], None, Some, All, IfOk, IsOk, length, vec_len, vec_capacity};
ghost use Rattle.ml_watch.specs.Hearing.{Hearing, Told};
ghost use Rattle.ml_watch.specs.Blank.{IsBlank};
ghost use Rattle.ml_watch.specs.MemWatcher.{silent_watcher, Accepts, TellLeaves};

use crate::change::Change;
use crate::watcher::Watcher;
use ml_io::{Failed, FailingCalls};
use ml_ratio::Text;
use std::alloc::{AllocError, Global};
use std::marker::Model;

// How many bytes an id may have that is kept.
const LONGEST_ID: usize = 64;

/// Changes in memory that was reserved for them.
#[derive(Drop)]
pub struct MemWatcher {
    kept: Vec<Change>,
    // texts without bytes, each with room for an id, one for each change that may still be kept
    blank: Vec<String>,
    calls: FailingCalls,
    heard: u64,
    faults: u64,
}

impl Model for MemWatcher {
    ghost use Rattle.std.specs.Prelude.{◌+◌, ◌≤◌, All, vec_capacity, vec_len};
    ghost use Rattle.ml_watch.specs.MemWatcher.{MemWatcherState};
    ghost use Rattle.ml_watch.specs.Blank.{IsBlank};

    ghost Value = { MemWatcherState };

    ghost view = { λ w. record {
      kept = w.kept.items;
      room = vec_len w.kept + vec_len w.blank;
      fails = w.calls.listed.items;
      calls = w.calls.made;
      heard = w.heard;
      faults = w.faults;
    } };

    ghost invariant = { λ w. (vec_len w.kept + vec_len w.blank ≤ vec_capacity w.kept) × All IsBlank w.blank.items };
}

impl MemWatcher {
    /// A watcher that was told nothing yet, with room for `room` changes whose ids have at most 64
    /// bytes each. Its calls of `tell` that `fails` lists, counted from 0, fail.
    ///
    /// # Errors
    /// Out of memory.
    pub fn new(alloc: Global, room: usize, fails: Vec<u64>) -> Result<MemWatcher, AllocError>
        ensures { IfOk result (λ watcher. watcher ≡ silent_watcher room fails.items) }
    {
        let kept = Vec::with_capacity(alloc, room)?;
        let blank = blank_texts(alloc, room)?;
        Ok(MemWatcher {
            kept,
            blank,
            calls: FailingCalls::new(fails),
            heard: 0,
            faults: 0,
        })
    }

    /// The changes that it keeps, in the order in which it was told them.
    pub fn kept(&self) -> &[Change]
        ensures { result.now ≡ self.now.kept }
    {
        self.kept.as_slice()
    }
}

impl Watcher for MemWatcher {
    ghost hearing = { λ w. record { told = Some w.kept; text = None; heard = w.heard; faults = w.faults } };

    /// Keeps a copy of the change, exactly where this call is not listed, the id has at most 64 bytes,
    /// and there is room.
    fn tell(&mut self, change: &Change) -> Result<(), Failed>
        ensures told { Told
            (record {
              told = Some self.old.kept;
              text = None;
              heard = self.old.heard;
              faults = self.old.faults;
            })
            (record {
              told = Some self.new.kept;
              text = None;
              heard = self.new.heard;
              faults = self.new.faults;
            })
            change.now result }
        ensures accepted { IsOk result ↔ Accepts self.old change.now }
        ensures same { TellLeaves self.old self.new result }
    {
        let fails = self.calls.next_fails();
        let id = change.id.as_str();
        if fails || id.len() > LONGEST_ID {
            self.faults = self.faults.saturating_add(1);
            return Err(Failed);
        }
        match self.blank.pop() {
            Some(blank) => {
                let id = filled(blank, id);
                let copy = Change {
                    id,
                    before: change.before,
                    after: change.after,
                };
                keep(&mut self.kept, copy);
                self.heard = self.heard.saturating_add(1);
                Ok(())
            }
            None => {
                self.faults = self.faults.saturating_add(1);
                Err(Failed)
            }
        }
    }

    fn heard(&self) -> u64 {
        self.heard
    }

    fn faults(&self) -> u64 {
        self.faults
    }
}

// So many texts without bytes, each with room for an id.
fn blank_texts(alloc: Global, count: usize) -> Result<Vec<String>, AllocError>
    ensures count { IfOk result (λ texts. vec_len texts ≡ count) }
    ensures blank { IfOk result (λ texts. All IsBlank texts.items) }
{
    let mut texts = Vec::with_capacity(alloc, count)?;
    for _text in 0..count {
        texts.push(String::with_capacity(alloc, LONGEST_ID)?)?;
    }
    Ok(texts)
}

// The text of an id, in the memory of a blank text.
fn filled(mut blank: String, id: &str) -> Text
    requires blank { IsBlank blank }
    requires short { length id.now ≤ 64 }
    ensures { result ≡ id.now }
{
    match blank.push_str(id) {
        Ok(()) => Text::of_string(blank),
        Err(_) => unreachable!(),
    }
}

// Keeps a change, for which there is room.
fn keep(kept: &mut Vec<Change>, change: Change)
    requires { vec_len kept.old < vec_capacity kept.old }
    ensures items { kept.new.items ≡ kept.old.items ++ change ∷ [] }
    ensures len { vec_len kept.new ≡ vec_len kept.old + 1 }
    ensures capacity { vec_capacity kept.old ≤ vec_capacity kept.new }
{
    match kept.push(change) {
        Ok(()) => {}
        Err(_) => unreachable!(),
    }
}
