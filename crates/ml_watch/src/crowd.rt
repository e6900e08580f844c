//! Watchers, each in its place.
ghost use Rattle.std.specs.Prelude.{◌≡◌, length, slice_get};
ghost use Rattle.std.specs.Option.{option_map};
ghost use Rattle.ml_watch.specs.Hearing.{Hears, AllHear};

use crate::change::Change;
use crate::watcher::Watcher;
use ml_ratio::Seq;
use std::marker::Model;

/// Watchers, each of which keeps its place for good. By default they are boxed, so that one crowd has
/// watchers of several kinds.
#[derive(Drop)]
pub struct Crowd<W = Box<dyn Watcher>> {
    watchers: Vec<W>,
}

impl<W> Model for Crowd<W> {
    ghost use Rattle.std.specs.Prelude.{List};

    ghost Value = { List W };

    ghost view = { λ c. c.watchers.items };
}

impl<W: Watcher> Crowd<W> {
    /// These watchers.
    pub fn new(watchers: Vec<W>) -> Crowd<W>
        ensures { result ≡ watchers.items }
    {
        Crowd { watchers }
    }

    /// How many there are.
    pub fn len(&self) -> usize
        ensures { result ≡ length self.now }
    {
        self.watchers.len()
    }

    /// How many changes the watcher at place `i`, counted from 0, was told with Ok; none past the end.
    pub fn heard(&self, i: usize) -> Option<u64>
        ensures { result ≡ option_map (λ w. (W.hearing w).heard) (slice_get self.now i) }
    {
        match self.watchers.get(i) {
            Some(watcher) => Some(watcher.heard()),
            None => None,
        }
    }

    /// Tells each watcher the changes in order, as long as its count of faults is 0. A watcher that has
    /// failed before is told nothing and stays as it is. It takes no memory.
    pub fn tell_all(&mut self, changes: &Seq<Change>)
        ensures { AllHear W.hearing changes.now self.old self.new }
    {
        for watcher in self.watchers.iter_mut() {
            tell_one(watcher, changes.as_slice());
        }
    }
}

// Tells one watcher the changes in order, as long as its count of faults is 0.
fn tell_one<W: Watcher>(watcher: &mut W, changes: &[Change])
    ensures { Hears W.hearing watcher.old watcher.new changes.now }
{
    for change in changes {
        if watcher.faults() > 0 {
            return;
        }
        match watcher.tell(change) {
            Ok(()) => {}
            Err(_) => return,
        }
    }
}
