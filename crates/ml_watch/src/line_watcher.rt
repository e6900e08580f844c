//! A watcher that writes a line for each change.
ghost use Rattle.std.specs.Prelude.{◌≡◌, None, OnErr, is_ok, if◌then◌else◌};
ghost use Rattle.ml_ratio.specs.Count.{one_more};
ghost use Rattle.ml_io.specs.Causes.{Rose};
ghost use Rattle.ml_watch.specs.Hearing.{Hearing, Told};

use crate::change::Change;
use crate::line::put_line;
use crate::watcher::Watcher;
use ml_io::{Failed, Sink};

/// Writes the line of each change into a sink, at once and without taking memory. The line is
/// `ID BEFORE AFTER` and LF. In ID a byte other than `A-Z a-z 0-9 - . _ ~ #` is `%` and two upper-case
/// hexadecimal digits, and an empty id is `%`. A span is `MIN..UNTIL`, a missing one `-`.
///
/// It keeps a count of faults of its own, which rises at each call of `tell` that fails.
#[derive(Drop)]
pub struct LineWatcher<K> {
    pub(crate) sink: K,
    pub(crate) heard: u64,
    pub(crate) faults: u64,
}

impl<K: Sink + Drop> LineWatcher<K> {
    /// A watcher that was told nothing yet. It takes no memory.
    pub fn new(sink: K) -> LineWatcher<K>
        ensures sink { result.sink ≡ sink }
        ensures heard { result.heard ≡ 0 }
        ensures faults { result.faults ≡ 0 }
    {
        LineWatcher {
            sink,
            heard: 0,
            faults: 0,
        }
    }

    /// The sink, lent.
    pub fn sink(&self) -> &K
        ensures { result.now ≡ self.now.sink }
    {
        &self.sink
    }
}

impl<K: Sink + Drop> Watcher for LineWatcher<K> {
    ghost hearing = { λ w. record { told = None; text = K.written w.sink; heard = w.heard; faults = w.faults } };

    fn tell(&mut self, change: &Change) -> Result<(), Failed>
        ensures told { Told
            (record {
              told = None;
              text = K.written self.old.sink;
              heard = self.old.heard;
              faults = self.old.faults;
            })
            (record {
              told = None;
              text = K.written self.new.sink;
              heard = self.new.heard;
              faults = self.new.faults;
            })
            change.now result }
        ensures cause { OnErr result (Rose (K.faults self.old.sink) (K.faults self.new.sink)) }
        ensures counted { self.new.faults
            ≡ (if is_ok result then self.old.faults else one_more self.old.faults) }
    {
        match put_line(&mut self.sink, change) {
            Ok(()) => {
                self.heard = self.heard.saturating_add(1);
                Ok(())
            }
            Err(fault) => {
                self.faults = self.faults.saturating_add(1);
                Err(fault)
            }
        }
    }

    fn heard(&self) -> u64 {
        self.heard
    }

    fn faults(&self) -> u64 {
        self.faults
    }
}
