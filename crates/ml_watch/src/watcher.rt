//! One who is told changes.
ghost use Rattle.std.specs.Prelude.{◌≡◌};
ghost use Rattle.ml_watch.specs.Hearing.{Hearing, Told};

use crate::change::Change;
use ml_io::Failed;

/// One who is told changes, and may fail. No call takes memory.
pub trait Watcher: Drop {
    /// What it was told, and how often it failed. The count of faults never falls.
    ghost hearing: { Self → Hearing };

    /// Tells it one more change.
    ///
    /// # Errors
    /// `Failed` comes only where the count of faults rose in this call. The change then does not count
    /// as heard; of its line a first part may have been written.
    fn tell(&mut self, change: &Change) -> Result<(), Failed>
        ensures { Told (hearing self.old) (hearing self.new) change.now result };

    /// How many changes it was told with Ok. The number stays at 2^64 - 1 once it is there.
    fn heard(&self) -> u64
        ensures { result ≡ (hearing self.now).heard };

    /// How often it failed.
    fn faults(&self) -> u64
        ensures { result ≡ (hearing self.now).faults };
}

impl Watcher for Box<dyn Watcher> {
    ghost hearing = { λ b. (Watcher-box b).hearing b.value };

    fn tell(&mut self, change: &Change) -> Result<(), Failed> {
        (**self).tell(change)
    }

    fn heard(&self) -> u64 {
        (**self).heard()
    }

    fn faults(&self) -> u64 {
        (**self).faults()
    }
}
