//! Entries read from what stands for them.
ghost use Rattle.std.specs.Prelude.{◌≡◌};
ghost use Rattle.ml_spans.specs.declared.entry.Entry.{Entry as AnEntry};

use crate::entry::Entry;
use crate::key::Key;

/// Reads entries from shorter items that stand for them.
pub trait Reads<T, K, E, V> {
    ghost entry: { Self → T → AnEntry K E V };

    /// The entry that the item stands for.
    fn read(&self, item: &T) -> Entry<K, E, V>
        ensures { result ≡ entry self.now item.now };
}

// Reads entries that stand for themselves.
#[derive(Clone, Copy)]
pub(crate) struct AsTheyAre;

impl<K: Key, E: Key, V: Key> Reads<Entry<K, E, V>, K, E, V> for AsTheyAre {
    ghost entry = { λ _ e. e };

    fn read(&self, item: &Entry<K, E, V>) -> Entry<K, E, V> {
        *item
    }
}
