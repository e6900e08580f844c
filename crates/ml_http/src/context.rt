//! What answering works on.
use ml_editor::Editor;
use ml_ratio::Steps;
use ml_tile::Tiles;
use ml_watch::Crowd;
use std::alloc::Global;
use std::sync::ledger::Ledger;

/// What answering works on, lent to it: the memory, a map, the watchers, the tiles that are held of the
/// map, and a counter of the labels that are evaluated.
///
/// The watchers have a lifetime of their own, since a caller may lend those that it was lent beside a
/// map that it owns.
#[derive(Drop)]
pub struct Context<'m, 'c, W, L: Ledger> {
    pub alloc: Global,
    pub editor: &'m mut Editor,
    pub crowd: &'c mut Crowd<W>,
    pub tiles: &'m mut Tiles,
    pub steps: &'m mut Steps<L>,
}
