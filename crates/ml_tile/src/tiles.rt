//! Tiles that are held.
ghost use Rattle.std.specs.Prelude.{ℕ, ◌≡◌, ◌≤◌, ◌<◌, List, ◌∷◌, ◌++◌, [], take, length, IfOk, OnErr, OnOk, MatchOption, MatchBool, Contains};
ghost use Rattle.std.specs.Borrow.{sem};
ghost use Rattle.std.specs.NonZero.{non_zero_usize_get};
ghost use Rattle.ml_tile.specs.Cache.{HeldTile, IsHeld, ShowsIn, Turns, most_tiles, longest_body};

use crate::key::TileKey;
use lru::LruCache;
use ml_cone::{Label, Span, active, meets};
use ml_ratio::Seq;
use std::alloc::{AllocError, Global};
use std::marker::Model;
use std::num::NonZeroUsize;

/// How many tiles are held at most.
const MOST_TILES: usize = 256;

/// How many bytes a body has at most that is held.
const LONGEST_BODY: usize = 65_536;

/// Tiles with the texts of their views, the most recent first: each tile once, at most 256.
///
/// It counts how often a tile that was asked for was held, and how often one was not kept for want of
/// memory. Each count stays at 2^64 - 1 once it is there.
#[derive(Drop)]
pub struct Tiles {
    held: LruCache<TileKey, Seq<u8>>,
    hits: u64,
    skips: u64,
}

impl Model for Tiles {
    ghost use Rattle.std.specs.Prelude.{◌≡◌};
    ghost use Rattle.ml_tile.specs.Cache.{Cache, most_tiles};

    ghost Value = { Cache };

    ghost view = { λ t. record { tiles = t.held.entries; hits = t.hits; skips = t.skips } };

    ghost invariant = { λ t. t.held.cap ≡ most_tiles };
}

impl Tiles {
    ghost use Rattle.ml_ratio.specs.Count.{one_more};
    ghost use Rattle.ml_tile.specs.Cache.{IsHeld, IsHit, ShowsIn, Loses, AreFewTiles};
    ghost use Rattle.ml_tile.specs.Ends.{EndsFound};

    /// No tiles.
    ///
    /// # Errors
    /// Out of memory.
    pub fn new(alloc: Global) -> Result<Tiles, AllocError>
        ensures { IfOk result (λ tiles. tiles ≡ record { tiles = []; hits = 0; skips = 0 }) }
    {
        Ok(Tiles {
            held: LruCache::new(alloc, cache_size())?,
            hits: 0,
            skips: 0,
        })
    }

    /// How many tiles are held: whatever was done to them, each is there once, and at most 256 are.
    pub fn len(&self) -> usize
        ensures count { result ≡ length self.now.tiles }
        ensures holds { AreFewTiles self.now.tiles }
    {
        self.held.len()
    }

    /// How often a tile that was asked for was held.
    pub fn hits(&self) -> u64
        ensures { result ≡ self.now.hits }
    {
        self.hits
    }

    /// How often a tile was not kept because memory ran out.
    pub fn skips(&self) -> u64
        ensures { result ≡ self.now.skips }
    {
        self.skips
    }

    /// Whether the tile is held.
    pub fn held(&self, key: &TileKey) -> bool
        ensures { MatchBool result (IsHeld key.now self.now.tiles)
            (¬ (IsHeld key.now self.now.tiles)) }
    {
        self.held.contains(key)
    }

    /// The body of the tile, if it is held. Nothing changes: it is no hit, and the tile stays in its place.
    pub fn peek(&self, key: &TileKey) -> Option<&Seq<u8>>
        ensures { MatchOption result (¬ (IsHeld key.now self.now.tiles))
            (λ body. Contains self.now.tiles (key.now, body.now)) }
    {
        self.held.peek(key)
    }

    /// The body of the tile, if it is held: then this is a hit, and the tile comes to the front.
    pub fn find(&mut self, key: &TileKey) -> Option<&Seq<u8>>
        ensures* ends { sem 𝓛 (EndsFound key.now self.entry result) }
        ensures held { MatchOption result (¬ (IsHeld key.now self.old.tiles))
            (λ body. Contains self.old.tiles (key.now, body.now)) }
    {
        if !self.touch(key) {
            return None;
        }
        self.held.peek(key)
    }

    /// Whether the tile is held: then this is a hit, and the tile comes to the front.
    pub fn touch(&mut self, key: &TileKey) -> bool
        ensures { MatchBool result ((body : List ℕ) × IsHit key.now body self.old self.new)
            ((¬ (IsHeld key.now self.old.tiles)) × (self.new ≡ self.old)) }
    {
        if !self.held.promote(key) {
            return false;
        }
        self.hits = self.hits.saturating_add(1);
        true
    }

    /// Keeps a tile that is not held, as the most recent one; the last one beyond 256 goes. Whether it
    /// was kept: a body of more than 65,536 bytes is not.
    ///
    /// # Errors
    /// Out of memory, which leaves the tiles, and is counted as a skip.
    pub fn keep(&mut self, key: TileKey, body: &Seq<u8>) -> Result<bool, AllocError>
        requires { ¬ (IsHeld key self.old.tiles) }
        ensures ok { IfOk result (λ kept. MatchBool kept
            ((length body.now ≤ longest_body) × (self.new
            ≡ record self.old { tiles = take most_tiles ((key, body.now) ∷ self.old.tiles) }))
            ((longest_body < length body.now) × (self.new ≡ self.old))) }
        ensures err { OnErr result ((length body.now ≤ longest_body)
            × (self.new ≡ record self.old { skips = one_more self.old.skips })) }
    {
        if body.len() > LONGEST_BODY {
            return Ok(false);
        }
        match store(&mut self.held, key, body) {
            Ok(()) => Ok(true),
            Err(error) => {
                self.skips = self.skips.saturating_add(1);
                Err(error)
            }
        }
    }

    /// Drops just the tiles in whose view the label, active in the span, is shown. It looks at each tile
    /// once, and takes no memory.
    pub fn forget(&mut self, label: &Label, span: &Span)
        ensures tiles { Loses (ShowsIn label.now span.now) self.old.tiles self.new.tiles }
        ensures hits { self.new.hits ≡ self.old.hits }
        ensures skips { self.new.skips ≡ self.old.skips }
    {
        for _tile in 0..self.held.len() {
            turn(&mut self.held, label, span);
        }
    }

    /// Drops all tiles.
    pub fn clear(&mut self)
        ensures { self.new ≡ record self.old { tiles = [] } }
    {
        self.held.clear();
    }
}

// How many tiles are held at most, as the cache takes it.
fn cache_size() -> NonZeroUsize
    ensures { non_zero_usize_get result ≡ most_tiles }
{
    match NonZeroUsize::new(MOST_TILES) {
        Some(most) => most,
        None => unreachable!(),
    }
}

// Puts a tile that is not held first, with a copy of its body; the last one beyond 256 goes.
fn store(
    held: &mut LruCache<TileKey, Seq<u8>>,
    key: TileKey,
    body: &Seq<u8>,
) -> Result<(), AllocError>
    requires new { ¬ (IsHeld key held.old.entries) }
    requires most { held.old.cap ≡ most_tiles }
    ensures ok { OnOk result
        (held.new.entries ≡ take most_tiles ((key, body.now) ∷ held.old.entries)) }
    ensures err { OnErr result (held.new ≡ held.old) }
    ensures most { held.new.cap ≡ most_tiles }
{
    let copy = Vec::from_slice(*held.allocator(), body.as_slice())?;
    match held.put(key, Seq::of_vec(copy)) {
        Ok(_) => Ok(()),
        Err(_) => Err(AllocError),
    }
}

// Takes the last tile out where the label is shown in it, and brings it to the front where it is not.
fn turn(held: &mut LruCache<TileKey, Seq<u8>>, label: &Label, span: &Span)
    ensures turned { Turns (ShowsIn label.now span.now) held.old.entries held.new.entries }
    ensures most { held.new.cap ≡ held.old.cap }
{
    // each tile is there once
    let _count = held.len();
    let Some(key) = last_key(held) else {
        return;
    };
    if shows(&key, label, span) {
        let _gone = held.pop_lru();
    } else {
        let _there = held.promote(&key);
    }
}

// The tile that was asked for least recently.
fn last_key(held: &LruCache<TileKey, Seq<u8>>) -> Option<TileKey>
    ensures { MatchOption result (held.now.entries ≡ [])
        (λ key. (front : List HeldTile) × (body : List ℕ)
        × (held.now.entries ≡ front ++ (key, body) ∷ [])) }
{
    match held.peek_lru() {
        Some((key, _body)) => Some(*key),
        None => None,
    }
}

// Whether the label, active in the span, is shown in the tile.
fn shows(key: &TileKey, label: &Label, span: &Span) -> bool
    ensures { MatchBool result (ShowsIn label.now span.now key.now)
        (¬ (ShowsIn label.now span.now key.now)) }
{
    let view = key.view();
    active(span, &view.scale) && meets(label, &view)
}
