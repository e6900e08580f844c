//! A tile from words.
ghost use Rattle.std.specs.Prelude.{◌≤◌, ℕ, ℤ, MatchOption, MatchResult};
ghost use Rattle.ml_tile.specs.Words.{IsColumnWord, IsDepthWord, IsFirstBadWord, WritesTile};

use crate::key::{DEEPEST, TileKey, has_column};
use ml_ratio::read_whole;

/// The tile that three words write: its depth, its column and its row.
///
/// # Errors
/// The place, counted from 0 in this order, of the first word that is no whole number, or is out of the
/// bounds that [`TileKey`] gives.
pub fn read_tile(z: &str, i: &str, j: &str) -> Result<TileKey, usize>
    ensures { MatchResult result (WritesTile z.now i.now j.now) (IsFirstBadWord z.now i.now j.now) }
{
    let Some(z) = read_depth(z) else {
        return Err(0);
    };
    let Some(i) = read_column(z, i) else {
        return Err(1);
    };
    let Some(j) = read_column(z, j) else {
        return Err(2);
    };
    match TileKey::of(z, i, j) {
        Some(key) => Ok(key),
        None => unreachable!(),
    }
}

// A depth of tiles.
fn read_depth(word: &str) -> Option<u8>
    ensures { MatchOption result ((z : ℕ) → ¬ (IsDepthWord word.now z))
        (λ z. IsDepthWord word.now z) }
{
    match read_whole(word) {
        Some(z) => {
            if 0 <= z && z <= DEEPEST as i64 {
                Some(z as u8)
            } else {
                None
            }
        }
        None => None,
    }
}

// A column, or row, of the tiles of depth `z`.
fn read_column(z: u8, word: &str) -> Option<i64>
    requires { z ≤ 21 }
    ensures { MatchOption result ((i : ℤ) → ¬ (IsColumnWord z word.now i))
        (λ i. IsColumnWord z word.now i) }
{
    match read_whole(word) {
        Some(i) => { if has_column(z, i) { Some(i) } else { None } }
        None => None,
    }
}
