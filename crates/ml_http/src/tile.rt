//! Tiles: views of which the bodies are held for the next time that they are asked for.
ghost use Rattle.std.specs.Prelude.{◌≡◌, ℕ, List, Result, Contains, IfOk, OnErr, MatchOption, map};
ghost use Rattle.ml_http.specs.Link.{AreTexts};
ghost use Rattle.ml_http.specs.Replies.{json_reply};
ghost use Rattle.ml_http.specs.Routes.{IsTileAsked, pair_bytes};
ghost use Rattle.ml_http.specs.Step.{tile_name};
ghost use Rattle.ml_http.specs.TileReply.{IsTileReply, IsTileTold};
ghost use Rattle.ml_http.specs.TileWork.{IsKept};
ghost use Rattle.ml_tile.specs.Cache.{IsHeld};
ghost use Rattle.ml_tile.specs.declared.key.TileKey.{TileKey};

use crate::query::{Pair, tile_asked};
use crate::replies::{json_reply, query_reply};
use http::StatusCode;
use ml_answer::view_json;
use ml_editor::Editor;
use ml_ratio::Seq;
use ml_tile::{TileKey, Tiles};
use std::alloc::{AllocError, Global};

// The name of the query's word at this place.
fn tile_name(place: usize) -> &'static str
    ensures { result.now ≡ tile_name place }
{
    match place {
        0 => "z",
        1 => "i",
        _ => "j",
    }
}

/// The tile that the query asks for, or which word of the query is wrong.
///
/// # Errors
/// Out of memory: the tiles held are as before.
pub(crate) fn tile_reply(
    alloc: Global,
    editor: &Editor,
    tiles: &mut Tiles,
    closes: bool,
    pairs: &[Pair<'_>],
) -> Result<Vec<u8>, AllocError>
    requires texts { AreTexts editor.now.state tiles.old.tiles }
    ensures ok { IfOk result
        (λ bytes. (asked : Result TileKey ℕ) × IsTileAsked (map pair_bytes pairs.now) asked
        × IsTileReply editor.now.state closes asked tiles.old tiles.new bytes.items) }
    ensures memory { OnErr result (tiles.new ≡ tiles.old) }
{
    match tile_asked(pairs) {
        Ok(key) => reply_of(alloc, editor, tiles, closes, key),
        Err(place) => query_reply(alloc, closes, tile_name(place)),
    }
}

// The reply for this tile. Its body is kept for the next time, where there is memory for that.
fn reply_of(
    alloc: Global,
    editor: &Editor,
    tiles: &mut Tiles,
    closes: bool,
    key: TileKey,
) -> Result<Vec<u8>, AllocError>
    requires texts { AreTexts editor.now.state tiles.old.tiles }
    ensures ok { IfOk result
        (λ bytes. IsTileTold editor.now.state closes key tiles.old tiles.new bytes.items) }
    ensures memory { OnErr result (tiles.new ≡ tiles.old) }
{
    if let Some(reply) = held_reply(alloc, tiles, closes, &key)? {
        tiles.touch(&key);
        return Ok(reply);
    }
    let text = view_json(alloc, editor, &key.view())?;
    let reply = json_reply(alloc, StatusCode::OK, closes, text.as_slice())?;
    keep(tiles, key, &text);
    Ok(reply)
}

// The reply of the body that is held of the tile, if one is.
fn held_reply(
    alloc: Global,
    tiles: &Tiles,
    closes: bool,
    key: &TileKey,
) -> Result<Option<Vec<u8>>, AllocError>
    ensures { IfOk result (λ found. MatchOption found (¬ (IsHeld key.now tiles.now.tiles))
        (λ bytes. (body : List ℕ) × Contains tiles.now.tiles (key.now, body)
        × (bytes.items ≡ json_reply 200 closes body))) }
{
    match tiles.peek(key) {
        Some(body) => {
            let reply = json_reply(alloc, StatusCode::OK, closes, body.as_slice())?;
            Ok(Some(reply))
        }
        None => Ok(None),
    }
}

// Keeps the body of a tile that is not held. Where memory is wanting for that, it is skipped.
fn keep(tiles: &mut Tiles, key: TileKey, text: &Seq<u8>)
    requires { ¬ (IsHeld key tiles.old.tiles) }
    ensures { IsKept (key, text.now) tiles.old tiles.new }
{
    match tiles.keep(key, text) {
        Ok(_) => {}
        Err(_) => {}
    }
}
