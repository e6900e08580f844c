//! Tiles that are held, found, dropped and passed over.
ghost use Rattle.std.specs.Prelude.{◌≡◌};

use crate::cases::{Table, hold, label_of, whole};
use ml_cone::{Span, View};
use ml_ratio::Seq;
use ml_ratio::lines::parts_of;
use ml_tile::{TileKey, Tiles};
use std::alloc::Global;
use std::process::Abort;

/// The tile that three numbers name, if there is one.
fn key_of(rt: &impl Abort, alloc: Global, text: &str) -> Option<TileKey> {
    let words = parts_of(alloc, text, ' ').expect(rt, "memory");
    let z = u8::try_from(whole(rt, &words, 0))
        .ok()
        .expect(rt, "a depth");
    let column = whole(rt, &words, 1);
    let row = whole(rt, &words, 2);
    TileKey::of(z, column, row)
}

/// The middle and the scale of a view.
fn view_told(rt: &impl Abort, alloc: Global, view: &View) -> String {
    let scale = view.scale.text(alloc).expect(rt, "memory");
    let (cx, cy) = (view.cx, view.cy);
    format!(in alloc; "{cx} {cy} {}", scale.as_str()).expect(rt, "memory")
}

/// Depth, column and row, and the middle and the scale of the tile's view.
struct Keys;

impl Table for Keys {
    const LINES: &'static str = "\
0 0 0 => 512 512 1/1
0 1 0 => 1536 512 1/1
3 -1 2 => -4096 20480 8/1
0 1953124 -1953125 => 1999999488 -1999999488 1/1
0 1953125 0 => none
0 0 -1953126 => none
20 0 0 => 536870912 536870912 1048576/1
21 0 -1 => 1073741824 -1073741824 2097152/1
21 1 0 => none
21 0 -2 => none
22 0 0 => none";

    fn told(rt: &impl Abort, alloc: Global, input: &str) -> String {
        match key_of(rt, alloc, input) {
            Some(key) => view_told(rt, alloc, &key.view()),
            None => "none".to_string(alloc).expect(rt, "memory"),
        }
    }
}

#[test]
fn tiles_are_views(rt: HostRuntime) {
    hold::<Keys>(&rt, rt.alloc())
}

/// Keeps a tile with a body.
fn keep(rt: &impl Abort, tiles: &mut Tiles, key: TileKey, body: &Seq<u8>) -> bool {
    if tiles.held(&key) {
        panic!(rt; "a new tile");
    }
    tiles.keep(key, body).expect(rt, "memory")
}

/// Tells what is found of a tile.
fn find(rt: &impl Abort, tiles: &mut Tiles, key: &TileKey, told: &mut String) {
    match tiles.find(key) {
        Some(body) => {
            let text = std::str::from_utf8(body.as_slice())
                .ok()
                .expect(rt, "a text");
            told.push_str(text).expect(rt, "memory");
        }
        None => told.push_str("none").expect(rt, "memory"),
    }
    told.push_str(", ").expect(rt, "memory");
}

/// Forgets the tiles in which the label of a row is shown, which is active in its whole range.
fn forget(rt: &impl Abort, alloc: Global, tiles: &mut Tiles, row: &str) {
    let label = label_of(rt, alloc, row);
    let (min, until) = (label.min(), label.max());
    tiles.forget(&label, &Span { min, until });
}

/// Does one step.
fn step(rt: &impl Abort, alloc: Global, tiles: &mut Tiles, step: &str, told: &mut String) {
    if step == "=" {
        tiles.clear();
        return;
    }
    let rest = step.get(1..).expect(rt, "a step");
    if step.starts_with("!") {
        return forget(rt, alloc, tiles, rest);
    }
    let key = key_of(rt, alloc, rest).expect(rt, "a tile");
    if step.starts_with("?") {
        return find(rt, tiles, &key, told);
    }
    let body = Vec::from_slice(alloc, rest.as_bytes()).expect(rt, "memory");
    let _kept = keep(rt, tiles, key, &Seq::of_vec(body));
}

/// What was found, and both counts.
fn counts_told(rt: &impl Abort, alloc: Global, tiles: &Tiles, told: &str) -> String {
    let (hits, skips) = (tiles.hits(), tiles.skips());
    format!(in alloc; "{told}hits {hits} skips {skips}").expect(rt, "memory")
}

/// What is done with tiles: `+TILE` keeps one, `?TILE` asks for one, `!ROW` forgets those in which the
/// label of a row is shown, `=` drops all. The answer is what was found, and both counts.
struct TileSteps;

impl Table for TileSteps {
    const LINES: &'static str = "\
+0 0 0 | ?0 0 0 | ?0 0 0 | ?0 1 0 => 0 0 0, 0 0 0, none, hits 2 skips 0
+0 0 0 | +0 1 0 | !A 0 0 0 1000 -10,-5,10,5 | ?0 0 0 | ?0 1 0 => none, 0 1 0, hits 1 skips 0
+0 0 0 | +0 1 0 | !A 1034 512 0 1000 -10,-5,10,5 | ?0 0 0 | ?0 1 0 => 0 0 0, none, hits 1 skips 0
+0 0 0 | +1 0 0 | +2 0 0 | !A 0 0 2 4 -10,-5,10,5 | ?0 0 0 | ?1 0 0 | ?2 0 0 => 0 0 0, none, 2 0 0, hits 2 skips 0
+0 0 0 | +0 1 0 | = | ?0 0 0 | ?0 1 0 => none, none, hits 0 skips 0";

    fn told(rt: &impl Abort, alloc: Global, input: &str) -> String {
        let mut tiles = Tiles::new(alloc).expect(rt, "memory");
        let mut told = String::new(alloc);
        for text in input.split(" | ") {
            step(rt, alloc, &mut tiles, text, &mut told);
        }
        counts_told(rt, alloc, &tiles, &told)
    }
}

#[test]
fn tiles_are_found_until_they_change(rt: HostRuntime) {
    hold::<TileSteps>(&rt, rt.alloc())
}

/// Whether a tile of a row of tiles is held.
fn is_held(rt: &impl Abort, tiles: &Tiles, column: i64) -> bool {
    let key = TileKey::of(0, column, 0).expect(rt, "a tile");
    tiles.held(&key)
}

/// So many tiles of a row, each kept after the one before it.
fn row_of_tiles(rt: &impl Abort, alloc: Global, count: i64) -> Tiles {
    let mut tiles = Tiles::new(alloc).expect(rt, "memory");
    let body = Seq::new(alloc);
    for column in 0..count {
        let key = TileKey::of(0, column, 0).expect(rt, "a tile");
        let _kept = keep(rt, &mut tiles, key, &body);
    }
    tiles
}

/// A number of tiles, each kept after the one before it, the place of one of them, and whether that is
/// held.
struct Rows;

impl Table for Rows {
    const LINES: &'static str = "\
256 0 => true
256 1 => true
256 255 => true
257 0 => false
257 1 => true
257 255 => true";

    fn told(rt: &impl Abort, alloc: Global, input: &str) -> String {
        let words = parts_of(alloc, input, ' ').expect(rt, "memory");
        let count = whole(rt, &words, 0);
        let column = whole(rt, &words, 1);
        let tiles = row_of_tiles(rt, alloc, count);
        is_held(rt, &tiles, column)
            .to_string(alloc)
            .expect(rt, "memory")
    }
}

/// A number of tiles, each kept after the one before it, and how many are held then.
struct Held;

impl Table for Held {
    const LINES: &'static str = "\
0 => 0
1 => 1
255 => 255
256 => 256
257 => 256
300 => 256";

    fn told(rt: &impl Abort, alloc: Global, input: &str) -> String {
        let count = input.parse::<i64>().ok().expect(rt, "a number");
        let tiles = row_of_tiles(rt, alloc, count);
        tiles.len().to_string(alloc).expect(rt, "memory")
    }
}

#[test]
fn at_most_256_tiles_are_held(rt: HostRuntime) {
    hold::<Held>(&rt, rt.alloc())
}

#[test]
fn the_oldest_of_too_many_tiles_goes(rt: HostRuntime) {
    hold::<Rows>(&rt, rt.alloc())
}

/// Whether a body of so many bytes is kept.
fn is_kept(rt: &impl Abort, alloc: Global, length: usize) -> bool {
    let mut tiles = Tiles::new(alloc).expect(rt, "memory");
    let key = TileKey::of(0, 0, 0).expect(rt, "a tile");
    let body = vec![in alloc; 97; length].expect(rt, "memory");
    keep(rt, &mut tiles, key, &Seq::of_vec(body))
}

/// The length of a body, and whether it is kept.
struct Bodies;

impl Table for Bodies {
    const LINES: &'static str = "\
65536 => true
65537 => false";

    fn told(rt: &impl Abort, alloc: Global, input: &str) -> String {
        let length = input.parse::<usize>().ok().expect(rt, "a length");
        is_kept(rt, alloc, length)
            .to_string(alloc)
            .expect(rt, "memory")
    }
}

#[test]
fn long_bodies_are_passed_over(rt: HostRuntime) {
    hold::<Bodies>(&rt, rt.alloc())
}
