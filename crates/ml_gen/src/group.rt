//! Groups of a generated map.
ghost use Rattle.std.specs.Prelude.{◌≡◌, ◌*◌, ◌<◌, ◌≤◌, ◌+ℤ◌, ◌-ℤ◌, pos, length, All, IfOk};
ghost use Rattle.ml_gen.specs.Group.{next_number as follower, placed, groups_in, group_in_turn, order, IsNear, IsGroupPlace, HaveOwnNumbers};

use std::alloc::{AllocError, Global};

/// The most groups of a map.
pub const MOST_GROUPS: u32 = 6000;

/// A group of a map: its number and its place, in world units.
#[derive(Clone, Copy, Debug, PartialEq, Eq)]
pub struct Group {
    pub number: u32,
    pub x: i64,
    pub y: i64,
}

// The number that follows another.
#[tactic(auto, unfolding(crate::specs::Group::next_number))]
fn next_number(z: u64) -> u64
    ensures { result ≡ follower z }
{
    let product = z as u128 * 6_364_136_223_846_793_005;
    ((product + 1_442_695_040_888_963_407) % 18_446_744_073_709_551_616) as u64
}

// A coordinate of a group in a column or row, moved so far.
fn coordinate(line: u32, by: u64) -> i64
    requires few { line < 80 }
    requires low { by < 100000 }
    ensures value { result ≡ pos (line * 10000000) -ℤ pos 400000000 +ℤ pos by }
    ensures near { IsNear result }
{
    line as i64 * 10_000_000 - 400_000_000 + by as i64
}

// The group with this number, put where `z` moves it.
fn placed_group(number: u32, z: u64) -> Group
    requires { number < MOST_GROUPS }
    ensures group { result ≡ placed number z }
    ensures near { IsGroupPlace result }
{
    Group {
        number,
        x: coordinate(number % 80, z / 4_294_967_296 % 100_000),
        y: coordinate(number / 80, z % 100_000),
    }
}

/// The groups of a map of so many, in order.
///
/// # Errors
/// Out of memory.
pub fn groups_of(alloc: Global, count: u32, seed: u32) -> Result<Vec<Group>, AllocError>
    requires { count ≤ MOST_GROUPS }
    ensures groups { IfOk result (λ groups. groups.items ≡ groups_in count seed) }
    ensures placed { IfOk result (λ groups. All IsGroupPlace groups.items) }
    ensures own { IfOk result (λ groups. HaveOwnNumbers groups.items) }
{
    let mut groups = Vec::new(alloc);
    let mut z = seed as u64;
    for number in 0..count {
        z = next_number(z);
        groups.push(placed_group(number, z))?;
    }
    Ok(groups)
}

// The group that is edited in this turn.
fn group_at(groups: &[Group], turn: usize, seed: u32) -> Group
    requires all { groups.now ≡ groups_in (length groups.now) seed }
    requires placed { All IsGroupPlace groups.now }
    requires few { length groups.now ≤ MOST_GROUPS }
    requires turn { turn < length groups.now }
    ensures is { result ≡ group_in_turn (length groups.now) seed turn }
    ensures placed { IsGroupPlace result }
{
    let at = (turn + seed as usize) % groups.len();
    groups[at]
}

/// The groups in the order in which they are edited.
///
/// # Errors
/// Out of memory.
pub fn order_of(alloc: Global, groups: &[Group], seed: u32) -> Result<Vec<Group>, AllocError>
    requires all { groups.now ≡ groups_in (length groups.now) seed }
    requires placed { All IsGroupPlace groups.now }
    requires few { length groups.now ≤ MOST_GROUPS }
    ensures order { IfOk result (λ found. found.items ≡ order (length groups.now) seed) }
    ensures placed { IfOk result (λ found. All IsGroupPlace found.items) }
    ensures own { IfOk result (λ found. HaveOwnNumbers found.items) }
{
    let mut found = Vec::new(alloc);
    for e in 0..groups.len() {
        found.push(group_at(groups, e, seed))?;
    }
    Ok(found)
}
