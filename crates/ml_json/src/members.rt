//! Steps between a map's members, and the members in byte order of their keys.
ghost use Rattle.std.specs.Prelude.{◌≡◌, ◌<◌, length, IfOk};
ghost use Rattle.ml_json.specs.Machine.{key_step, first_key_step, colon_step};
ghost use Rattle.ml_json.specs.State.{Goes, Steps, frames_of, members_view};
ghost use Rattle.ml_json.specs.Tree.{no_pairs, put};
ghost use Rattle.ml_json.specs.Lent.{lent_of, lent_pairs_view};

use crate::brackets::is_space;
use crate::lent::{Lent, LentPair, LentText};
use crate::sorted::{list_of_tree, put_in_list, put_in_tree, tree_of_list};
use crate::state::{Frame, Members, Mode, Open, Owner, Sorted, Stop};
use std::alloc::{AllocError, Global};

// Of so many members the latest few are compared one by one sooner than a tree is searched.
const MOST_IN_LIST: usize = 16;

/// The mode behind a byte between a comma and a key.
pub fn key_next<'a>(alloc: Global, members: Members<'a>, byte: u8) -> Result<Mode<'a>, Stop>
    ensures { Goes result (λ st. key_step (members_view members.entry) st byte) }
{
    if is_space(byte) {
        return Ok(Mode::Key(members));
    }
    if byte == b'"' {
        return Ok(Mode::Text(Open {
            owner: Owner::Key(members),
            half: None,
            text: String::new(alloc),
        }));
    }
    Err(Stop::NotJson)
}

/// The mode behind a byte between a map's brace and its first key or its end.
pub fn first_key_next<'a>(alloc: Global, byte: u8) -> Result<Mode<'a>, Stop>
    ensures { Goes result (λ st. first_key_step st byte) }
{
    if is_space(byte) {
        return Ok(Mode::FirstKey);
    }
    match byte {
        b'}' => Ok(Mode::After(Lent::Map(Vec::new(alloc)))),
        b'"' => Ok(Mode::Text(Open {
            owner: Owner::Key(no_members(alloc)),
            half: None,
            text: String::new(alloc),
        })),
        _ => Err(Stop::NotJson),
    }
}

/// The mode behind a byte between a key and its colon.
#[tactic(auto, using(crate::proofs::FrameLemmas::frames_length), unfolding(crate::specs::Machine::open_of))]
pub fn colon_next<'a>(
    members: Members<'a>,
    key: LentText<'a>,
    frames: &mut Vec<Frame<'a>>,
    byte: u8,
) -> Result<Mode<'a>, Stop>
    requires { length frames.old.items < 64 }
    ensures { Steps result frames.new.items
        (colon_step (members_view members.entry) key.entry (frames_of frames.old.items) byte) }
{
    if is_space(byte) {
        return Ok(Mode::Colon(members, key));
    }
    if byte != b':' {
        return Err(Stop::NotJson);
    }
    frames.push(Frame::Map(members, key))?;
    Ok(Mode::Value)
}

/// No members yet.
pub fn no_members<'a>(alloc: Global) -> Members<'a>
    ensures { members_view result ≡ no_pairs }
{
    Members::Few(Sorted {
        pairs: Vec::new(alloc),
    })
}

/// Puts the value at its key, in place of one that was there.
pub fn put_member<'a>(
    alloc: Global,
    members: Members<'a>,
    key: LentText<'a>,
    value: Lent<'a>,
) -> Result<Members<'a>, AllocError>
    ensures { IfOk result (λ after.
        members_view after ≡ put key.entry (lent_of value.entry) (members_view members.entry)) }
{
    match members {
        Members::Few(few) => if few.pairs.len() < MOST_IN_LIST {
            Ok(Members::Few(put_in_list(few, key, value)?))
        } else {
            let mut tree = tree_of_list(alloc, few)?;
            put_in_tree(&mut tree, key, value)?;
            Ok(Members::Many(tree))
        },
        Members::Many(mut tree) => {
            put_in_tree(&mut tree, key, value)?;
            Ok(Members::Many(tree))
        }
    }
}

/// The members as pairs, in order.
pub fn list_of_members<'a>(
    alloc: Global,
    members: Members<'a>,
) -> Result<Vec<LentPair<'a>>, AllocError>
    ensures { IfOk result (λ pairs. lent_pairs_view pairs.items ≡ members_view members.entry) }
{
    match members {
        Members::Few(few) => Ok(few.pairs),
        Members::Many(tree) => list_of_tree(alloc, tree),
    }
}
