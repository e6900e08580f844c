//! The JSON texts of an edit and of a revision.
//!
//! What stands between the values of their members is always the same, so it is put down as it is, and
//! no tree of values is made.
ghost use Rattle.std.specs.Prelude.{◌≡◌, ◌++◌, map, false, IfOk, OnOk};
ghost use Rattle.serde_json.specs.View.{items_of};
ghost use Rattle.serde_json.specs.Written.{comma_if, compact_text, items_text};
ghost use Rattle.ml_answer.specs.Edit.{span_data, change_data, edit_text, rev_text};
ghost use Rattle.ml_answer.specs.Layout.{ends_text, spans_text, change_text, rev_end, edit_layout, rev_layout};

use crate::push::{push_byte, push_comma, push_digits, push_ratio, push_string};
use ml_cone::Span;
use ml_ratio::Seq;
use ml_watch::Change;
use std::alloc::{AllocError, Global};

// The bytes for which room is taken at first, enough for some five changes.
const ROOM: usize = 500;

// The bytes that a revision takes at most: three numbers of at most 20 digits, and their names.
const REV_ROOM: usize = 100;

/// The text of an edit that made the revision `rev`, with its changes in order, as
/// `{"changes":[{"after":["0/1","1000/1"],"before":null,"id":"A"}],"rev":1}`, with no end of line.
///
/// # Errors
/// Out of memory.
pub fn edit_json(alloc: Global, rev: u64, changes: &Seq<Change>) -> Result<Seq<u8>, AllocError>
    ensures { IfOk result (λ text. text ≡ edit_text rev changes.now) }
{
    let mut text = Vec::with_capacity(alloc, ROOM)?;
    push_edit(&mut text, rev, changes.as_slice())?;
    Ok(Seq::of_vec(text))
}

/// The text of the revision `rev` of a map with so many features and labels, as
/// `{"features":0,"labels":0,"rev":0}`, with no end of line.
///
/// # Errors
/// Out of memory.
pub fn rev_json(
    alloc: Global,
    rev: u64,
    features: usize,
    labels: usize,
) -> Result<Seq<u8>, AllocError>
    ensures { IfOk result (λ text. text ≡ rev_text rev features labels) }
{
    let mut text = Vec::with_capacity(alloc, REV_ROOM)?;
    push_counts(&mut text, rev, features, labels)?;
    Ok(Seq::of_vec(text))
}

// Adds a revision.
fn push_counts(
    text: &mut Vec<u8>,
    rev: u64,
    features: usize,
    labels: usize,
) -> Result<(), AllocError>
    ensures { OnOk result (text.new.items ≡ text.old.items ++ rev_layout rev features labels) }
{
    text.extend_from_slice(b"{\"features\":")?;
    push_digits(text, features as u64)?;
    text.extend_from_slice(b",\"labels\":")?;
    push_digits(text, labels as u64)?;
    push_rev(text, rev)
}

// Adds an edit.
fn push_edit(text: &mut Vec<u8>, rev: u64, changes: &[Change]) -> Result<(), AllocError>
    ensures { OnOk result (text.new.items ≡ text.old.items ++ edit_layout rev changes.now) }
{
    text.extend_from_slice(b"{\"changes\":[")?;
    push_changes(text, changes)?;
    push_rev(text, rev)
}

// Adds the number of a revision, and the end.
fn push_rev(text: &mut Vec<u8>, rev: u64) -> Result<(), AllocError>
    ensures { OnOk result (text.new.items ≡ text.old.items ++ rev_end rev) }
{
    text.extend_from_slice(b",\"rev\":")?;
    push_digits(text, rev)?;
    push_byte(text, b'}')
}

// Adds changes and the end of their list.
fn push_changes(text: &mut Vec<u8>, changes: &[Change]) -> Result<(), AllocError>
    ensures { OnOk result
        (text.new.items
        ≡ text.old.items ++ items_text false (items_of (map change_data changes.now))) }
{
    let mut later = false;
    for change in changes {
        push_next(text, later, change)?;
        later = true;
    }
    push_byte(text, b']')
}

// Adds a change, behind a comma where others stand before it.
fn push_next(text: &mut Vec<u8>, later: bool, change: &Change) -> Result<(), AllocError>
    ensures { OnOk result
        (text.new.items
        ≡ text.old.items ++ (comma_if later ++ compact_text (change_data change.now))) }
{
    push_comma(text, later)?;
    push_change(text, change)
}

// Adds a change.
fn push_change(text: &mut Vec<u8>, change: &Change) -> Result<(), AllocError>
    ensures { OnOk result
        (text.new.items ≡ text.old.items ++ compact_text (change_data change.now)) }
{
    push_members(text, change)
}

// The same, member by member.
fn push_members(text: &mut Vec<u8>, change: &Change) -> Result<(), AllocError>
    ensures { OnOk result (text.new.items ≡ text.old.items ++ change_text change.now) }
{
    push_spans(text, change)?;
    text.extend_from_slice(b",\"id\":")?;
    push_string(text, change.id.as_str())?;
    push_byte(text, b'}')
}

// Adds what comes up to the id: the spans after and before the edit.
fn push_spans(text: &mut Vec<u8>, change: &Change) -> Result<(), AllocError>
    ensures { OnOk result (text.new.items ≡ text.old.items ++ spans_text change.now) }
{
    text.extend_from_slice(b"{\"after\":")?;
    push_span(text, change.after)?;
    text.extend_from_slice(b",\"before\":")?;
    push_span(text, change.before)
}

// Adds a span, if there is one.
fn push_span(text: &mut Vec<u8>, span: Option<Span>) -> Result<(), AllocError>
    ensures { OnOk result (text.new.items ≡ text.old.items ++ compact_text (span_data span)) }
{
    match span {
        Some(span) => push_ends(text, span),
        None => text.extend_from_slice(b"null"),
    }
}

// Adds where a span begins and where it ends.
fn push_ends(text: &mut Vec<u8>, span: Span) -> Result<(), AllocError>
    ensures { OnOk result (text.new.items ≡ text.old.items ++ ends_text span) }
{
    text.push(b'[')?;
    push_ratio(text, span.min)?;
    text.push(b',')?;
    push_ratio(text, span.until)?;
    push_byte(text, b']')
}
