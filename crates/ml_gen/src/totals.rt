//! What a generated map has, what its edits came to, and the line that tells it.
ghost use Rattle.std.specs.Prelude.{◌≡◌, ◌≤◌, length, IfOk};
ghost use Rattle.ml_gen.specs.Totals.{HasNumbers, AreSums, totals_text};

use crate::counts::{Counts, all_changes, all_evaluated, all_shown};
use ml_editor::Editor;
use ml_ratio::Seq;
use std::alloc::{AllocError, Global};

/// How many groups a map was made of, how many features and labels it has, how many edits were made,
/// what came of them, and the last revision.
#[derive(Clone, Copy, Debug, PartialEq, Eq)]
pub struct Totals {
    pub groups: u32,
    pub features: usize,
    pub labels: usize,
    pub edits: usize,
    pub shown: u128,
    pub changes: u128,
    pub evaluated: u64,
    pub rev: u64,
}

/// The totals of a map of so many groups, of whose edits this came.
pub(crate) fn totals_of(editor: &Editor, groups: u32, each: &[Counts]) -> Totals
    requires { length each.now ≤ 12000 }
    ensures groups { result.groups ≡ groups }
    ensures numbers { HasNumbers editor.now.state result.features result.labels result.rev }
    ensures sums { AreSums each.now result.edits result.shown result.changes result.evaluated }
{
    Totals {
        groups,
        features: editor.features(),
        labels: editor.labels(),
        edits: each.len(),
        shown: all_shown(each),
        changes: all_changes(each),
        evaluated: all_evaluated(each),
        rev: editor.rev(),
    }
}

/// The line of totals: `groups 20 features 100 labels 100 edits 40 shown 60 changes 120 evaluated 100
/// rev 40`, with a line feed behind it.
///
/// # Errors
/// Out of memory.
pub fn totals_line(alloc: Global, totals: &Totals) -> Result<Seq<u8>, AllocError>
    ensures { IfOk result (λ line. line ≡ totals_text totals.now) }
{
    let Totals {
        groups,
        features,
        labels,
        edits,
        shown,
        changes,
        evaluated,
        rev,
    } = *totals;
    let line = format!(in alloc;
        "groups {groups} features {features} labels {labels} edits {edits} shown {shown} changes {changes} evaluated {evaluated} rev {rev}\n"
    )?;
    Ok(Seq::of_vec(line.into_bytes()))
}
