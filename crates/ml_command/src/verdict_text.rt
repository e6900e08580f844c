//! The line of a verdict.
ghost use Rattle.std.specs.Prelude.{◌≡◌, ◌<◌, [], length, slice_index_or, IfOk, string_bytes};
ghost use Rattle.ml_pass.specs.SlotsText.{ids};
ghost use Rattle.ml_command.specs.VerdictText.{AreItsPlaces, verdict_line};

use ml_cert::Verdict;
use ml_cone::Label;
use std::alloc::{AllocError, Global};

/// The line of a verdict on slots of these labels.
///
/// # Errors
/// Out of memory.
pub fn verdict_line(alloc: Global, labels: &[Label], verdict: Verdict) -> Result<String, AllocError>
    requires { AreItsPlaces labels.now verdict }
    ensures { IfOk result (λ line. string_bytes line ≡ verdict_line (ids labels.now) verdict) }
{
    match verdict {
        Verdict::Best => format!(in alloc; "Best\n"),
        Verdict::BadEnd(i) => {
            let id = id_at(labels, i);
            format!(in alloc; "BadEnd {id}\n")
        }
        Verdict::Clash(i, j, limit) => {
            let id = id_at(labels, i);
            let earlier = id_at(labels, j);
            let limit = limit.text(alloc)?;
            let limit = limit.as_str();
            format!(in alloc; "Clash {id} {earlier} {limit}\n")
        }
        Verdict::Uncovered(i) => {
            let id = id_at(labels, i);
            format!(in alloc; "Uncovered {id}\n")
        }
        Verdict::BadBlocker(i) => {
            let id = id_at(labels, i);
            format!(in alloc; "BadBlocker {id}\n")
        }
    }
}

// The id of the label at a place.
fn id_at(labels: &[Label], i: usize) -> &str
    requires { i < length labels.now }
    ensures { result.now ≡ slice_index_or (ids labels.now) i [] }
{
    labels[i].id().as_str()
}
