//! Where a head ends.
ghost use Rattle.std.specs.Prelude.{◌≡◌, ◌+◌, ◌<◌, ◌≤◌, ℕ, MatchBool, IfSome, IfNone, length};
ghost use Rattle.ml_request.specs.Stream.{IsMarkAt, HasNoMark, IsHeadSize};

// Whether CR LF CR LF stands at this place.
fn has_mark(bytes: &[u8], at: usize) -> bool
    requires { at + 4 ≤ length bytes.now }
    ensures { MatchBool result (IsMarkAt bytes.now at) (¬ (IsMarkAt bytes.now at)) }
{
    let (_, rest) = bytes.split_at(at);
    let (four, _) = rest.split_at(4);
    four == b"\r\n\r\n".as_slice()
}

/// How many bytes there are up to and including the first CR LF CR LF. None begins before the place
/// `searched`.
pub(crate) fn head_size(bytes: &[u8], searched: usize) -> Option<usize>
    requires within { searched ≤ length bytes.now }
    requires before { (k : ℕ) → k < searched → ¬ (IsMarkAt bytes.now k) }
    ensures found { IfSome result (λ size. IsHeadSize bytes.now size) }
    ensures none { IfNone result (HasNoMark bytes.now) }
{
    let mut at = searched;
    while at + 4 <= bytes.len() {
        if has_mark(bytes, at) {
            return Some(at + 4);
        }
        at += 1;
    }
    None
}
