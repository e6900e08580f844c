//! What comes of edits.
ghost use Rattle.std.specs.Prelude.{◌≡◌, ◌≤◌, length, sum_by};

/// What comes of one edit: how many labels the view behind it shows, how many changes it makes, and how
/// many labels are evaluated for it.
#[derive(Clone, Copy, Debug, PartialEq, Eq)]
pub struct Counts {
    pub shown: usize,
    pub changes: usize,
    pub evaluated: u32,
}

/// How many labels all views show.
pub(crate) fn all_shown(each: &[Counts]) -> u128
    requires { length each.now ≤ 12000 }
    ensures { result ≡ sum_by (λ counts. counts.shown) each.now }
{
    let mut sum = 0;
    for counts in each {
        sum += counts.shown as u128;
    }
    sum
}

/// How many changes all edits make.
pub(crate) fn all_changes(each: &[Counts]) -> u128
    requires { length each.now ≤ 12000 }
    ensures { result ≡ sum_by (λ counts. counts.changes) each.now }
{
    let mut sum = 0;
    for counts in each {
        sum += counts.changes as u128;
    }
    sum
}

/// How many labels are evaluated for all edits.
pub(crate) fn all_evaluated(each: &[Counts]) -> u64
    requires { length each.now ≤ 12000 }
    ensures { result ≡ sum_by (λ counts. counts.evaluated) each.now }
{
    let mut sum = 0;
    for counts in each {
        sum += counts.evaluated as u64;
    }
    sum
}
