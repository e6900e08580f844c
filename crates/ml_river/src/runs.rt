//! Runs: the stretches of a line on which x strictly rises or strictly falls.
ghost use Rattle.std.specs.Prelude.{nat_lt, if◌then◌else◌, Some, ◌≡◌, ◌+◌, ◌<◌, ◌≤◌, ◌↔◌, IsTrue, length, MatchOption};
ghost use Rattle.ml_river.specs.Seen.{extent_of, IsBestBefore};
ghost use Rattle.ml_river.specs.Run.{step, span, line_at, IsEndOfSteps, IsWidestRun, HasNoRun};

use ml_ratio::{Pos, Seq};
use std::cmp::Ordering;

/// A run of positions: those from place `from` to place `to` of the line at place `line`.
#[derive(Clone, Copy)]
pub struct Run {
    pub line: usize,
    pub from: usize,
    pub to: usize,
    /// How far its ends lie apart in x, in world units.
    pub span: u64,
}

// How the x of the position at `k` compares with that of the next.
fn step(line: &[Pos], k: usize) -> Ordering
    requires { k + 1 < length line.now }
    ensures { result ≡ step line.now k }
{
    line[k].x.cmp(&line[k + 1].x)
}

// Whether the steps from `a` and from `b` go the same way.
fn goes_alike(line: &[Pos], a: usize, b: usize) -> bool
    requires a_there { a + 1 < length line.now }
    requires b_there { b + 1 < length line.now }
    ensures { IsTrue result ↔ (step line.now a ≡ step line.now b) }
{
    step(line, a) == step(line, b)
}

// The last place to which all steps from `from` on go the same way.
fn end_of(line: &[Pos], from: usize) -> usize
    requires { from + 1 < length line.now }
    ensures { IsEndOfSteps line.now from result }
{
    let mut end = from + 1;
    while end + 1 < line.len() && goes_alike(line, end, from) {
        end += 1;
    }
    end
}

// How far two positions lie apart in x.
fn span(line: &[Pos], a: usize, b: usize) -> u64
    requires a_there { a < length line.now }
    requires b_there { b < length line.now }
    ensures { result ≡ span line.now a b }
{
    (line[b].x - line[a].x).unsigned_abs()
}

// The run, where it is wider than the best so far.
fn better(best: Option<Run>, run: Run) -> Option<Run>
    ensures { result ≡ (if nat_lt (extent_of best) run.span then Some run else best) }
{
    let widest = match best {
        Some(best) => best.span,
        None => 0,
    };
    if run.span > widest { Some(run) } else { best }
}

// The best run so far, and of one line more.
fn widest_with(lines: &[Seq<Pos>], i: usize, mut best: Option<Run>) -> Option<Run>
    requires there { i < length lines.now }
    requires so_far { IsBestBefore lines.now i 0 best }
    ensures { IsBestBefore lines.now (i + 1) 0 result }
{
    let line = lines[i].as_slice();
    let mut from = 0;
    while from + 1 < line.len() {
        let to = end_of(line, from);
        let span = span(line, from, to);
        best = better(
            best,
            Run {
                line: i,
                from,
                to,
                span,
            },
        );
        from = to;
    }
    best
}

/// Of all runs of the lines the one whose ends lie farthest apart in x, the first at a tie; none
/// where no line has a run.
pub fn widest_run(lines: &[Seq<Pos>]) -> Option<Run>
    ensures { MatchOption result (HasNoRun lines.now)
        (λ run. IsWidestRun lines.now run.line run.from run.to) }
{
    let mut best = None;
    for i in 0..lines.len() {
        best = widest_with(lines, i, best);
    }
    best
}
