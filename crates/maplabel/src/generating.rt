//! Maps that are generated, edited and counted.
ghost use Rattle.std.specs.Prelude.{◌≡◌, ◌≤◌, IfOk, IfErr};
ghost use Rattle.ml_style.specs.StyleTable.{IsStyle};
ghost use Rattle.maplabel.specs.Generating.{IsGenStop, IsTotalsOf, sample_style};

use ml_command::Stop;
use ml_command::map_inputs::style_refusal;
use ml_gen::{make_totals, totals_line};
use ml_ratio::Seq;
use ml_style::{SAMPLE, Style, read_style};
use std::alloc::Global;

/// The line of what a map of so many groups, 1 to 6,000, comes to that is generated of this seed and
/// edited.
///
/// # Errors
/// Out of memory.
pub fn totals_of(alloc: Global, groups: u32, seed: u32) -> Result<Seq<u8>, Stop>
    requires some { 1 ≤ groups }
    requires few { groups ≤ 6000 }
    ensures ok { IfOk result (IsTotalsOf groups seed) }
    ensures stop { IfErr result IsGenStop }
{
    let style = sample(alloc)?;
    let totals = make_totals(alloc, style, groups, seed)?;
    Ok(totals_line(alloc, &totals)?)
}

// The sample style.
fn sample(alloc: Global) -> Result<Style, Stop>
    ensures ok { IfOk result (IsStyle sample_style) }
    ensures stop { IfErr result IsGenStop }
{
    match read_style(alloc, sample_text()) {
        Ok(style) => Ok(style),
        Err(fault) => Err(style_refusal(alloc, &fault)),
    }
}

// Its text.
fn sample_text() -> &'static [u8]
    ensures { result.now ≡ sample_style }
{
    SAMPLE.as_bytes()
}
