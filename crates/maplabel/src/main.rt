//! The program `maplabel`: which names a zoomable map shows.
//!
//! - [`start`]: the whole program over what the process was given ([`start`](start::start)), which `main`
//!   calls with real objects; [`program`]: the program over the objects that it works on; [`run`]: the top
//!   call ([`run`](run::run)); [`status`]: how it ends;
//! - [`serving`]: one connection, or those of a door; [`generating`]: maps that are generated, edited and
//!   counted; [`printing`]: what is printed;
//! - [`laws`]: laws of what a run comes to.
//!
//! What the words ask for, and what is answered of files alone, is in `ml_command`.
#![tactic(auto)]

pub mod generating;
pub mod laws;
pub mod printing;
pub mod program;
pub mod run;
pub mod serving;
pub mod start;
pub mod status;

use crate::start::start;
use ml_io::{RealErrors, RealFiles, RealInput, RealOutput, TcpDoor};
use std::process::ExitCode;
use std::{env, io};

// What the process was given: the program's name and the words behind it.
fn values_of(rt: &HostRuntime) -> io::Result<Vec<String>> {
    let mut values = Vec::new(rt.alloc());
    for value in env::args(rt)? {
        values.push(value)?;
    }
    Ok(values)
}

fn main(rt: HostRuntime) -> ExitCode {
    let values = values_of(&rt);
    let errors = RealErrors::new(rt.stderr());
    let mut files = RealFiles::new(&rt);
    let mut input = RealInput::new(rt.stdin());
    let mut out = RealOutput::new(rt.stdout());
    let mut door = TcpDoor::new(&rt);
    start(
        rt.alloc(),
        values,
        errors,
        &mut files,
        &mut input,
        &mut out,
        &mut door,
    )
}

#[cfg(test)]
mod follow_tests;
#[cfg(test)]
mod map_tests;
#[cfg(test)]
mod serve_tests;
#[cfg(test)]
mod tests;
#[cfg(test)]
mod zoom_tests;
