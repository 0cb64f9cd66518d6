//! Runs the rows of the files that its words name: each says how the program is to end on some words and an input. It
//! prints how many runs ended so, after lines for those that didn't.
#![tactic(auto)]

mod file;
mod run;

use crate::file::run_rows;
use crate::run::Tally;
use abc_rows_text::Fault;
use std::process::ExitCode;
use std::rt::{Env, Files};
use std::{env, fs};

/// Runs the rows of each file.
fn run_files<R: AllocGlobal + Env + Files + Print>(rt: &R, tally: &mut Tally) -> Result<(), Fault> {
    for path in env::args(rt)?.skip(1) {
        let text = fs::read_to_string(rt, path.as_str())?;
        run_rows(rt, text.as_str(), tally)?;
    }
    Ok(())
}

fn main(rt: HostRuntime) -> Result<ExitCode, Fault> {
    let mut tally = Tally {
        passed: 0,
        failed: 0,
    };
    run_files(&rt, &mut tally)?;
    println!(rt; "{} passed, {} failed", tally.passed, tally.failed)?;
    Ok(if tally.failed == 0 {
        ExitCode::SUCCESS
    } else {
        ExitCode::FAILURE
    })
}
