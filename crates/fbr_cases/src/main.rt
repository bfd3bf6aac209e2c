//! Room: cases. Runs cases: each file of the folders that the words name holds inputs and the answers that the product is to give.
#![tactic(auto)]

mod files;
mod programs;
mod tally;

use crate::files::run_folder;
use crate::tally::Tally;
use std::io;
use std::process::ExitCode;

// Runs the cases of all folders.
fn run(rt: &HostRuntime) -> io::Result<Tally> {
    let mut all = Tally::new();
    for folder in std::env::args(rt)?.skip(1) {
        let found = run_folder(rt, folder.as_str())?;
        all.add(found);
    }
    eprintln!(rt; "{} passed, {} failed", all.passed, all.failed)?;
    Ok(all)
}

fn main(rt: HostRuntime) -> ExitCode {
    match run(&rt) {
        Ok(all) if all.failed == 0 => ExitCode::from(0),
        _ => ExitCode::from(1),
    }
}
