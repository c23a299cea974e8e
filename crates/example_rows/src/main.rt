//! Checks what the program says and writes of an example file with changes: each row of the files that the arguments
//! name is a job, the changes, and what the program must say. The first argument is a file of names that rows use.
#![tactic(auto)]

mod desk;
mod expected;
mod group;
mod judge;
mod line;
mod names;
mod program;
mod report;

use example_files::Verdict;
use report::report_all;
use std::process::ExitCode;

fn main(rt: HostRuntime) -> ExitCode {
    match report_all(&rt) {
        Ok(Verdict::Right) => ExitCode::from(0),
        Ok(Verdict::Wrong) => ExitCode::from(1),
        Err(_) => {
            let _ = rt.eprintln("a file of rows can't be read, or there isn't enough memory");
            ExitCode::from(1)
        }
    }
}
