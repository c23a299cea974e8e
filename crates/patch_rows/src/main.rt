//! Checks what patches move in the graph of an example file, and that the graph is then that of the repaired IR: each row
//! of the files that the arguments name has lines of patch text between semicolons, changes of the example, and what moves.
#![tactic(auto)]

mod judge;
mod loading;
mod report;
mod said;
mod stop;
mod trial;

use example_files::Verdict;
use report::report_all;
use std::process::ExitCode;

fn main(rt: HostRuntime) -> ExitCode {
    match report_all(&rt) {
        Ok(Verdict::Right) => ExitCode::from(0),
        Ok(Verdict::Wrong) => ExitCode::from(1),
        Err(_) => {
            let _ = rt.eprintln("a file of rows can't be read, or there isn't enough memory");
            ExitCode::from(1)
        }
    }
}
