//! Checks what becomes of the graph of an example file: each row of the files that the arguments name has actions,
//! changes of the example, and other changes with which the example is what the graph is afterwards.
#![tactic(auto)]

mod act;
mod edges;
mod find;
mod judge;
mod nodes;
mod report;
mod settings;
mod stop;
mod trial;
mod words;

use example_files::Verdict;
use report::report_all;
use std::process::ExitCode;

fn main(rt: HostRuntime) -> ExitCode {
    match report_all(&rt) {
        Ok(Verdict::Right) => ExitCode::from(0),
        Ok(Verdict::Wrong) => ExitCode::from(1),
        Err(_) => {
            let _ = rt.eprintln("a file of rows can't be read, or there isn't enough memory");
            ExitCode::from(1)
        }
    }
}
