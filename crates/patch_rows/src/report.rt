use crate::judge::judged;
use example_files::{Count, Verdict, row_in};
use std::rt::{Env, Files};
use std::{env, fs, io};

/// Judges a row, and prints it where it is wrong.
fn report_row(rt: &(impl Print + AllocGlobal), row: &str) -> io::Result<Verdict> {
    match judged(rt.alloc(), row)? {
        None => Ok(Verdict::Right),
        Some(said) => {
            println!(rt; "{row}\n  gives {said}")?;
            Ok(Verdict::Wrong)
        }
    }
}

/// Judges all rows of a text.
fn count_rows(rt: &(impl Print + AllocGlobal), text: &str) -> io::Result<Count> {
    let mut count = Count::new();
    for line in text.split('\n') {
        if let Some(row) = row_in(line) {
            count.add(report_row(rt, row)?);
        }
    }
    Ok(count)
}

/// Judges the rows of a file, and prints how many there are and how many are wrong.
fn report_file(rt: &(impl Files + Print + AllocGlobal), name: &str) -> io::Result<Verdict> {
    let text = fs::read_to_string(rt, name)?;
    let count = count_rows(rt, text.as_str())?;
    println!(rt; "{name}: {} rows, {} wrong", count.rows, count.wrong)?;
    Ok(count.verdict())
}

/// Judges the rows of all files that the arguments name.
pub fn report_all(rt: &(impl Env + Files + Print + AllocGlobal)) -> io::Result<Verdict> {
    let mut files = Count::new();
    for name in env::args(rt)?.skip(1) {
        files.add(report_file(rt, name.as_str())?);
    }
    Ok(files.verdict())
}
