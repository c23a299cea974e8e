use crate::group::{Group, Kind};
use crate::judge::judged;
use crate::line::{Line, line_of};
use example_files::{Count, Verdict};
use std::rt::{Env, Files};
use std::{env, fs, io};

/// Judges a row, and prints it where it is wrong.
fn report_row(
    rt: &(impl Print + AllocGlobal),
    table: &str,
    group: &Group,
    row: &str,
) -> io::Result<Verdict> {
    match judged(rt.alloc(), table, group, row)? {
        None => Ok(Verdict::Right),
        Some(said) => {
            println!(rt; "{row}\n  says {said}")?;
            Ok(Verdict::Wrong)
        }
    }
}

/// Judges all rows of a text.
fn count_rows(rt: &(impl Print + AllocGlobal), table: &str, text: &str) -> io::Result<Count> {
    let mut count = Count::new();
    let mut group = Group::new(rt.alloc(), Kind::Unknown);
    for line in text.split('\n') {
        match line_of(line) {
            Line::Nothing => {}
            Line::Heading(name, words) => group.take(rt.alloc(), name, words)?,
            Line::Row(row) => count.add(report_row(rt, table, &group, row)?),
        }
    }
    Ok(count)
}

/// Judges the rows of a file, and prints how many there are and how many are wrong.
fn report_file(
    rt: &(impl Files + Print + AllocGlobal),
    table: &str,
    name: &str,
) -> io::Result<Verdict> {
    let text = fs::read_to_string(rt, name)?;
    let count = count_rows(rt, table, text.as_str())?;
    println!(rt; "{name}: {} rows, {} wrong", count.rows, count.wrong)?;
    Ok(count.verdict())
}

/// Judges the rows of all files that the arguments name behind the first, which names the table of names.
pub fn report_all(rt: &(impl Env + Files + Print + AllocGlobal)) -> io::Result<Verdict> {
    let mut files = Count::new();
    let mut table = String::new(rt.alloc());
    for (place, name) in env::args(rt)?.skip(1).enumerate() {
        if place == 0 {
            table = fs::read_to_string(rt, name.as_str())?;
        } else {
            files.add(report_file(rt, table.as_str(), name.as_str())?);
        }
    }
    Ok(files.verdict())
}
