use crate::desk::{desk_of, said};
use crate::expected::wrong_with;
use crate::group::{Group, Kind};
use example_files::{Row, SpellingFault, row_of};
use gr_base::End;
use std::alloc::{AllocError, Global};

/// A job with the further words of a row.
fn job_line(alloc: Global, group: &Group, job: &str, row: &Row) -> Result<String, AllocError> {
    if group.kind == Kind::Options {
        format!(in alloc; "{job} {}", row.given)
    } else {
        String::from_str(alloc, job)
    }
}

/// What is wrong with the first of a group's jobs that isn't what a row expects.
fn wrong_in(
    alloc: Global,
    table: &str,
    group: &Group,
    row: &Row,
) -> Result<Option<String>, End<SpellingFault>> {
    let mut desk = desk_of(alloc, table, group, row)?;
    for job in group.job.split(';') {
        let line = job_line(alloc, group, job, row)?;
        let said = said(alloc, &mut desk, line.as_str())?;
        let wrong = wrong_with(alloc, group, row, &desk, said)?;
        if wrong.is_some() {
            return Ok(wrong);
        }
    }
    Ok(None)
}

/// What is wrong with a row of a group, if anything.
pub fn judged(
    alloc: Global,
    table: &str,
    group: &Group,
    text: &str,
) -> Result<Option<String>, AllocError> {
    let Some(row) = row_of(text) else {
        return Ok(Some(String::from_str(alloc, "nothing, since nothing is expected")?));
    };
    if group.kind == Kind::Unknown {
        return Ok(Some(String::from_str(alloc, "nothing, since the rows have no kind")?));
    }
    match wrong_in(alloc, table, group, &row) {
        Ok(wrong) => Ok(wrong),
        Err(End::Fault(fault)) => Ok(Some(format!(in alloc;
            "nothing, since there is no file: {fault:?}"
        )?)),
        Err(End::Memory) => Err(AllocError),
    }
}
