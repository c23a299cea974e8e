use crate::loading::load;
use crate::stop::{Stop, stop_text};
use crate::trial::{Trial, trial_of};
use example_files::{Row, row_of, written_out};
use std::alloc::{AllocError, Global};

/// Patch text, of which a row has the lines between semicolons.
fn lines_of(alloc: Global, given: &str) -> Result<String, AllocError> {
    let mut text = String::new(alloc);
    for line in given.split(';') {
        text.push_str(written_out(alloc, line)?.as_str())?;
        text.push_str("\n")?;
    }
    Ok(text)
}

/// The trial of a row.
fn trial_in(alloc: Global, row: &Row) -> Result<Trial, Stop> {
    let text = lines_of(alloc, row.given)?;
    let loaded = load(alloc, row.changes)?;
    trial_of(alloc, &loaded, text.as_str())
}

/// What is wrong with patches that went into a module.
fn wrong_in(alloc: Global, trial: &Trial, expected: &str) -> Result<Option<String>, AllocError> {
    if trial.said.as_str().trim() != expected {
        return Ok(Some(String::from_str(alloc, trial.said.as_str())?));
    }
    if trial.file.as_slice() != trial.wanted.as_slice() {
        return Ok(Some(String::from_str(alloc, "another graph")?));
    }
    Ok(None)
}

/// What is wrong with a row, if anything.
pub fn judged(alloc: Global, text: &str) -> Result<Option<String>, AllocError> {
    let Some(row) = row_of(text) else {
        return Ok(Some(String::from_str(alloc, "nothing, since nothing is expected")?));
    };
    match trial_in(alloc, &row) {
        Ok(trial) => wrong_in(alloc, &trial, row.expected),
        Err(stop) => {
            let said = stop_text(&stop)?;
            if said == row.expected {
                Ok(None)
            } else {
                Ok(Some(String::from_str(alloc, said)?))
            }
        }
    }
}
