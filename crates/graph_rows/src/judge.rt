use crate::act::act_all;
use crate::stop::{Stop, stop_text};
use crate::trial::{Trial, example_file, trial_of};
use example_files::{Row, row_of};
use std::alloc::{AllocError, Global};

/// Whether a row expects that something isn't done: changes begin with a name, which is in capital letters.
fn expects_stop(expected: &str) -> bool {
    matches!(expected.as_bytes(), [b'a'..=b'z', ..])
}

/// Whether the graph is spelled as the example with changes.
fn is_example(alloc: Global, trial: &Trial, changes: &str) -> Result<bool, Stop> {
    Ok(trial.file(alloc)?.as_slice() == example_file(alloc, changes)?.as_slice())
}

/// What is wrong with a graph whose actions are done.
fn wrong_after(alloc: Global, trial: &Trial, row: &Row) -> Result<Option<&'static str>, Stop> {
    if expects_stop(row.expected) {
        return Ok(Some("done"));
    }
    if !is_example(alloc, trial, row.expected)? {
        return Ok(Some("another graph"));
    }
    match row.more {
        Some(words) if !trial.has_edges(alloc, words)? => Ok(Some("other edges")),
        _ => Ok(None),
    }
}

/// What is wrong with a graph, of which an action wasn't done.
fn wrong_before(
    alloc: Global,
    trial: &Trial,
    row: &Row,
    stop: &Stop,
) -> Result<Option<String>, Stop> {
    let said = stop_text(alloc, stop)?;
    if said.as_str() != row.expected {
        return Ok(Some(said));
    }
    if is_example(alloc, trial, row.changes)? {
        Ok(None)
    } else {
        Ok(Some(format!(in alloc; "{said}, and another graph")?))
    }
}

/// What is wrong with a row whose file has a graph.
fn wrong_of(alloc: Global, trial: &mut Trial, row: &Row) -> Result<Option<String>, Stop> {
    match act_all(alloc, trial, row.given) {
        Ok(()) => match wrong_after(alloc, trial, row)? {
            Some(said) => Ok(Some(String::from_str(alloc, said)?)),
            None => Ok(None),
        },
        Err(stop) => wrong_before(alloc, trial, row, &stop),
    }
}

/// What is wrong with a row, whether its file has a graph or not.
fn wrong_with(alloc: Global, row: &Row) -> Result<Option<String>, Stop> {
    match trial_of(alloc, row.changes) {
        Ok(mut trial) => wrong_of(alloc, &mut trial, row),
        Err(stop) => {
            let said = stop_text(alloc, &stop)?;
            if said.as_str() == row.expected && matches!(stop, Stop::Links(_)) {
                Ok(None)
            } else {
                Ok(Some(said))
            }
        }
    }
}

/// What is wrong with a row, if anything.
pub fn judged(alloc: Global, text: &str) -> Result<Option<String>, AllocError> {
    let Some(row) = row_of(text) else {
        return Ok(Some(String::from_str(alloc, "nothing, since nothing is expected")?));
    };
    match wrong_with(alloc, &row) {
        Ok(wrong) => Ok(wrong),
        Err(stop) => Ok(Some(stop_text(alloc, &stop)?)),
    }
}
