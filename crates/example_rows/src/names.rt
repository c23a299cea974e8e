use std::alloc::{AllocError, Global};

/// What a name stands for, in a table of lines `NAME = WORDS`.
pub fn named<'a>(table: &'a str, name: &str) -> Option<&'a str> {
    for line in table.split('\n') {
        if let Some((left, right)) = line.split_once(" = ") {
            if left.trim() == name {
                return Some(right.trim());
            }
        }
    }
    None
}

/// Changes, in which each that is a name stands for the changes of that name.
pub fn written_changes(alloc: Global, table: &str, changes: &str) -> Result<String, AllocError> {
    let mut out = String::new(alloc);
    for change in changes.split(';') {
        let change = change.trim();
        out.push_str(named(table, change).unwrap_or(change))?;
        out.push_str("; ")?;
    }
    Ok(out)
}
