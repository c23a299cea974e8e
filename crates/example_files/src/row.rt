/// The row that a line has. Blank lines and comments, which begin with `#`, have none.
pub fn row_in(line: &str) -> Option<&str> {
    let text = line.trim();
    if text.is_empty() || text.starts_with('#') {
        None
    } else {
        Some(text)
    }
}

/// A row `GIVEN | CHANGES => EXPECTED => MORE`, in which the changes and what is expected more may be left out.
#[derive(Clone, Copy, Debug, PartialEq, Eq, Drop)]
pub struct Row<'a> {
    pub given: &'a str,
    pub changes: &'a str,
    pub expected: &'a str,
    pub more: Option<&'a str>,
}

/// The parts of a row, if it expects something.
pub fn row_of(text: &str) -> Option<Row> {
    let Some((left, right)) = text.split_once("=>") else {
        return None;
    };
    let (given, changes) = left.split_once('|').unwrap_or((left, ""));
    let (expected, more) = match right.split_once("=>") {
        Some((expected, more)) => (expected, Some(more.trim())),
        None => (right, None),
    };
    Some(Row {
        given: given.trim(),
        changes: changes.trim(),
        expected: expected.trim(),
        more,
    })
}
