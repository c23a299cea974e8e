use example_files::row_in;

/// A line of a file of rows.
#[derive(Clone, Copy, Debug, PartialEq, Eq, Drop)]
pub enum Line<'a> {
    /// Blank, or a comment, which begins with `#`.
    Nothing,
    /// A name of what the rows behind it share, a colon, and words.
    Heading(&'a str, &'a str),
    Row(&'a str),
}

fn is_heading(name: &str) -> bool {
    matches!(
        name,
        "rows" | "before" | "job" | "layout" | "changes" | "file" | "made" | "same"
    )
}

/// What a line is.
pub fn line_of(text: &str) -> Line {
    let Some(text) = row_in(text) else {
        return Line::Nothing;
    };
    match text.split_once(':') {
        Some((name, words)) if is_heading(name) => Line::Heading(name, words.trim()),
        _ => Line::Row(text),
    }
}
