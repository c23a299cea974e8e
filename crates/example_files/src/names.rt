/// The words that a change `NAME words` gives to a name.
fn given<'a>(change: &'a str, name: &str) -> Option<&'a str> {
    let words = change.trim().strip_prefix(name)?;
    if words.is_empty() || words.starts_with(' ') {
        Some(words)
    } else {
        None
    }
}

/// Whether a word may be a name, which begins with a capital letter.
pub(crate) fn is_name(word: &str) -> bool {
    matches!(word.as_bytes(), [b'A'..=b'Z', ..])
}

/// The words that the first change of a name gives to it.
pub(crate) fn meaning<'a>(changes: &'a str, name: &str) -> Option<&'a str> {
    for change in changes.split(';') {
        if let Some(words) = given(change, name) {
            return Some(words);
        }
    }
    None
}
