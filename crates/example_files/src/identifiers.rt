use std::alloc::{AllocError, Global};

/// Appends the text of the identifier of sixteen bytes of two digits each.
fn push_identifier(out: &mut String, digits: &str) -> Result<(), AllocError> {
    for bytes in [4, 2, 2, 2, 6] {
        if bytes == 2 || bytes == 6 {
            out.push('-')?;
        }
        for _ in 0..bytes {
            out.push_str(digits)?;
        }
    }
    Ok(())
}

/// Appends a word, in which `uNN` at the start, alone or before a `+`, stands for an identifier. NN begins with a digit.
fn push_word(out: &mut String, word: &str) -> Result<(), AllocError> {
    let (head, offset) = word.split_once('+').unwrap_or((word, ""));
    match head.strip_prefix('u') {
        Some(digits) if matches!(digits.as_bytes(), [b'0'..=b'9', _]) => {
            push_identifier(out, digits)?
        }
        _ => out.push_str(head)?,
    }
    if head.len() < word.len() {
        out.push('+')?;
    }
    out.push_str(offset)
}

/// The words of a line, one space between them, in which `uNN` stands for the text of the identifier of sixteen bytes NN.
pub fn written_out(alloc: Global, line: &str) -> Result<String, AllocError> {
    let mut out = String::new(alloc);
    for word in line.split_whitespace() {
        if !out.is_empty() {
            out.push(' ')?;
        }
        push_word(&mut out, word)?;
    }
    Ok(out)
}
