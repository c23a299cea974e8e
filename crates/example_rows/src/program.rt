use crate::names::named;
use std::alloc::{AllocError, Global};

/// A program while it is spelled: the number of its words, their bytes and their expressions.
#[derive(Drop)]
struct Draft {
    words: u64,
    contents: String,
    expressions: String,
}

/// Appends a word in little-endian bytes, and its expression where it has one.
fn put_word(draft: &mut Draft, alloc: Global, word: &str, target: &str) -> Result<(), AllocError> {
    let at = draft.words.saturating_mul(4);
    draft.words = draft.words.saturating_add(1);
    draft.contents.push(' ')?;
    for byte in [6..8, 4..6, 2..4, 0..2] {
        draft.contents.push_str(word.get(byte).unwrap_or("?"))?;
    }
    if !target.is_empty() {
        let (symbol, offset) = target.split_once('+').unwrap_or((target, "0"));
        let expression = format!(in alloc;
            " 1a{{ 08 v{at} 12{{ 12{{ 08 v{offset} 12 u{symbol} }} }} }}"
        )?;
        draft.expressions.push_str(expression.as_str())?;
    }
    Ok(())
}

/// The word of an instruction, and what its operand names. One that the table doesn't have is no word.
fn word_of<'a>(table: &'a str, instruction: &str) -> (&'a str, &'a str) {
    match named(table, instruction) {
        Some(word) => word.split_once('@').unwrap_or((word, "")),
        None => ("?", ""),
    }
}

/// Appends an instruction, as often as a number before a star says.
fn put_instruction(
    draft: &mut Draft,
    alloc: Global,
    table: &str,
    text: &str,
) -> Result<(), AllocError> {
    let (count, instruction) = text.split_once('*').unwrap_or(("1", text));
    let Ok(count) = count.trim().parse::<u64>() else {
        return put_word(draft, alloc, "?", "");
    };
    let (word, target) = word_of(table, instruction.trim());
    for _ in 0..count {
        put_word(draft, alloc, word, target)?;
    }
    Ok(())
}

/// The words of a program.
fn draft_of(alloc: Global, table: &str, program: &str) -> Result<Draft, AllocError> {
    let mut draft = Draft {
        words: 0,
        contents: String::new(alloc),
        expressions: String::new(alloc),
    };
    for text in program.split(';') {
        put_instruction(&mut draft, alloc, table, text)?;
    }
    Ok(draft)
}

/// The changes of the example that make a program of it, which stands in one code block. Another one exits behind it.
pub fn spelled(alloc: Global, table: &str, program: &str) -> Result<String, AllocError> {
    let draft = draft_of(alloc, table, program)?;
    let len = draft.words.saturating_mul(4);
    let size = len.saturating_add(8);
    let mut out = format!(in alloc;
        "SIZE 30 v{size}; CODE 12{{ 12{{ 0a u05 18 v{len} }} }} 12{{ 08 v{len} 12{{ 0a u0b 18 v8 }} }}; "
    )?;
    out.push_str("CONTENTS 3a{")?;
    out.push_str(draft.contents.as_str())?;
    out.push_str(" a80b80d2 010000d4 }; EXPRESSIONS")?;
    out.push_str(draft.expressions.as_str())?;
    Ok(out)
}
