use crate::draft::Draft;
use crate::names::{is_name, meaning};
use gr_base::End;
use pb_wire::{put_bytes, put_varint};
use std::alloc::{AllocError, Global};

/// Why a text is no file.
#[derive(Clone, Copy, Debug, PartialEq, Eq, Drop)]
pub enum SpellingFault {
    /// A word has no meaning.
    Word,
    /// A message is closed that wasn't opened.
    NotOpen,
    /// A message isn't closed.
    StillOpen,
}

/// The text with each name replaced, by the changes first.
fn replaced(alloc: Global, text: &str, changes: &str, names: &str) -> Result<String, AllocError> {
    let mut out = String::new(alloc);
    for word in text.split_whitespace() {
        let words = if is_name(word) {
            meaning(changes, word).or(meaning(names, word))
        } else {
            None
        };
        out.push_str(words.unwrap_or(word))?;
        out.push(' ')?;
    }
    Ok(out)
}

/// The byte of two hexadecimal digits.
fn byte_of(digits: &str) -> Result<u8, SpellingFault> {
    match u8::from_str_radix(digits, 16) {
        Ok(byte) => Ok(byte),
        Err(_) => Err(SpellingFault::Word),
    }
}

/// The number of decimal digits.
fn number_of(digits: &str) -> Result<u64, SpellingFault> {
    match digits.parse::<u64>() {
        Ok(number) => Ok(number),
        Err(_) => Err(SpellingFault::Word),
    }
}

/// Appends the bytes of hexadecimal digits.
fn put_digits(alloc: Global, draft: &mut Draft, digits: &str) -> Result<(), End<SpellingFault>> {
    match hex::decode(alloc, digits) {
        Ok(bytes) => Ok(draft.inner.extend_from_slice(bytes.as_slice())?),
        Err(_) => Err(End::Fault(SpellingFault::Word)),
    }
}

/// Appends the bytes of a word that is no brace.
fn put_plain(alloc: Global, draft: &mut Draft, word: &str) -> Result<(), End<SpellingFault>> {
    if let Some(digits) = word.strip_prefix('u') {
        return Ok(draft.put_identifier(byte_of(digits).map_err(End::Fault)?)?);
    }
    if let Some(digits) = word.strip_prefix('i') {
        let byte = byte_of(digits).map_err(End::Fault)?;
        return Ok(draft.inner.extend_from_slice(&[byte; 16])?);
    }
    if let Some(digits) = word.strip_prefix('n') {
        let number = number_of(digits).map_err(End::Fault)?;
        return Ok(draft.inner.extend_from_slice(&number.to_le_bytes())?);
    }
    if let Some(digits) = word.strip_prefix('v') {
        let number = number_of(digits).map_err(End::Fault)?;
        return Ok(put_varint(&mut draft.inner, number)?);
    }
    match word.strip_prefix('\'') {
        Some(text) => Ok(put_bytes(&mut draft.inner, text.as_bytes())?),
        None => put_digits(alloc, draft, word),
    }
}

/// Appends a word.
fn put_word(alloc: Global, draft: &mut Draft, word: &str) -> Result<(), End<SpellingFault>> {
    if word == "}" {
        return match draft.close()? {
            Some(()) => Ok(()),
            None => Err(End::Fault(SpellingFault::NotOpen)),
        };
    }
    match word.strip_suffix('{') {
        Some(tag) => {
            put_plain(alloc, draft, tag)?;
            Ok(draft.open(alloc)?)
        }
        None => put_plain(alloc, draft, word),
    }
}

/// The bytes of a text, whose names stand for what the changes give to them, else for what the names do. The words of a
/// name may have names too.
pub fn file_bytes(
    alloc: Global,
    text: &str,
    changes: &str,
    names: &str,
) -> Result<Vec<u8>, End<SpellingFault>> {
    let mut draft = Draft::new(alloc);
    let text = replaced(alloc, text, changes, names)?;
    let text = replaced(alloc, text.as_str(), changes, names)?;
    for word in text.split_whitespace() {
        put_word(alloc, &mut draft, word)?;
    }
    if draft.around.is_empty() {
        Ok(draft.inner)
    } else {
        Err(End::Fault(SpellingFault::StillOpen))
    }
}
