use crate::stop::Stop;
use std::alloc::{AllocError, Global};
use uuid::Uuid;

/// The words of an action: its name and its arguments.
pub fn words_of(alloc: Global, action: &str) -> Result<Vec<&str>, AllocError> {
    let mut words = Vec::new(alloc);
    for word in action.split_whitespace() {
        words.push(word)?;
    }
    Ok(words)
}

pub fn word<'a>(words: &[&'a str], place: usize) -> Result<&'a str, Stop> {
    match words.get(place) {
        Some(word) => Ok(*word),
        None => Err(Stop::Words),
    }
}

/// The identifier of sixteen bytes NN that a word `uNN` stands for.
pub fn identifier(words: &[&str], place: usize) -> Result<Uuid, Stop> {
    let word = word(words, place)?;
    match u8::from_str_radix(word.strip_prefix('u').unwrap_or(""), 16) {
        Ok(byte) => Ok(Uuid::from_bytes([byte; 16])),
        Err(_) => Err(Stop::Words),
    }
}

pub fn number(words: &[&str], place: usize) -> Result<u64, Stop> {
    match word(words, place)?.parse::<u64>() {
        Ok(number) => Ok(number),
        Err(_) => Err(Stop::Words),
    }
}

/// The bytes of hexadecimal digits.
pub fn bytes(alloc: Global, words: &[&str], place: usize) -> Result<Vec<u8>, Stop> {
    match hex::decode(alloc, word(words, place)?) {
        Ok(bytes) => Ok(bytes),
        Err(_) => Err(Stop::Words),
    }
}
