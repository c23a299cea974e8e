//! Files as words.

use pb_wire::put_bytes;
use std::alloc::Global;
use std::test::Fail;

/// The front of a file that a word stands for: the prefix of version 4 and an IR's identifier, and then that
/// of a module and of the first node in it of each kind, whose run stays open.
fn front(word: &str) -> Option<&'static str> {
    match word {
        "nothing" => Some(""),
        "ir" => Some("'GTIRB 000004 0a10 u01"),
        "module" => Some("'GTIRB 000004 0a10 u01 1a ( 0a10 u02"),
        "symbol" => Some("'GTIRB 000004 0a10 u01 1a ( 0a10 u02 4a ( 0a10 u09"),
        "section" => Some("'GTIRB 000004 0a10 u01 1a ( 0a10 u02 62 ( 0a10 u03"),
        "interval" => Some("'GTIRB 000004 0a10 u01 1a ( 0a10 u02 62 ( 0a10 u03 2a ( 0a10 u04"),
        _ => None,
    }
}

/// Whether a line of a table is a row of it: others are empty, or begin with two dashes.
pub fn is_row(line: &str) -> bool {
    let line = line.trim();
    !line.is_empty() && !line.starts_with("--")
}

/// The version, which a file has behind its modules.
pub const VERSION: &str = "3004";

/// Bytes, and where the content of each open run begins.
#[derive(Drop)]
struct Written {
    bytes: Vec<u8>,
    starts: Vec<usize>,
}

impl Written {
    /// Puts the length of the last open run before its content.
    fn close(&mut self, alloc: Global) -> Result<(), Fail> {
        let start = self.starts.pop().ok_or("no run is open")?;
        let run = self.bytes.as_slice().get(start..).ok_or("no run")?;
        let run = Vec::from_slice(alloc, run)?;
        self.bytes.truncate(start);
        put_bytes(&mut self.bytes, run.as_slice())?;
        Ok(())
    }

    /// Appends pairs of hexadecimal digits, the text behind a quote, or the sixteen bytes NN of a word uNN;
    /// begins a run at `(`, and ends one at `)`.
    fn put(&mut self, alloc: Global, word: &str) -> Result<(), Fail> {
        if word == "(" {
            self.starts.push(self.bytes.len())?;
        } else if word == ")" {
            self.close(alloc)?;
        } else if let Some(text) = word.strip_prefix('\'') {
            self.bytes.extend_from_slice(text.as_bytes())?;
        } else if let Some(byte) = word.strip_prefix('u') {
            self.bytes
                .extend_from_slice(&[u8::from_str_radix(byte, 16)?; 16])?;
        } else {
            let digits = hex::decode(alloc, word)?;
            self.bytes.extend_from_slice(digits.as_slice())?;
        }
        Ok(())
    }

    fn put_all(&mut self, alloc: Global, words: &str) -> Result<(), Fail> {
        for word in words.split_whitespace() {
            self.put(alloc, word)?;
        }
        Ok(())
    }
}

/// The bytes of words. Runs that are open before the tail are ended there.
pub fn bytes_of(alloc: Global, words: &str, tail: &str) -> Result<Vec<u8>, Fail> {
    let mut written = Written {
        bytes: Vec::new(alloc),
        starts: Vec::new(alloc),
    };
    for word in words.split_whitespace() {
        match front(word) {
            Some(words) => written.put_all(alloc, words)?,
            None => written.put(alloc, word)?,
        }
    }
    for _ in 0..written.starts.len() {
        written.close(alloc)?;
    }
    written.put_all(alloc, tail)?;
    Ok(written.bytes)
}
