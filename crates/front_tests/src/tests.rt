use gr_base::{Desk, Seq, Text};
use gt_front::{note_text, serve_words};
use std::alloc::{AllocError, Global};
use std::process::Abort;
use std::test::Fail;

mod desks;
mod generating;
mod recoding;
mod running;
mod words;

/// The file of an identifier and version 4.
const SMALLEST: &str = "47544952420000 04 0a10 u01 3004";

/// Bytes in words: hexadecimal digits, or a u and two of them for an identifier of sixteen such bytes.
fn bytes_of(alloc: Global, text: &str) -> Result<Vec<u8>, Fail> {
    let mut bytes = Vec::new(alloc);
    for word in text.split_whitespace() {
        match word.strip_prefix('u') {
            Some(byte) => {
                let byte = hex::decode(alloc, byte)?;
                for _ in 0..16 {
                    bytes.extend_from_slice(byte.as_slice())?;
                }
            }
            None => bytes.extend_from_slice(hex::decode(alloc, word)?.as_slice())?,
        }
    }
    Ok(bytes)
}

fn words_of(alloc: Global, line: &str) -> Result<Seq<Text>, AllocError> {
    let mut words = Seq::new(alloc);
    for word in line.split_whitespace() {
        words.push(Text::from_str(alloc, word)?)?;
    }
    Ok(words)
}

// Serves the words and compares the note and the status.
fn expect_answer<D: Desk>(
    rt: &impl Abort,
    alloc: Global,
    desk: &mut D,
    line: &str,
    note: &str,
    status: u8,
) -> Result<(), AllocError> {
    let words = words_of(alloc, line)?;
    let answer = serve_words(alloc, &words, desk);
    let text = note_text(alloc, &answer)?;
    assert_eq!(rt; text.as_str(), note, "the note of {line}");
    assert_eq!(rt; answer.status(), status, "the status of {line}");
    Ok(())
}
