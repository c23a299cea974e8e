ghost use Rattle.std.specs.Prelude.{◌≡◌, ◌↔◌, ◌⊎◌, ◌<◌, [], ◌∷◌, ◌++◌, ℕ, List, Err, length, drop, filter, IsTrue, IfOk, IfSome, IfNone, OnOk, MatchResult, IsUtf8};
ghost use Rattle.gr_base.specs.declared.end.End.TheVariants as ends;
ghost use Rattle.asm_read.specs.declared.fault.TextReason.{TextReason};
ghost use Rattle.asm_read.specs.declared.fault.TextReason.TheVariants.{Syntax};
ghost use Rattle.asm_read.specs.Words.{is_white, begins_white, IsInside, Piece, IsPiece, bytes_of, IsComment, is_some_bytes, HasWords};

use crate::fault::TextReason;
use gr_base::{Bytes, End, Seq};
use std::alloc::{AllocError, Global};
use std::{mem, str};

fn is_white(byte: u8) -> bool
    ensures { result ≡ is_white byte }
{
    byte == b' ' || byte == b'\t' || byte == b'\r'
}

fn begins_white(piece: &[u8]) -> bool
    ensures { result ≡ begins_white piece.now }
{
    match piece {
        [] => false,
        [first, ..] => is_white(*first),
    }
}

fn is_comment(text: &[u8]) -> bool
    ensures { IsTrue result ↔ IsComment text.now }
{
    matches!(text, [b'/', b'/', ..])
}

fn begins_quoted(text: &[u8]) -> bool
    ensures { IsTrue result ↔ (text.now ≡ 34 ∷ drop 1 text.now) }
{
    matches!(text, [b'"', ..])
}

/// Whether the line ends here, but for a comment.
fn at_end(text: &[u8]) -> bool
    ensures { IsTrue result ↔ ((text.now ≡ []) ⊎ IsComment text.now) }
{
    text.is_empty() || is_comment(text)
}

/// What stands before the quote that closes, and what behind it.
fn split_quoted(text: &[u8]) -> Option<(&[u8], &[u8])>
    ensures found { IfSome result (λ x. IsInside x.0.now × (text.now ≡ x.0.now ++ 34 ∷ x.1.now)) }
    ensures none { IfNone result ((inside behind : List ℕ) → IsInside inside → text.now ≡ inside ++ 34 ∷ behind → ⊥) }
{
    let mut rest = text;
    while let Some((first, behind)) = rest.split_first() {
        if *first == b'"' {
            return Some((&text[..text.len() - rest.len()], behind));
        }
        if *first == b'\\' {
            let (_, after) = behind.split_first()?;
            rest = after;
            continue;
        }
        rest = behind;
    }
    None
}

/// A byte, or a whole quoted text, and what stands behind it.
fn split_piece(text: &[u8]) -> Option<(&[u8], &[u8])>
    requires { 0 < length text.now }
    ensures found { IfSome result (λ x. (p : Piece) × IsPiece p × (x.0.now ≡ bytes_of p) × (text.now ≡ x.0.now ++ x.1.now)) }
    ensures none { IfNone result ((p : Piece) (behind : List ℕ) → IsPiece p → text.now ≡ bytes_of p ++ behind → ⊥) }
{
    if !begins_quoted(text) {
        return Some(text.split_at(1));
    }
    let (inside, _) = split_quoted(&text[1..])?;
    Some(text.split_at(inside.len() + 2))
}

/// Ends a word, if there is one.
fn end_word(words: &mut Seq<Bytes>, word: Bytes) -> Result<(), AllocError>
    ensures { OnOk result (words.new ≡ words.old ++ filter is_some_bytes (word ∷ [])) }
{
    if word.is_empty() {
        return Ok(());
    }
    words.push(word)
}

/// The words of a line of UTF-8 in which each quote is closed.
fn words_of(alloc: Global, line: &[u8]) -> Result<Seq<Bytes>, End<TextReason>>
    ensures found { IfOk result (HasWords line.now) }
    ensures only { (words : List (List ℕ)) → HasWords line.now words → MatchResult result (λ found. found ≡ words) (λ e. e ≡ ends.Memory) }
    ensures reason { (reason : TextReason) → result ≡ Err (ends.Fault reason) → reason ≡ Syntax }
{
    let mut words = Seq::new(alloc);
    let mut word = Bytes::new(alloc);
    let mut rest = line;
    while !at_end(rest) {
        let Some((piece, after)) = split_piece(rest) else {
            return Err(End::Fault(TextReason::Syntax));
        };
        if begins_white(piece) {
            end_word(&mut words, mem::replace(&mut word, Bytes::new(alloc)))?;
        } else {
            word.extend_from_slice(piece)?;
        }
        rest = after;
    }
    end_word(&mut words, word)?;
    Ok(words)
}

/// The words of a line: the longest runs of bytes that aren't white space, up to a comment. What stands
/// between quotes is no white space and begins no comment.
pub fn split_words(alloc: Global, line: &[u8]) -> Result<Seq<Bytes>, End<TextReason>>
    ensures utf8 { IfOk result (λ words. IsUtf8 line.now) }
    ensures found { IfOk result (HasWords line.now) }
    // A line of UTF-8 that has words is split into these, unless memory runs out.
    ensures only { (words : List (List ℕ)) → IsUtf8 line.now → HasWords line.now words → MatchResult result (λ found. found ≡ words) (λ e. e ≡ ends.Memory) }
    ensures reason { (reason : TextReason) → result ≡ Err (ends.Fault reason) → reason ≡ Syntax }
{
    match str::from_utf8(line) {
        Ok(_) => words_of(alloc, line),
        Err(_) => Err(End::Fault(TextReason::Syntax)),
    }
}
