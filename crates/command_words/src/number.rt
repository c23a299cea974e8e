ghost use Rattle.std.specs.Prelude.{◌≡◌, ◌≤◌, ◌^◌, map, IfOk, IfSome};
ghost use Rattle.command_words.specs.Numbers.{number_of, bounded, are_flags, are_numbers, between_commas, flags_among, flags_of, is_every, IsWithin};

use crate::table::{Bounds, FLAG};
use gr_base::Seq;
use std::alloc::{AllocError, Global};

/// The most that a number of a word can be.
pub const MOST_NUMBER: u64 = 4_294_967_295;

/// The number of a word: decimal digits, at most the most.
fn number(text: &str, most: u64) -> Option<u64>
    requires { most ≤ 2 ^ 32 }
    ensures { result ≡ number_of most text.now }
{
    if text.is_empty() {
        return None;
    }
    let mut value = 0;
    for byte in text.as_bytes() {
        if *byte < b'0' || *byte > b'9' {
            return None;
        }
        // What is past the most stays past it.
        value = (10 * value + u64::from(*byte - b'0')).min(most + 1);
    }
    if value <= most { Some(value) } else { None }
}

impl Bounds {
    /// The number of a word, if it is one within the bounds.
    pub fn number(self, text: &str) -> Option<u64>
        ensures value { result ≡ bounded self text.now }
        ensures within { IfSome result (IsWithin self) }
    {
        let value = number(text, MOST_NUMBER)?;
        if self.least <= value && value <= self.most {
            Some(value)
        } else {
            None
        }
    }
}

/// Whether a text stands for every flag.
pub fn is_every(text: &str) -> bool
    ensures { result ≡ is_every text.now }
{
    text == "*"
}

/// Whether the texts between the commas of a text are numbers of flags.
fn are_numbers(text: &str) -> bool
    ensures { result ≡ are_numbers (between_commas text.now) }
{
    text.split(',').all(|part| FLAG.number(part).is_some())
}

/// Whether a text is `*`, or numbers of flags with commas between them.
pub fn are_flags(text: &str) -> bool
    ensures { result ≡ are_flags text.now }
{
    is_every(text) || are_numbers(text)
}

/// The texts between the commas of a text.
fn between_commas(alloc: Global, text: &str) -> Result<Vec<&str>, AllocError>
    ensures { IfOk result (λ parts. map (λ part. part.now) parts.items ≡ between_commas text.now) }
{
    text.split(',').collect(alloc)
}

/// The flags of those texts that are numbers of flags.
fn flags_among(alloc: Global, parts: &[&str]) -> Result<Seq<i32>, AllocError>
    ensures { IfOk result (λ flags. flags ≡ flags_among (map (λ part. part.now) parts.now)) }
{
    let mut flags = Seq::new(alloc);
    for part in parts {
        if let Some(flag) = FLAG.number(part) {
            flags.push(flag as i32)?;
        }
    }
    Ok(flags)
}

/// The flags of the numbers of a text.
pub fn flags_of(alloc: Global, text: &str) -> Result<Seq<i32>, AllocError>
    ensures { IfOk result (λ flags. flags ≡ flags_of text.now) }
{
    let parts = between_commas(alloc, text)?;
    flags_among(alloc, parts.as_slice())
}
