//! Words, cut behind their commas.

ghost use Rattle.std.specs.Prelude.{◌≡◌, ◌++◌, [], IfOk, OnOk};
ghost use Rattle.std.specs.List.{flat_map};
ghost use Rattle.asm_lines.specs.Texts.{after, cut, ends_text, texts_of, with_text};

use gr_base::{Bytes, Seq};
use std::alloc::{AllocError, Global};
use std::mem;

/// Where a byte of a word stands.
#[derive(Clone, Copy, Debug, PartialEq, Eq)]
pub(crate) enum Place {
    /// Outside quotes.
    Outside,
    /// Between quotes.
    Quoted,
    /// Between quotes, behind a backslash.
    Escaped,
}

fn after(place: Place, byte: u8) -> Place
    ensures { result ≡ after place byte }
{
    match place {
        Place::Outside if byte == b'"' => Place::Quoted,
        Place::Outside => Place::Outside,
        Place::Quoted if byte == b'"' => Place::Outside,
        Place::Quoted if byte == b'\\' => Place::Escaped,
        Place::Quoted | Place::Escaped => Place::Quoted,
    }
}

fn ends_text(place: Place, byte: u8) -> bool
    ensures { result ≡ ends_text place byte }
{
    match place {
        Place::Outside => byte == b',',
        Place::Quoted | Place::Escaped => false,
    }
}

/// Ends the last text, if there is one.
fn end_text(texts: &mut Seq<Bytes>, text: Bytes) -> Result<(), AllocError>
    ensures { OnOk result (texts.new ≡ texts.old ++ with_text text []) }
{
    if text.is_empty() {
        return Ok(());
    }
    texts.push(text)
}

fn cut_word(alloc: Global, texts: &mut Seq<Bytes>, word: &[u8]) -> Result<(), AllocError>
    ensures { OnOk result (texts.new ≡ texts.old ++ cut word.now) }
{
    let mut text = Bytes::new(alloc);
    let mut place = Place::Outside;
    for byte in word {
        text.push(*byte)?;
        let ends = ends_text(place, *byte);
        place = after(place, *byte);
        if ends {
            texts.push(mem::replace(&mut text, Bytes::new(alloc)))?;
        }
    }
    end_text(texts, text)
}

fn cut_words(alloc: Global, texts: &mut Seq<Bytes>, words: &[Bytes]) -> Result<(), AllocError>
    ensures { OnOk result (texts.new ≡ texts.old ++ flat_map cut words.now) }
{
    for word in words {
        cut_word(alloc, texts, word.as_slice())?;
    }
    Ok(())
}

/// The texts of an instruction's words: the first word, and the others cut behind their commas.
pub fn texts_of(alloc: Global, words: &[Bytes]) -> Result<Seq<Bytes>, AllocError>
    ensures { IfOk result (λ texts. texts ≡ texts_of words.now) }
{
    let mut texts = Seq::new(alloc);
    match words {
        [] => {}
        [mnemonic, operands @ ..] => {
            texts.push(Bytes::from_slice(alloc, mnemonic.as_slice())?)?;
            cut_words(alloc, &mut texts, operands)?;
        }
    }
    Ok(texts)
}
