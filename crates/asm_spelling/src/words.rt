//! The line of a word.

ghost use Rattle.std.specs.Prelude.{◌≡◌, ◌∷◌, ◌++◌, IfOk, OnOk};
ghost use Rattle.std.specs.List.{flat_map};
ghost use Rattle.asm_spelling.specs.Words.{number_line, operand_text, spaced, word_line, word_texts};

use crate::by_table::table_texts;
use crate::label::offset_text;
use crate::named::Named;
use crate::slots::without_operand;
use crate::written::Texts;
use a64_inst::operand_kind;
use gr_base::Bytes;
use std::alloc::{AllocError, Global};

/// The texts of a word as an instruction, if it is one that the table spells: the mnemonic, and what stands
/// between the spaces behind it.
pub fn word_texts(alloc: Global, word: u32, named: &Named) -> Result<Option<Texts>, AllocError>
    ensures { IfOk result (λ made. made ≡ word_texts word named.now) }
{
    match named {
        Named::Nothing => table_texts(alloc, word, named),
        Named::Label(_, _) => match operand_kind(word) {
            Some(kind) => table_texts(alloc, without_operand(kind.operand(), word), named),
            None => Ok(None),
        },
    }
}

/// Texts, each behind a space.
fn push_spaced(line: &mut Bytes, texts: &[Bytes]) -> Result<(), AllocError>
    ensures { OnOk result (line.new ≡ line.old ++ flat_map (λ text. 32 ∷ text) texts.now) }
{
    for text in texts {
        line.push(b' ')?;
        line.extend_from_slice(text.as_slice())?;
    }
    Ok(())
}

/// The texts with spaces between them.
fn spaced(alloc: Global, texts: &[Bytes]) -> Result<Bytes, AllocError>
    ensures { IfOk result (λ line. line ≡ spaced texts.now) }
{
    match texts.split_first() {
        None => Ok(Bytes::new(alloc)),
        Some((first, rest)) => {
            let mut line = Bytes::from_slice(alloc, first.as_slice())?;
            push_spaced(&mut line, rest)?;
            Ok(line)
        }
    }
}

/// What the operand names, behind a comma.
fn push_operand(alloc: Global, line: &mut Bytes, named: &Named) -> Result<(), AllocError>
    ensures { OnOk result (line.new ≡ line.old ++ operand_text named.now) }
{
    match named {
        Named::Nothing => Ok(()),
        Named::Label(label, offset) => {
            line.extend_from_slice(b", ")?;
            line.extend_from_slice(label.as_slice())?;
            let far = offset_text(alloc, *offset)?;
            line.extend_from_slice(far.as_bytes())
        }
    }
}

/// A word in eight digits.
fn number_line(alloc: Global, word: u32, named: &Named) -> Result<Bytes, AllocError>
    ensures { IfOk result (λ line. line ≡ number_line word named.now) }
{
    let mut line = Bytes::from_slice(alloc, b".inst 0x")?;
    let digits = hex::encode(alloc, word.to_be_bytes())?;
    line.extend_from_slice(digits.as_bytes())?;
    push_operand(alloc, &mut line, named)?;
    Ok(line)
}

/// The line of a word, without what stands around it: an instruction, or its number.
pub fn word_line(alloc: Global, word: u32, named: &Named) -> Result<Bytes, AllocError>
    ensures { IfOk result (λ line. line ≡ word_line word named.now) }
{
    match word_texts(alloc, word, named)? {
        Some(texts) => spaced(alloc, texts.texts.as_slice()),
        None => number_line(alloc, word, named),
    }
}
