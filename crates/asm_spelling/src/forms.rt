//! The texts that a form has for a word.

ghost use Rattle.std.specs.Prelude.{◌≡◌, ◌++◌, [], ◌∷◌, IfOk, map};
ghost use Rattle.std.specs.List.{list_all};
ghost use Rattle.a64_forms.specs.Bits.{are_apart};
ghost use Rattle.a64_forms.specs.Names.{name};
ghost use Rattle.a64_forms.specs.Spelling.{form, piece};
ghost use Rattle.asm_spelling.specs.Words.{before, first_written, give, has_aim, is_aim, names_it, with_mnemonic, without_pieces, written_form, written_piece, written_pieces};

use crate::bits::are_apart;
use crate::named::Named;
use crate::slots::{name_of, without_slot, written_slot};
use crate::written::{Texts, Written};
use a64_forms::{Apart, FormRow, NameRow, PieceRow, Slot};
use gr_base::{Bytes, Seq};
use std::alloc::{AllocError, Global};

/// A text before others.
fn before(first: Written, rest: Texts) -> Result<Texts, AllocError>
    ensures { IfOk result (λ made. made ≡ before first rest) }
{
    let Written { text, bits } = first;
    let Texts {
        texts,
        bits: more_bits,
    } = rest;
    let mut all = texts.into_vec();
    all.insert(0, text)?;
    Ok(Texts {
        texts: Seq::from_vec(all),
        bits: bits | more_bits,
    })
}

/// A text between two others.
fn between(alloc: Global, first: &str, text: &Bytes, last: &str) -> Result<Bytes, AllocError>
    ensures { IfOk result (λ made. made ≡ first.now ++ text.now ++ last.now) }
{
    let mut whole = Bytes::from_slice(alloc, first.as_bytes())?;
    whole.extend_from_slice(text.as_slice())?;
    whole.extend_from_slice(last.as_bytes())?;
    Ok(whole)
}

fn written_piece(
    alloc: Global,
    word: u32,
    named: &Named,
    row: PieceRow,
) -> Result<Option<Written>, AllocError>
    ensures { IfOk result (λ made. made ≡ written_piece word named.now (piece row.entry.0.now row.entry.1 row.entry.2.now)) }
{
    let (first, slot, last) = row;
    match written_slot(alloc, word, named, slot)? {
        Some(inside) => {
            let text = between(alloc, first, &inside.text, last)?;
            let bits = inside.bits;
            Ok(Some(Written { text, bits }))
        }
        None => Ok(None),
    }
}

/// The texts of pieces, one by one.
fn written_pieces(
    alloc: Global,
    word: u32,
    named: &Named,
    rows: &[PieceRow],
) -> Result<Option<Texts>, AllocError>
    ensures { IfOk result (λ made. made ≡ written_pieces word named.now (map (λ p. piece p.0.now p.1 p.2.now) rows.now)) }
{
    match rows.split_first() {
        None => Ok(Some(Texts {
            texts: Seq::new(alloc),
            bits: 0,
        })),
        Some((row, rows)) => match written_piece(alloc, word, named, *row)? {
            None => Ok(None),
            Some(first) => match written_pieces(alloc, word, named, rows)? {
                None => Ok(None),
                Some(rest) => {
                    let texts = before(first, rest)?;
                    Ok(Some(texts))
                }
            },
        },
    }
}

/// The word with 0 in the bits that the pieces have.
fn without_pieces(rows: &[PieceRow], word: u32) -> u32
    ensures { result ≡ without_pieces (map (λ p. piece p.0.now p.1 p.2.now) rows.now) word }
{
    match rows.split_first() {
        None => word,
        Some((row, rows)) => without_pieces(rows, without_slot(row.1, word)),
    }
}

fn is_aim(slot: Slot) -> bool
    ensures { result ≡ is_aim slot }
{
    matches!(slot, Slot::Aim(_))
}

/// Whether a piece names something.
fn has_aim(rows: &[PieceRow]) -> bool
    ensures { result ≡ has_aim (map (λ p. piece p.0.now p.1 p.2.now) rows.now) }
{
    match rows.split_first() {
        None => false,
        Some((row, rows)) => is_aim(row.1) || has_aim(rows),
    }
}

/// Whether the pieces name something where there is something to name.
fn names_it(named: &Named, rows: &[PieceRow]) -> bool
    ensures { result ≡ names_it named.now (map (λ p. piece p.0.now p.1 p.2.now) rows.now) }
{
    match named {
        Named::Nothing => true,
        Named::Label(_, _) => has_aim(rows),
    }
}

/// Whether registers of the word differ where they have to.
fn all_apart(word: u32, apart: &[Apart]) -> bool
    ensures { result ≡ list_all (are_apart word) apart.now }
{
    apart.iter().all(|pair| are_apart(word, *pair))
}

fn with_mnemonic(
    alloc: Global,
    word: u32,
    named: &Named,
    row: FormRow,
    mnemonic: NameRow,
) -> Result<Option<Texts>, AllocError>
    ensures { IfOk result (λ made. made ≡ with_mnemonic word named.now (form (map (λ n. name n.0.now n.1) row.entry.0.now) (map (λ p. piece p.0.now p.1 p.2.now) row.entry.1.now) row.entry.2.now) (name mnemonic.entry.0.now mnemonic.entry.1)) }
{
    let (text, bits) = mnemonic;
    let (_, pieces, apart) = row;
    match written_pieces(alloc, word, named, pieces)? {
        None => Ok(None),
        Some(rest) => {
            let text = Bytes::from_slice(alloc, text.as_bytes())?;
            let texts = before(Written { text, bits }, rest)?;
            if texts.bits == word && all_apart(word, apart) {
                Ok(Some(texts))
            } else {
                Ok(None)
            }
        }
    }
}

/// The form's texts of a word, where it has some.
fn written_form(
    alloc: Global,
    word: u32,
    named: &Named,
    row: FormRow,
) -> Result<Option<Texts>, AllocError>
    ensures { IfOk result (λ made. made ≡ written_form word named.now (form (map (λ n. name n.0.now n.1) row.entry.0.now) (map (λ p. piece p.0.now p.1 p.2.now) row.entry.1.now) row.entry.2.now)) }
{
    let (mnemonics, pieces, _) = row;
    if !names_it(named, pieces) {
        return Ok(None);
    }
    match name_of(mnemonics, without_pieces(pieces, word)) {
        Some(mnemonic) => with_mnemonic(alloc, word, named, row, mnemonic),
        None => Ok(None),
    }
}

/// The texts of the first form that has some.
pub(crate) fn first_written(
    alloc: Global,
    word: u32,
    named: &Named,
    rows: &[FormRow],
) -> Result<Option<Texts>, AllocError>
    ensures { IfOk result (λ made. made ≡ first_written word named.now (map (λ f. form (map (λ n. name n.0.now n.1) f.0.now) (map (λ p. piece p.0.now p.1 p.2.now) f.1.now) f.2.now) rows.now)) }
{
    for row in rows {
        if let Some(texts) = written_form(alloc, word, named, *row)? {
            return Ok(Some(texts));
        }
    }
    Ok(None)
}
