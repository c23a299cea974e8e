//! The word that the pieces of a line spell.

ghost use Rattle.std.specs.Prelude.{◌≡◌, [], IfSome, IfNone, map};
ghost use Rattle.std.specs.List.{list_all};
ghost use Rattle.a64_forms.specs.Bits.{are_apart};
ghost use Rattle.a64_forms.specs.Names.{name};
ghost use Rattle.a64_forms.specs.Spelling.{Spelled, ArePieces, HasForm, IsAccess, IsData, IsFlow, IsShape, IsSpelling, IsWide, OneSpells, Spells, accesses, branches, form, held, immediates, indexed, pairs, piece, registers};

use crate::bits::are_apart;
use crate::form::{Apart, FormRow, Numbers, PieceRow};
use crate::forms::{ACCESSES, BRANCHES, IMMEDIATES, INDEXED, PAIRS, REGISTERS};
use crate::joining::both;
use crate::piece::{named_bits, read_piece};
use crate::share::Share;
use gr_base::Bytes;

const NOTHING: Share<'static> = Share {
    bits: 0,
    target: None,
};

// What the texts give as these pieces, one by one.
fn read_pieces<'a>(numbers: Numbers, rows: &[PieceRow], texts: &'a [Bytes]) -> Option<Share<'a>>
    ensures some { IfSome result (λ s. ArePieces numbers (map (λ p. piece p.0.now p.1 p.2.now) rows.now) texts.now (held s)) }
    ensures none { IfNone result ((s : Spelled) → ArePieces numbers (map (λ p. piece p.0.now p.1 p.2.now) rows.now) texts.now s → ⊥) }
{
    match rows.split_first() {
        None => read_no_pieces(numbers, texts),
        Some((row, rows)) => match texts.split_first() {
            None => None,
            Some((text, texts)) => {
                let first = read_piece(numbers, *row, text.as_slice())?;
                let rest = read_pieces(numbers, rows, texts)?;
                Some(both(first, rest))
            }
        },
    }
}

fn read_no_pieces(numbers: Numbers, texts: &[Bytes]) -> Option<Share<'_>>
    ensures some { IfSome result (λ s. ArePieces numbers [] texts.now (held s)) }
    ensures none { IfNone result ((s : Spelled) → ArePieces numbers [] texts.now s → ⊥) }
{
    match texts {
        [] => Some(NOTHING),
        _ => None,
    }
}

fn all_apart(word: u32, apart: &[Apart]) -> bool
    ensures { result ≡ list_all (are_apart word) apart.now }
{
    apart.iter().all(|pair| are_apart(word, *pair))
}

// What the texts give as a mnemonic of the form and its pieces.
fn read_form<'a>(numbers: Numbers, row: FormRow, texts: &'a [Bytes]) -> Option<Share<'a>>
    ensures some { IfSome result (λ s. Spells numbers (form (map (λ n. name n.0.now n.1) row.entry.0.now) (map (λ p. piece p.0.now p.1 p.2.now) row.entry.1.now) row.entry.2.now) texts.now (held s)) }
    ensures none { IfNone result ((s : Spelled) → Spells numbers (form (map (λ n. name n.0.now n.1) row.entry.0.now) (map (λ p. piece p.0.now p.1 p.2.now) row.entry.1.now) row.entry.2.now) texts.now s → ⊥) }
{
    let (mnemonics, pieces, apart) = row;
    match texts.split_first() {
        None => None,
        Some((text, texts)) => {
            let word = named_bits(mnemonics, text.as_slice())?;
            let rest = read_pieces(numbers, pieces, texts)?;
            let share = both(
                Share {
                    bits: word,
                    target: None,
                },
                rest,
            );
            if all_apart(share.bits, apart) {
                Some(share)
            } else {
                None
            }
        }
    }
}

// What the texts give as a spelling of one of these rows.
fn read_among<'a>(numbers: Numbers, rows: &[FormRow], texts: &'a [Bytes]) -> Option<Share<'a>>
    ensures some { IfSome result (λ s. OneSpells numbers (map (λ f. form (map (λ n. name n.0.now n.1) f.0.now) (map (λ p. piece p.0.now p.1 p.2.now) f.1.now) f.2.now) rows.now) texts.now (held s)) }
    ensures none { IfNone result ((s : Spelled) → OneSpells numbers (map (λ f. form (map (λ n. name n.0.now n.1) f.0.now) (map (λ p. piece p.0.now p.1 p.2.now) f.1.now) f.2.now) rows.now) texts.now s → ⊥) }
{
    match rows.split_first() {
        None => None,
        Some((row, rows)) => match read_form(numbers, *row, texts) {
            Some(share) => Some(share),
            None => read_among(numbers, rows, texts),
        },
    }
}

fn read_immediates<'a>(numbers: Numbers, texts: &'a [Bytes]) -> Option<Share<'a>>
    ensures some { IfSome result (λ s. OneSpells numbers immediates texts.now (held s)) }
    ensures none { IfNone result ((s : Spelled) → OneSpells numbers immediates texts.now s → ⊥) }
{
    read_among(numbers, &IMMEDIATES, texts)
}

fn read_registers<'a>(numbers: Numbers, texts: &'a [Bytes]) -> Option<Share<'a>>
    ensures some { IfSome result (λ s. OneSpells numbers registers texts.now (held s)) }
    ensures none { IfNone result ((s : Spelled) → OneSpells numbers registers texts.now s → ⊥) }
{
    read_among(numbers, &REGISTERS, texts)
}

fn read_branches<'a>(numbers: Numbers, texts: &'a [Bytes]) -> Option<Share<'a>>
    ensures some { IfSome result (λ s. OneSpells numbers branches texts.now (held s)) }
    ensures none { IfNone result ((s : Spelled) → OneSpells numbers branches texts.now s → ⊥) }
{
    read_among(numbers, &BRANCHES, texts)
}

fn read_accesses<'a>(numbers: Numbers, texts: &'a [Bytes]) -> Option<Share<'a>>
    ensures some { IfSome result (λ s. OneSpells numbers accesses texts.now (held s)) }
    ensures none { IfNone result ((s : Spelled) → OneSpells numbers accesses texts.now s → ⊥) }
{
    read_among(numbers, &ACCESSES, texts)
}

fn read_indexed<'a>(numbers: Numbers, texts: &'a [Bytes]) -> Option<Share<'a>>
    ensures some { IfSome result (λ s. OneSpells numbers indexed texts.now (held s)) }
    ensures none { IfNone result ((s : Spelled) → OneSpells numbers indexed texts.now s → ⊥) }
{
    read_among(numbers, &INDEXED, texts)
}

fn read_pairs<'a>(numbers: Numbers, texts: &'a [Bytes]) -> Option<Share<'a>>
    ensures some { IfSome result (λ s. OneSpells numbers pairs texts.now (held s)) }
    ensures none { IfNone result ((s : Spelled) → OneSpells numbers pairs texts.now s → ⊥) }
{
    read_among(numbers, &PAIRS, texts)
}

fn read_data<'a>(numbers: Numbers, texts: &'a [Bytes]) -> Option<Share<'a>>
    ensures some { IfSome result (λ s. IsData numbers texts.now (held s)) }
    ensures none { IfNone result ((s : Spelled) → IsData numbers texts.now s → ⊥) }
{
    match read_immediates(numbers, texts) {
        Some(share) => Some(share),
        None => read_registers(numbers, texts),
    }
}

fn read_wide<'a>(numbers: Numbers, texts: &'a [Bytes]) -> Option<Share<'a>>
    ensures some { IfSome result (λ s. IsWide numbers texts.now (held s)) }
    ensures none { IfNone result ((s : Spelled) → IsWide numbers texts.now s → ⊥) }
{
    match read_indexed(numbers, texts) {
        Some(share) => Some(share),
        None => read_pairs(numbers, texts),
    }
}

fn read_access<'a>(numbers: Numbers, texts: &'a [Bytes]) -> Option<Share<'a>>
    ensures some { IfSome result (λ s. IsAccess numbers texts.now (held s)) }
    ensures none { IfNone result ((s : Spelled) → IsAccess numbers texts.now s → ⊥) }
{
    match read_accesses(numbers, texts) {
        Some(share) => Some(share),
        None => read_wide(numbers, texts),
    }
}

fn read_flow<'a>(numbers: Numbers, texts: &'a [Bytes]) -> Option<Share<'a>>
    ensures some { IfSome result (λ s. IsFlow numbers texts.now (held s)) }
    ensures none { IfNone result ((s : Spelled) → IsFlow numbers texts.now s → ⊥) }
{
    match read_branches(numbers, texts) {
        Some(share) => Some(share),
        None => read_access(numbers, texts),
    }
}

fn read_with<'a>(numbers: Numbers, texts: &'a [Bytes]) -> Option<Share<'a>>
    ensures some { IfSome result (λ s. HasForm numbers texts.now (held s)) }
    ensures none { IfNone result ((s : Spelled) → HasForm numbers texts.now s → ⊥) }
{
    match read_data(numbers, texts) {
        Some(share) => Some(share),
        None => read_flow(numbers, texts),
    }
}

/// The word that the pieces of a line spell, with the target that it names: the pieces are the first word
/// of the line and the others, each cut behind its commas.
pub fn read_spelling<'a>(texts: &'a [Bytes]) -> Option<Share<'a>>
    ensures some { IfSome result (λ s. IsSpelling texts.now (held s)) }
    ensures none { IfNone result ((s : Spelled) → IsSpelling texts.now s → ⊥) }
{
    read_with(Numbers::Fitting, texts)
}

/// What the pieces of a line would spell with other numbers, apart from their bits.
pub fn read_shape<'a>(texts: &'a [Bytes]) -> Option<Share<'a>>
    ensures some { IfSome result (λ s. IsShape texts.now (held s)) }
    ensures none { IfNone result ((s : Spelled) → IsShape texts.now s → ⊥) }
{
    read_with(Numbers::Any, texts)
}
