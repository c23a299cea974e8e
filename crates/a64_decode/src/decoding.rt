//! A word's row, found by its bits 28 to 25 (DDI 0487, C4.1).

ghost use Rattle.std.specs.Prelude.{◌≡◌, [], ◌∷◌};
ghost use Rattle.a64_inst.specs.Rows as rows;
ghost use Rattle.a64_inst.specs.Table as table;

use crate::bits::bits;
use crate::branches::{b_bl, b_cond, blr, br, brk, cbz_cbnz, hint, ret, svc, tbz_tbnz, udf};
use crate::immediate::{add_sub_imm, adr_adrp, bitfield, extr, logical_imm, move_wide};
use crate::memory::{literal, pair, register, scaled, unscaled_post_pre};
use crate::registers::{
    add_sub_extended, add_sub_shifted, cond_compare, cond_select, logical_shifted, one_source,
    three_sources, two_sources, with_carry,
};
use a64_inst::Inst;

/// The instruction of a word, if the word is in a row of the instruction table.
pub fn decode(word: u32) -> Option<Inst>
    ensures { result ≡ table.row word }
{
    let inst = shape(word)?;
    if inst.is_reserved() { None } else { Some(inst) }
}

// The instruction whose row's fixed bits the word has.
fn shape(word: u32) -> Option<Inst>
    ensures { result ≡ table.read_rows rows.table word }
{
    match bits(word, 25, 4) {
        0b0000 => udf(word),
        0b0100 => pair(word),
        0b0101 => shifted_and_extended(word),
        0b1000 => places_and_sums(word),
        0b1001 => bits_of_immediates(word),
        0b1010 => conditional_and_system(word),
        0b1011 => bit_tests_and_registers(word),
        0b1100 => single_accesses(word),
        0b1101 => sources(word),
        _ => None,
    }
}

#[inline]
fn shifted_and_extended(word: u32) -> Option<Inst>
    ensures { result ≡ table.read_rows (rows.add_sub_shifted ∷ rows.add_sub_extended ∷ rows.logical_shifted ∷ []) word }
{
    if let Some(inst) = add_sub_shifted(word) {
        return Some(inst);
    }
    if let Some(inst) = add_sub_extended(word) {
        return Some(inst);
    }
    logical_shifted(word)
}

#[inline]
fn places_and_sums(word: u32) -> Option<Inst>
    ensures { result ≡ table.read_rows (rows.adr_adrp ∷ rows.add_sub_imm ∷ []) word }
{
    if let Some(inst) = adr_adrp(word) {
        return Some(inst);
    }
    add_sub_imm(word)
}

#[inline]
fn bits_of_immediates(word: u32) -> Option<Inst>
    ensures { result ≡ table.read_rows (rows.logical_imm ∷ rows.move_wide ∷ rows.bitfield ∷ rows.extr ∷ []) word }
{
    if let Some(inst) = logical_imm(word) {
        return Some(inst);
    }
    if let Some(inst) = move_wide(word) {
        return Some(inst);
    }
    if let Some(inst) = bitfield(word) {
        return Some(inst);
    }
    extr(word)
}

#[inline]
fn conditional_and_system(word: u32) -> Option<Inst>
    ensures { result ≡ table.read_rows (rows.b_bl ∷ rows.b_cond ∷ rows.cbz_cbnz ∷ rows.svc ∷ rows.brk ∷ rows.hint ∷ []) word }
{
    if let Some(inst) = b_bl(word) {
        return Some(inst);
    }
    if let Some(inst) = b_cond(word) {
        return Some(inst);
    }
    if let Some(inst) = cbz_cbnz(word) {
        return Some(inst);
    }
    if let Some(inst) = svc(word) {
        return Some(inst);
    }
    if let Some(inst) = brk(word) {
        return Some(inst);
    }
    hint(word)
}

#[inline]
fn bit_tests_and_registers(word: u32) -> Option<Inst>
    ensures { result ≡ table.read_rows (rows.b_bl ∷ rows.tbz_tbnz ∷ rows.br ∷ rows.blr ∷ rows.ret ∷ []) word }
{
    if let Some(inst) = b_bl(word) {
        return Some(inst);
    }
    if let Some(inst) = tbz_tbnz(word) {
        return Some(inst);
    }
    if let Some(inst) = br(word) {
        return Some(inst);
    }
    if let Some(inst) = blr(word) {
        return Some(inst);
    }
    ret(word)
}

#[inline]
fn single_accesses(word: u32) -> Option<Inst>
    ensures { result ≡ table.read_rows (rows.literal ∷ rows.scaled ∷ rows.unscaled_post_pre ∷ rows.register ∷ []) word }
{
    if let Some(inst) = literal(word) {
        return Some(inst);
    }
    if let Some(inst) = scaled(word) {
        return Some(inst);
    }
    if let Some(inst) = unscaled_post_pre(word) {
        return Some(inst);
    }
    register(word)
}

#[inline]
fn sources(word: u32) -> Option<Inst>
    ensures { result ≡ table.read_rows (rows.two_sources ∷ rows.one_source ∷ rows.three_sources ∷ rows.with_carry ∷ rows.cond_compare ∷ rows.cond_select ∷ []) word }
{
    if let Some(inst) = two_sources(word) {
        return Some(inst);
    }
    if let Some(inst) = one_source(word) {
        return Some(inst);
    }
    if let Some(inst) = three_sources(word) {
        return Some(inst);
    }
    if let Some(inst) = with_carry(word) {
        return Some(inst);
    }
    if let Some(inst) = cond_compare(word) {
        return Some(inst);
    }
    cond_select(word)
}
