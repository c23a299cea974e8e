//! Where inserts go, and what labels name.

ghost use Rattle.std.specs.Prelude.{◌≡◌, ℕ, List, is_some};
ghost use Rattle.std.specs.HashMap.{get_by_text};
ghost use Rattle.std.specs.Option.{option_copied};
ghost use Rattle.patch_lines.specs.Faults.{at_offset, block_at, code_block, insert_block, spot_block, symbol_block};
ghost use Rattle.patch_lines.specs.Indexed.{Knows};
ghost use Rattle.patch_lines.specs.Naming.{is_first, pick, resolved, symbol_named, uses_named};

use crate::blocks::{id_of, is_code, size_of};
use crate::fault::PatchReason;
use crate::index::Index;
use crate::line::{LabelName, Spot};
use crate::symbols::SymbolUse;
use gt_model::Block;
use uuid::Uuid;

/// The one that an ordinal means, if it is there.
fn pick_ordinal(uses: &[SymbolUse], ordinal: u64) -> Result<SymbolUse, PatchReason>
    ensures { result ≡ pick uses.now (Some ordinal) }
{
    match ordinal.checked_sub(1) {
        Some(before) => match uses.get(before as usize) {
            Some(named) => Ok(*named),
            None => Err(PatchReason::UnknownName),
        },
        None => Err(PatchReason::UnknownName),
    }
}

/// The one that is meant among the symbols of a name.
fn pick(uses: &[SymbolUse], ordinal: Option<u64>) -> Result<SymbolUse, PatchReason>
    ensures { result ≡ pick uses.now ordinal }
{
    match ordinal {
        Some(ordinal) => pick_ordinal(uses, ordinal),
        None => match uses {
            [] => Err(PatchReason::UnknownName),
            [named] => Ok(*named),
            _ => Err(PatchReason::Ambiguous),
        },
    }
}

/// The symbol that a label names.
pub(crate) fn symbol_named(index: &Index, label: &LabelName) -> Result<SymbolUse, PatchReason>
    requires { Knows index.now }
    ensures { result ≡ symbol_named index.now.«module» label.now }
{
    match index.names.get(label.name.as_str()) {
        Some(uses) => pick(uses.as_slice(), label.ordinal),
        None => pick(&[], label.ordinal),
    }
}

/// The code block of an identifier.
fn code_block(index: &Index, id: Uuid) -> Result<Block, PatchReason>
    requires { Knows index.now }
    ensures { result ≡ code_block (block_at index.now.«module» id) }
{
    match index.blocks.get(&id) {
        Some(block) if is_code(block) => Ok(*block),
        _ => Err(PatchReason::UnknownBlock),
    }
}

/// The code block at whose start a symbol is.
fn symbol_block(index: &Index, named: &SymbolUse) -> Result<Block, PatchReason>
    requires { Knows index.now }
    ensures { result ≡ symbol_block index.now.«module» named.now }
{
    match named.start {
        Some(id) => code_block(index, id),
        None => Err(PatchReason::UnknownBlock),
    }
}

/// The code block that a spot names.
fn spot_block(index: &Index, spot: &Spot) -> Result<Block, PatchReason>
    requires { Knows index.now }
    ensures { result ≡ spot_block index.now.«module» spot.now }
{
    match spot {
        Spot::Block(id) => code_block(index, *id),
        Spot::Symbol(label) => match symbol_named(index, label) {
            Ok(named) => symbol_block(index, &named),
            Err(reason) => Err(reason),
        },
    }
}

/// The identifier of a block that has a word at the offset, or ends there.
fn at_offset(block: &Block, offset: u64) -> Result<Uuid, PatchReason>
    ensures { result ≡ at_offset offset block.now }
{
    if offset % 4 == 0 && offset <= size_of(block) {
        Ok(id_of(block))
    } else {
        Err(PatchReason::BadOffset)
    }
}

/// The block in which an insert puts words.
pub(crate) fn insert_block(index: &Index, spot: &Spot, offset: u64) -> Result<Uuid, PatchReason>
    requires { Knows index.now }
    ensures { result ≡ insert_block index.now.«module» spot.now offset }
{
    match spot_block(index, spot) {
        Ok(block) => at_offset(&block, offset),
        Err(reason) => Err(reason),
    }
}
