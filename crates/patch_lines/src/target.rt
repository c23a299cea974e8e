//! What words of patch text name.

ghost use Rattle.std.specs.Prelude.{◌≡◌, ℕ, List, Some, None, if◌then◌else◌, is_some, IfOk};
ghost use Rattle.std.specs.HashMap.{get_by_text};
ghost use Rattle.sym_expr.specs.Expressions.{is_bad_sum, symbol_aim};
ghost use Rattle.patch_lines.specs.Aims.{is_bad_block, is_bad_payload};
ghost use Rattle.patch_lines.specs.Answers.{Tells};
ghost use Rattle.patch_lines.specs.Building.{sum_target, target_of, word_of};
ghost use Rattle.patch_lines.specs.Faults.{block_at, name_fault, sum_fault, target_fault};
ghost use Rattle.patch_lines.specs.Indexed.{Knows};
ghost use Rattle.patch_lines.specs.declared.fault.PatchReason.TheVariants.{BadTarget};
ghost use Rattle.patch_lines.specs.Naming.{is_first, new_name, old_name};

use crate::blocks::is_code;
use crate::fault::PatchReason;
use crate::index::Index;
use crate::line::{LabelSum, PatchLine};
use crate::spot::symbol_named;
use a64_inst::is_branch;
use gr_base::Text;
use gt_model::Payload;
use indexmap::IndexMap;
use std::alloc::{AllocError, Global};
use sym_expr::{PatchTarget, PatchWord, SymbolName};
use uuid::Uuid;

/// Whether a word may not name a block plus an offset.
fn is_bad_block(index: &Index, word: u32, offset: i64, id: Uuid) -> bool
    requires { Knows index.now }
    ensures { result ≡ is_bad_block word offset (block_at index.now.«module» id) }
{
    match index.blocks.get(&id) {
        Some(block) if is_code(block) => offset != 0,
        Some(_) => is_branch(word),
        None => false,
    }
}

fn is_bad_payload(index: &Index, word: u32, offset: i64, payload: Payload) -> bool
    requires { Knows index.now }
    ensures { result ≡ is_bad_payload index.now.«module» word offset payload }
{
    match payload {
        Payload::Nothing => false,
        Payload::Value(_) => is_branch(word),
        Payload::Referent(id) => is_bad_block(index, word, offset, id),
    }
}

/// Whether a word may not name a symbol of the module plus an offset.
fn is_bad_symbol(index: &Index, word: u32, offset: i64, id: Uuid) -> bool
    requires { Knows index.now }
    ensures { result ≡ is_bad_sum word offset (symbol_aim index.now.«module» id) }
{
    match index.symbols.get(&id) {
        Some(payload) => is_bad_payload(index, word, offset, *payload),
        None => false,
    }
}

/// Whether it is left out, or 1.
fn is_first(ordinal: Option<u64>) -> bool
    ensures { result ≡ is_first ordinal }
{
    match ordinal {
        Some(ordinal) => ordinal == 1,
        None => true,
    }
}

fn bad_if(is_bad: bool) -> Result<(), PatchReason>
    ensures { Tells result (if is_bad then Some BadTarget else None) }
{
    if is_bad {
        Err(PatchReason::BadTarget)
    } else {
        Ok(())
    }
}

/// Whether a word may name a label plus an offset, where it isn't a name of the patches.
fn check_old(index: &Index, word: u32, sum: &LabelSum) -> Result<(), PatchReason>
    requires { Knows index.now }
    ensures { Tells result (name_fault index.now.«module» word sum.now.offset (old_name index.now.«module» sum.now.label)) }
{
    match symbol_named(index, &sum.label) {
        Ok(named) => bad_if(is_bad_symbol(index, word, sum.offset, named.id)),
        Err(reason) => Err(reason),
    }
}

/// Whether a word may name a label plus an offset, where it is a name of the patches.
fn check_new(index: &Index, word: u32, sum: &LabelSum) -> Result<(), PatchReason>
    ensures { Tells result (name_fault index.now.«module» word sum.now.offset (new_name sum.now.label)) }
{
    if is_first(sum.label.ordinal) {
        bad_if(sum.offset != 0)
    } else {
        Err(PatchReason::UnknownName)
    }
}

/// Whether a word may name a label plus an offset.
fn check_sum(
    index: &Index,
    names: &IndexMap<String, ()>,
    word: u32,
    sum: &LabelSum,
) -> Result<(), PatchReason>
    requires { Knows index.now }
    ensures { Tells result (sum_fault index.now.«module» (λ q. is_some (get_by_text names.now q)) word sum.now) }
{
    if names.contains_key(sum.label.name.as_str()) {
        return check_new(index, word, sum);
    }
    check_old(index, word, sum)
}

/// Whether a line has no fault of the second pass.
pub(crate) fn check_target(
    index: &Index,
    names: &IndexMap<String, ()>,
    line: &PatchLine,
) -> Result<(), PatchReason>
    requires { Knows index.now }
    ensures { Tells result (target_fault index.now.«module» (λ q. is_some (get_by_text names.now q)) line.now) }
{
    match line {
        PatchLine::Word(word, Some(sum)) => check_sum(index, names, *word, sum),
        _ => Ok(()),
    }
}

/// What a label names where it is a name of the patches.
fn new_target(alloc: Global, sum: &LabelSum) -> Result<Option<PatchTarget>, AllocError>
    ensures { IfOk result (λ target. target ≡ target_of sum.now.offset (new_name sum.now.label)) }
{
    if !is_first(sum.label.ordinal) {
        return Ok(None);
    }
    let name = Text::from_str(alloc, sum.label.name.as_str())?;
    Ok(Some(PatchTarget {
        symbol: SymbolName::New(name),
        offset: sum.offset,
    }))
}

/// What a label names where it isn't a name of the patches.
fn old_target(index: &Index, sum: &LabelSum) -> Option<PatchTarget>
    requires { Knows index.now }
    ensures { result ≡ target_of sum.now.offset (old_name index.now.«module» sum.now.label) }
{
    match symbol_named(index, &sum.label) {
        Ok(named) => Some(PatchTarget {
            symbol: SymbolName::Old(named.id),
            offset: sum.offset,
        }),
        Err(_) => None,
    }
}

/// What a label plus an offset names.
fn sum_target(
    alloc: Global,
    index: &Index,
    names: &IndexMap<String, ()>,
    sum: &LabelSum,
) -> Result<Option<PatchTarget>, AllocError>
    requires { Knows index.now }
    ensures { IfOk result (λ target. target ≡ sum_target index.now.«module» (λ q. is_some (get_by_text names.now q)) sum.now) }
{
    if names.contains_key(sum.label.name.as_str()) {
        return new_target(alloc, sum);
    }
    Ok(old_target(index, sum))
}

/// A word of the patches.
pub(crate) fn word_of(
    alloc: Global,
    index: &Index,
    names: &IndexMap<String, ()>,
    word: u32,
    sum: &Option<LabelSum>,
) -> Result<PatchWord, AllocError>
    requires { Knows index.now }
    ensures { IfOk result (λ made. made ≡ word_of index.now.«module» (λ q. is_some (get_by_text names.now q)) word sum.now) }
{
    match sum {
        Some(sum) => {
            let target = sum_target(alloc, index, names, sum)?;
            Ok(PatchWord { word, target })
        }
        None => Ok(PatchWord { word, target: None }),
    }
}
