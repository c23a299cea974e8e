//! Functions of patches as intervals.

ghost use Rattle.std.specs.Prelude.{◌≡◌, ◌<◌, ◌≤◌, ◌+◌, ◌^◌, ◌++◌, List, ◌∷◌, IfOk, OnOk};
ghost use Rattle.std.specs.List.{flat_map};
ghost use Rattle.rewrite.specs.Functions.{exprs_from, function_interval};
ghost use Rattle.sym_expr.specs.declared.patches.FunLine.{FunLine as FunLineOf};
ghost use Rattle.sym_expr.specs.declared.patches.PatchWord.{PatchWord as PatchWordOf};
ghost use Rattle.sym_expr.specs.Images.{bytes_of};
ghost use Rattle.sym_expr.specs.TableOk.{function_words, line_words};

use crate::cutting::function_blocks;
use crate::values::push_word;
use derived_ids::interval_id;
use gr_base::{Bytes, Seq};
use gt_model::{Expr, Interval, Module};
use std::alloc::{AllocError, Global};
use sym_expr::{FunLine, Function};

/// Adds what a line brings at an offset, and answers the offset of the next.
fn push_line(
    alloc: Global,
    out: &mut Vec<Expr>,
    module: &Module,
    at: u64,
    line: &FunLine,
) -> Result<u64, AllocError>
    requires { at < 2 ^ 63 }
    ensures exprs { IfOk result (λ next. (rest : List FunLineOf) → out.new.items ++ exprs_from «module».now next (flat_map line_words rest) ≡ out.old.items ++ exprs_from «module».now at (flat_map line_words (line.now ∷ rest))) }
    ensures room { IfOk result (λ next. next ≤ at + 4) }
{
    match line {
        FunLine::Label(_) => Ok(at),
        FunLine::Word(word) => {
            push_word(alloc, out, module, at, word)?;
            Ok(at + 4)
        }
    }
}

/// The expressions that the words of a function bring.
fn function_exprs(
    alloc: Global,
    module: &Module,
    function: &Function,
) -> Result<Seq<Expr>, AllocError>
    ensures { IfOk result (λ exprs. exprs ≡ exprs_from «module».now 0 (function_words function.now)) }
{
    let mut out = Vec::new(alloc);
    let mut at = 0;
    for line in function.body.as_slice() {
        at = push_line(alloc, &mut out, module, at, line)?;
    }
    Ok(Seq::from_vec(out))
}

/// Adds the bytes of a line's word, if it is one.
fn push_bytes(out: &mut Vec<u8>, line: &FunLine) -> Result<(), AllocError>
    ensures { OnOk result (out.new.items ≡ out.old.items ++ flat_map (λ (w : PatchWordOf). bytes_of 4 w.word) (line_words line.now)) }
{
    match line {
        FunLine::Label(_) => Ok(()),
        FunLine::Word(word) => out.extend_from_slice(&word.word.to_le_bytes()),
    }
}

/// The bytes of a function's words.
fn function_bytes(alloc: Global, function: &Function) -> Result<Bytes, AllocError>
    ensures { IfOk result (λ bytes. bytes ≡ flat_map (λ (w : PatchWordOf). bytes_of 4 w.word) (function_words function.now)) }
{
    let mut out = Vec::new(alloc);
    for line in function.body.as_slice() {
        push_bytes(&mut out, line)?;
    }
    Ok(Bytes::from_vec(out))
}

/// The interval of a function.
pub fn function_interval(
    alloc: Global,
    module: &Module,
    function: &Function,
) -> Result<Interval, AllocError>
    ensures { IfOk result (λ made. made ≡ function_interval «module».now function.now) }
{
    let uuid = interval_id(alloc, &module.uuid, function.name.as_str())?;
    let blocks = function_blocks(alloc, module, function)?;
    let exprs = function_exprs(alloc, module, function)?;
    let contents = function_bytes(alloc, function)?;
    let size = contents.len() as u64;
    Ok(Interval {
        uuid,
        blocks,
        exprs,
        has_address: false,
        address: 0,
        size,
        contents,
    })
}
