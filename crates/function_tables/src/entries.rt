//! The entries of functions that patches bring.

ghost use Rattle.std.specs.Prelude.{◌≡◌, ◌<◌, ◌^◌, ◌++◌, length, map, IfOk, OnOk};
ghost use Rattle.std.specs.List.{AllByRecursion};
ghost use Rattle.aux_codec.specs.Value.{Id, entry_of, value_of};
ghost use Rattle.edge_repair.specs.Sets.{blocks_value, entries_value, function_id, symbol_value};
ghost use Rattle.function_tables.specs.Functions.{entry_in, value_in, IsFew};
ghost use Rattle.sym_expr.specs.Patches.{function_blocks};
ghost use Rattle.sym_expr.specs.TableOk.{block_ids};

use crate::blocks::block_count;
use crate::kinds::TableKind;
use aux_codec::{AuxPair, AuxValue};
use derived_ids::{block_id, function_id, symbol_id};
use gt_model::Module;
use std::alloc::{AllocError, Global};
use sym_expr::Function;

/// The blocks of a function.
fn block_values(
    alloc: Global,
    module: &Module,
    function: &Function,
) -> Result<Vec<AuxValue>, AllocError>
    ensures blocks { IfOk result (λ made. map value_of made.items ≡ map Id (block_ids «module».now function.now 0 (function_blocks function.now))) }
    ensures few { length (function_blocks function.now) < 2 ^ 64 }
{
    let mut made = Vec::new(alloc);
    for k in 0..block_count(function) {
        let id = block_id(alloc, &module.uuid, function.name.as_str(), k)?;
        made.push(AuxValue::Id(id))?;
    }
    Ok(made)
}

/// The set of a function's blocks.
fn blocks_value(alloc: Global, module: &Module, function: &Function) -> Result<AuxValue, AllocError>
    ensures value { IfOk result (λ made. value_of made ≡ blocks_value «module».now function.now) }
    ensures few { length (function_blocks function.now) < 2 ^ 64 }
{
    let blocks = block_values(alloc, module, function)?;
    Ok(AuxValue::Many(blocks))
}

/// The set of its first block.
fn entries_value(
    alloc: Global,
    module: &Module,
    function: &Function,
) -> Result<AuxValue, AllocError>
    ensures { IfOk result (λ made. value_of made ≡ entries_value «module».now function.now) }
{
    let first = block_id(alloc, &module.uuid, function.name.as_str(), 0)?;
    let mut made = Vec::new(alloc);
    made.push(AuxValue::Id(first))?;
    Ok(AuxValue::Many(made))
}

/// What a table holds of a function.
fn value_in(
    alloc: Global,
    kind: TableKind,
    module: &Module,
    function: &Function,
) -> Result<AuxValue, AllocError>
    ensures value { IfOk result (λ made. value_of made ≡ value_in kind «module».now function.now) }
    ensures few { IsFew kind function.now }
{
    match kind {
        TableKind::Blocks => blocks_value(alloc, module, function),
        TableKind::Entries => entries_value(alloc, module, function),
        TableKind::Names => {
            let symbol = symbol_id(alloc, &module.uuid, function.name.as_str())?;
            Ok(AuxValue::Id(symbol))
        }
    }
}

/// The entry of a function.
fn entry_in(
    alloc: Global,
    kind: TableKind,
    module: &Module,
    function: &Function,
) -> Result<AuxPair, AllocError>
    ensures entry { IfOk result (λ made. entry_of made ≡ entry_in kind «module».now function.now) }
    ensures few { OnOk result (IsFew kind function.now) }
{
    let id = function_id(alloc, &module.uuid, function.name.as_str())?;
    let value = value_in(alloc, kind, module, function)?;
    Ok(AuxPair {
        key: AuxValue::Id(id),
        value,
    })
}

/// The entries of functions, behind those before them.
pub fn push_functions(
    alloc: Global,
    pairs: &mut Vec<AuxPair>,
    kind: TableKind,
    module: &Module,
    functions: &[Function],
) -> Result<(), AllocError>
    ensures entries { OnOk result (map entry_of pairs.new.items ≡ map entry_of pairs.old.items ++ map (entry_in kind «module».now) functions.now) }
    ensures few { OnOk result (AllByRecursion (IsFew kind) functions.now) }
{
    for function in functions {
        let entry = entry_in(alloc, kind, module, function)?;
        pairs.push(entry)?;
    }
    Ok(())
}
