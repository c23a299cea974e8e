//! The functions that patches bring, by their identifiers.

ghost use Rattle.std.specs.Prelude.{◌≡◌, map, IfOk};
ghost use Rattle.moved_modules.specs.Moved.{new_function};
ghost use Rattle.sym_expr.specs.Patches.{function_blocks};
ghost use Rattle.sym_expr.specs.TableOk.{block_ids};

use crate::moved::NewFunction;
use derived_ids::{block_id, function_id, symbol_id};
use gr_base::Seq;
use gt_model::Module;
use new_symbols::block_count;
use std::alloc::{AllocError, Global};
use sym_expr::{Function, PatchTable};
use uuid::Uuid;

/// The identifiers of a function's blocks.
fn block_ids(alloc: Global, module: &Module, function: &Function) -> Result<Seq<Uuid>, AllocError>
    ensures { IfOk result (λ ids. ids ≡ block_ids «module».now function.now 0 (function_blocks function.now)) }
{
    let name = function.name.as_str();
    let mut ids = Vec::new(alloc);
    for k in 0..block_count(function) {
        let id = block_id(alloc, &module.uuid, name, k)?;
        ids.push(id)?;
    }
    Ok(Seq::from_vec(ids))
}

fn new_function(
    alloc: Global,
    module: &Module,
    function: &Function,
) -> Result<NewFunction, AllocError>
    ensures { IfOk result (λ new. new ≡ new_function «module».now function.now) }
{
    let uuid = function_id(alloc, &module.uuid, function.name.as_str())?;
    let symbol = symbol_id(alloc, &module.uuid, function.name.as_str())?;
    let blocks = block_ids(alloc, module, function)?;
    Ok(NewFunction {
        uuid,
        symbol,
        blocks,
    })
}

/// The functions of patches in order.
pub(crate) fn new_functions(
    alloc: Global,
    module: &Module,
    patches: &PatchTable,
) -> Result<Seq<NewFunction>, AllocError>
    ensures { IfOk result (λ functions. functions ≡ map (new_function «module».now) patches.now.functions) }
{
    let mut functions = Vec::new(alloc);
    for function in patches.functions.as_slice() {
        let made = new_function(alloc, module, function)?;
        functions.push(made)?;
    }
    Ok(Seq::from_vec(functions))
}
