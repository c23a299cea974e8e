ghost use Rattle.std.specs.Prelude.{◌≡◌, IfOk};
ghost use Rattle.sym_expr.specs.Derived.{block_text, derived, function_text, interval_text, part_text, symbol_text};

use std::alloc::{AllocError, Global};
use uuid::Uuid;

/// The identifier that is derived from a text.
fn derived(module: &Uuid, text: &[u8]) -> Uuid
    ensures { result ≡ derived «module».now text.now }
{
    Uuid::new_v5(module, text)
}

/// A later part of a block, which begins at this offset from the block's new start.
pub fn part_id(alloc: Global, module: &Uuid, block: &Uuid, offset: u64) -> Result<Uuid, AllocError>
    ensures { IfOk result (λ id. id ≡ derived «module».now (part_text block.now offset)) }
{
    let text = format!(in alloc; "part/{block}/{offset}")?;
    Ok(derived(module, text.as_bytes()))
}

/// A function.
pub fn function_id(alloc: Global, module: &Uuid, name: &str) -> Result<Uuid, AllocError>
    ensures { IfOk result (λ id. id ≡ derived «module».now (function_text name.now)) }
{
    let text = format!(in alloc; "function/{name}")?;
    Ok(derived(module, text.as_bytes()))
}

/// The interval of a function.
pub fn interval_id(alloc: Global, module: &Uuid, name: &str) -> Result<Uuid, AllocError>
    ensures { IfOk result (λ id. id ≡ derived «module».now (interval_text name.now)) }
{
    let text = format!(in alloc; "interval/{name}")?;
    Ok(derived(module, text.as_bytes()))
}

/// The block of a function with this number, from 0.
pub fn block_id(alloc: Global, module: &Uuid, name: &str, k: u64) -> Result<Uuid, AllocError>
    ensures { IfOk result (λ id. id ≡ derived «module».now (block_text name.now k)) }
{
    let text = format!(in alloc; "block/{name}/{k}")?;
    Ok(derived(module, text.as_bytes()))
}

/// The symbol of a name that patches bring.
pub fn symbol_id(alloc: Global, module: &Uuid, name: &str) -> Result<Uuid, AllocError>
    ensures { IfOk result (λ id. id ≡ derived «module».now (symbol_text name.now)) }
{
    let text = format!(in alloc; "symbol/{name}")?;
    Ok(derived(module, text.as_bytes()))
}
