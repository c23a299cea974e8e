//! The symbols of a rewritten module.

ghost use Rattle.std.specs.Prelude.{◌≡◌, ◌≢◌, AllPairs, map, unwrap_or, IfOk};
ghost use Rattle.std.specs.Str.{bytes_eq};
ghost use Rattle.indexmap.specs.IndexMap.{get};
ghost use Rattle.new_symbols.specs.Finding.{payload_by, symbol_by};
ghost use Rattle.rewrite.specs.Symbols.{new_symbols};
ghost use Rattle.sym_expr.specs.TableOk.{new_names};

use crate::last_parts::last_parts;
use crate::names::push_functions;
use gr_base::{Seq, Text};
use gt_model::{Module, Payload, Symbol};
use indexmap::IndexMap;
use std::alloc::{AllocError, Global};
use sym_expr::{PatchTable, Program};
use uuid::Uuid;

/// The last part of a block, or what has no other end than its own.
fn end_holder(lasts: &IndexMap<Uuid, Uuid>, id: Uuid) -> Uuid
    ensures { result ≡ unwrap_or (get bytes_eq lasts.now id) id }
{
    lasts.get(&id).copied().unwrap_or(id)
}

fn end_payload(lasts: &IndexMap<Uuid, Uuid>, payload: Payload) -> Payload
    ensures { result ≡ payload_by (get bytes_eq lasts.now) payload }
{
    match payload {
        Payload::Referent(id) => Payload::Referent(end_holder(lasts, id)),
        Payload::Nothing | Payload::Value(_) => payload,
    }
}

/// A symbol of the module, which goes to the last part where it stands at the end of a block.
fn moved_symbol(
    alloc: Global,
    lasts: &IndexMap<Uuid, Uuid>,
    symbol: &Symbol,
) -> Result<Symbol, AllocError>
    ensures { IfOk result (λ moved. moved ≡ symbol_by (get bytes_eq lasts.now) symbol.now) }
{
    let payload = if symbol.at_end {
        end_payload(lasts, symbol.payload)
    } else {
        symbol.payload
    };
    Ok(Symbol {
        uuid: symbol.uuid,
        name: Text::from_str(alloc, symbol.name.as_str())?,
        at_end: symbol.at_end,
        payload,
    })
}

/// The symbols that the module had.
fn moved_symbols(
    alloc: Global,
    lasts: &IndexMap<Uuid, Uuid>,
    symbols: &[Symbol],
) -> Result<Vec<Symbol>, AllocError>
    ensures { IfOk result (λ moved. moved.items ≡ map (symbol_by (get bytes_eq lasts.now)) symbols.now) }
{
    let mut moved = Vec::new(alloc);
    for symbol in symbols {
        let made = moved_symbol(alloc, lasts, symbol)?;
        moved.push(made)?;
    }
    Ok(moved)
}

/// The symbols of a module of which this is the program, and those of the functions behind them.
pub fn new_symbols(
    alloc: Global,
    module: &Module,
    program: &Program,
    patches: &PatchTable,
) -> Result<Seq<Symbol>, AllocError>
    requires { AllPairs (λ a b. a ≢ b) (new_names patches.now) }
    ensures { IfOk result (λ symbols. symbols ≡ new_symbols «module».now program.now patches.now) }
{
    let lasts = last_parts(alloc, module, program)?;
    let old = module.symbols.as_slice();
    let functions = patches.functions.as_slice();
    let mut symbols = moved_symbols(alloc, &lasts, old)?;
    push_functions(alloc, &mut symbols, module, functions)?;
    Ok(Seq::from_vec(symbols))
}
