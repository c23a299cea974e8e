//! What the symbols of a module name.

ghost use Rattle.std.specs.Prelude.{◌≡◌, map, IfOk};
ghost use Rattle.std.specs.Option.{option_map};
ghost use Rattle.std.specs.Str.{bytes_eq};
ghost use Rattle.indexmap.specs.IndexMap.{get};
ghost use Rattle.module_program.specs.Entries.{symbol_entry};
ghost use Rattle.module_program.specs.Naming.{block_base, count_in, symbol_base, symbol_of};

use crate::counts::count_in;
use crate::index::index_of;
use crate::order::{id_of, is_code, size_of};
use gt_model::{Block, Payload, Symbol};
use indexmap::IndexMap;
use std::alloc::{AllocError, Global};
use sym_expr::{Point, Target};
use uuid::Uuid;

/// The start of a block, or its end behind what is inserted there.
fn block_base(counts: &IndexMap<(Uuid, u64), u64>, at_end: bool, block: &Block) -> Target
    ensures { result ≡ block_base (count_in counts.now) at_end block.now }
{
    let id = id_of(block);
    let size = size_of(block);
    match (is_code(block), at_end) {
        (true, true) => Target::Code(Point {
            block: id,
            offset: size,
            j: count_in(counts, id, size),
        }),
        (true, false) => Target::Code(Point {
            block: id,
            offset: 0,
            j: 0,
        }),
        (false, true) => Target::Address(id, size),
        (false, false) => Target::Address(id, 0),
    }
}

/// What a symbol names before an offset is added.
fn symbol_base(
    counts: &IndexMap<(Uuid, u64), u64>,
    blocks: &IndexMap<Uuid, Block>,
    symbol: &Symbol,
) -> Target
    ensures { result ≡ symbol_base (count_in counts.now) (get bytes_eq blocks.now) symbol.now }
{
    match symbol.payload {
        Payload::Nothing => Target::Undefined(symbol.uuid),
        Payload::Value(value) => Target::Number(value),
        Payload::Referent(id) => match blocks.get(&id) {
            Some(block) => block_base(counts, symbol.at_end, block),
            None => Target::Undefined(symbol.uuid),
        },
    }
}

fn symbol_entries(
    alloc: Global,
    counts: &IndexMap<(Uuid, u64), u64>,
    blocks: &IndexMap<Uuid, Block>,
    symbols: &[Symbol],
) -> Result<Vec<(Uuid, Target)>, AllocError>
    ensures { IfOk result (λ entries. entries.items ≡ map (symbol_entry (count_in counts.now) (get bytes_eq blocks.now)) symbols.now) }
{
    let mut entries = Vec::new(alloc);
    for symbol in symbols {
        let target = symbol_base(counts, blocks, symbol);
        entries.push((symbol.uuid, target))?;
    }
    Ok(entries)
}

/// What each symbol names before an offset is added, by its identifier.
pub(crate) fn symbol_targets(
    alloc: Global,
    counts: &IndexMap<(Uuid, u64), u64>,
    blocks: &IndexMap<Uuid, Block>,
    symbols: &[Symbol],
) -> Result<IndexMap<Uuid, Target>, AllocError>
    ensures { IfOk result (λ index. (id : _) → get bytes_eq index id ≡ option_map (symbol_base (count_in counts.now) (get bytes_eq blocks.now)) (symbol_of id symbols.now)) }
{
    let entries = symbol_entries(alloc, counts, blocks, symbols)?;
    let keyed = entries.as_slice();
    let index = index_of(alloc, keyed)?;
    Ok(index)
}
