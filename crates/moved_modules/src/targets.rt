//! What the operands of inserted words name, by their blocks.

ghost use Rattle.std.specs.Prelude.{◌≡◌, ◌++◌, ℕ, List, [], ◌∷◌, Some, if◌then◌else◌, unwrap_or, IfOk, OnOk};
ghost use Rattle.std.specs.Str.{bytes_eq};
ghost use Rattle.indexmap.specs.IndexMap.{get};
ghost use Rattle.moved_modules.specs.Targets.{targets_among, targets_in};

use gr_base::{Seq, Text};
use indexmap::IndexMap;
use std::alloc::{AllocError, Global};
use sym_expr::{Insert, PatchTable, PatchTarget, SymbolName};
use uuid::Uuid;

fn copy_name(alloc: Global, name: &SymbolName) -> Result<SymbolName, AllocError>
    ensures { IfOk result (λ copy. copy ≡ name.now) }
{
    match name {
        SymbolName::Old(id) => Ok(SymbolName::Old(*id)),
        SymbolName::New(name) => {
            let name = Text::from_str(alloc, name.as_str())?;
            Ok(SymbolName::New(name))
        }
    }
}

/// A copy of what an operand names.
pub(crate) fn copy_target(
    alloc: Global,
    target: &Option<PatchTarget>,
) -> Result<Option<PatchTarget>, AllocError>
    ensures { IfOk result (λ copy. copy ≡ target.now) }
{
    match target {
        Some(target) => {
            let symbol = copy_name(alloc, &target.symbol)?;
            Ok(Some(PatchTarget {
                symbol,
                offset: target.offset,
            }))
        }
        None => Ok(None),
    }
}

fn alone(alloc: Global, target: Option<PatchTarget>) -> Result<Seq<Option<PatchTarget>>, AllocError>
    ensures { IfOk result (λ made. made ≡ target ∷ []) }
{
    let mut made = Vec::new(alloc);
    made.push(target)?;
    Ok(Seq::from_vec(made))
}

/// Adds what a word names behind those of its block.
fn add_target(
    alloc: Global,
    map: &mut IndexMap<Uuid, Seq<Option<PatchTarget>>>,
    block: Uuid,
    target: Option<PatchTarget>,
) -> Result<(), AllocError>
    ensures { OnOk result ((id : List ℕ) → unwrap_or (get bytes_eq map.new id) [] ≡ unwrap_or (get bytes_eq map.old id) [] ++ (if bytes_eq block id then target ∷ [] else [])) }
{
    match map.get_mut(&block) {
        Some(targets) => targets.push(target),
        None => {
            map.insert(block, alone(alloc, target)?)?;
            Ok(())
        }
    }
}

/// Adds what the words of an insert name behind those of its block.
fn add_insert(
    alloc: Global,
    map: &mut IndexMap<Uuid, Seq<Option<PatchTarget>>>,
    insert: &Insert,
) -> Result<(), AllocError>
    ensures { OnOk result ((id : List ℕ) → unwrap_or (get bytes_eq map.new id) [] ≡ unwrap_or (get bytes_eq map.old id) [] ++ targets_among (insert.now ∷ []) id) }
{
    for word in insert.body.as_slice() {
        let target = copy_target(alloc, &word.target)?;
        add_target(alloc, map, insert.block, target)?;
    }
    Ok(())
}

/// What the words name that are inserted in each block, in the order of the patches.
pub(crate) fn targets_by_block(
    alloc: Global,
    patches: &PatchTable,
) -> Result<IndexMap<Uuid, Seq<Option<PatchTarget>>>, AllocError>
    ensures { IfOk result (λ map. (id : List ℕ) → unwrap_or (get bytes_eq map id) [] ≡ targets_in patches.now id) }
{
    let mut map = IndexMap::new(alloc);
    for insert in patches.inserts.as_slice() {
        add_insert(alloc, &mut map, insert)?;
    }
    Ok(map)
}
