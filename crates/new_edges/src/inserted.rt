//! Where the words lead that patches insert, by their blocks.

ghost use Rattle.std.specs.Prelude.{◌≡◌, ◌++◌, ℕ, List, [], ◌∷◌, if◌then◌else◌, unwrap_or, IfOk, OnOk};
ghost use Rattle.std.specs.Str.{bytes_eq};
ghost use Rattle.indexmap.specs.IndexMap.{get};
ghost use Rattle.new_edges.specs.Knowing.{Knows, KnowsBranches, branches_among, branches_in};

use crate::context::Context;
use crate::new_end::Branch;
use gr_base::Seq;
use indexmap::IndexMap;
use std::alloc::{AllocError, Global};
use sym_expr::Insert;
use uuid::Uuid;

/// Adds a word's branch behind those of its block.
fn add_branch(
    alloc: Global,
    map: &mut IndexMap<Uuid, Seq<Option<Branch>>>,
    block: Uuid,
    branch: Option<Branch>,
) -> Result<(), AllocError>
    ensures { OnOk result ((id : List ℕ) → unwrap_or (get bytes_eq map.new id) [] ≡ unwrap_or (get bytes_eq map.old id) [] ++ (if bytes_eq block id then branch ∷ [] else [])) }
{
    match map.get_mut(&block) {
        Some(branches) => branches.push(branch),
        None => {
            map.insert(block, Seq::from_slice(alloc, &[branch])?)?;
            Ok(())
        }
    }
}

/// Adds the branches of an insert behind those of its block.
fn add_insert(
    alloc: Global,
    map: &mut IndexMap<Uuid, Seq<Option<Branch>>>,
    context: &Context<'_>,
    insert: &Insert,
) -> Result<(), AllocError>
    requires { Knows context.now }
    ensures { OnOk result ((id : List ℕ) → branches_in map.new id ≡ branches_in map.old id ++ branches_among context.now.module.now context.now.patches.now (insert.now ∷ []) id) }
{
    for word in insert.body.as_slice() {
        let branch = context.branch_of(word);
        add_branch(alloc, map, insert.block, branch)?;
    }
    Ok(())
}

/// Where the words lead that are inserted in each block, in the order of the patches.
pub(crate) fn branches_by_block(
    alloc: Global,
    context: &Context<'_>,
) -> Result<IndexMap<Uuid, Seq<Option<Branch>>>, AllocError>
    requires { Knows context.now }
    ensures { IfOk result (KnowsBranches context.now.module.now context.now.patches.now) }
{
    let mut map = IndexMap::new(alloc);
    for insert in context.patches.inserts.as_slice() {
        add_insert(alloc, &mut map, context, insert)?;
    }
    Ok(map)
}
