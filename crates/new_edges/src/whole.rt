//! The edges and vertices of a repaired IR.

ghost use Rattle.std.specs.Prelude.{◌≡◌, ◌<◌, ◌++◌, length, IfOk, OnOk};
ghost use Rattle.aux_tables.specs.ModuleTables.{tables_of};
ghost use Rattle.edge_repair.specs.Edges.{made_cfg, repaired_cfg};
ghost use Rattle.module_program.specs.Graphs.{patched_at};
ghost use Rattle.new_edges.specs.Knowing.{Knows};
ghost use Rattle.new_edges.specs.Whole.{cfg_among, cfg_grown, edges_among, vertices_among};
ghost use Rattle.node_arena.specs.Arenas.{module_at};
ghost use Rattle.node_arena.specs.Plain.{ir_of, plain_module};

use crate::blocks::{PatchedBlock, patched_blocks};
use crate::context::Context;
use crate::functions::{push_function_ids, push_functions};
use crate::inserted::branches_by_block;
use crate::leaving::leaving_by_block;
use crate::moved::moved_edges;
use crate::parts::{push_all_later, push_blocks};
use block_parts::laws::whole_blocks_are_one_part;
use gr_base::Seq;
use gt_model::{Cfg, Edge, Module};
use node_arena::{Graph, ModuleId};
use std::alloc::{AllocError, Global};
use sym_expr::{PatchTable, Program};
use uuid::Uuid;

/// The edges from new blocks, behind those before.
fn push_edges(
    alloc: Global,
    edges: &mut Vec<Edge>,
    context: &Context<'_>,
    blocks: &[PatchedBlock],
) -> Result<(), AllocError>
    requires { Knows context.now }
    ensures { OnOk result (edges.new.items ≡ edges.old.items ++ edges_among context.now.module.now context.now.patches.now blocks.now) }
{
    let branches = branches_by_block(alloc, context)?;
    push_blocks(alloc, edges, context, &branches, blocks)?;
    push_functions(alloc, edges, context)
}

/// The new blocks, behind the vertices before.
fn push_vertices(
    alloc: Global,
    vertices: &mut Vec<Uuid>,
    context: &Context<'_>,
    blocks: &[PatchedBlock],
) -> Result<(), AllocError>
    requires { Knows context.now }
    ensures { OnOk result (vertices.new.items ≡ vertices.old.items ++ vertices_among context.now.module.now context.now.patches.now blocks.now) }
{
    push_all_later(alloc, vertices, context.module, blocks)?;
    push_function_ids(alloc, vertices, context)
}

/// What there is where there was no cfg: new edges make one.
fn made_cfg(
    alloc: Global,
    context: &Context<'_>,
    blocks: &[PatchedBlock],
) -> Result<Option<Cfg>, AllocError>
    requires { Knows context.now }
    ensures { IfOk result (λ cfg. cfg ≡ made_cfg (edges_among context.now.module.now context.now.patches.now blocks.now) (vertices_among context.now.module.now context.now.patches.now blocks.now)) }
{
    let mut edges = Vec::new(alloc);
    push_edges(alloc, &mut edges, context, blocks)?;
    if edges.is_empty() {
        return Ok(None);
    }
    let mut vertices = Vec::new(alloc);
    push_vertices(alloc, &mut vertices, context, blocks)?;
    Ok(Some(Cfg {
        edges: Seq::from_vec(edges),
        vertices: Seq::from_vec(vertices),
    }))
}

/// A cfg with its old edges moved, and with what is new.
fn grown_cfg(
    alloc: Global,
    context: &Context<'_>,
    blocks: &[PatchedBlock],
    old: &Cfg,
) -> Result<Cfg, AllocError>
    requires { Knows context.now }
    ensures { IfOk result (λ cfg. cfg ≡ cfg_grown context.now.module.now context.now.patches.now blocks.now old.now) }
{
    let leaving = leaving_by_block(alloc, context.module, blocks)?;
    let mut edges = moved_edges(alloc, &leaving, old.edges.as_slice())?;
    push_edges(alloc, &mut edges, context, blocks)?;
    let mut vertices = Vec::from_slice(alloc, old.vertices.as_slice())?;
    push_vertices(alloc, &mut vertices, context, blocks)?;
    Ok(Cfg {
        edges: Seq::from_vec(edges),
        vertices: Seq::from_vec(vertices),
    })
}

/// The cfg of a module and its patches, of which these are the code blocks.
fn cfg_of(
    alloc: Global,
    context: &Context<'_>,
    blocks: &[PatchedBlock],
    old: &Option<Cfg>,
) -> Result<Option<Cfg>, AllocError>
    requires { Knows context.now }
    ensures { IfOk result (λ cfg. cfg ≡ cfg_among context.now.module.now context.now.patches.now blocks.now old.now) }
{
    match old {
        Some(old) => {
            let cfg = grown_cfg(alloc, context, blocks, old)?;
            Ok(Some(cfg))
        }
        None => made_cfg(alloc, context, blocks),
    }
}

/// The cfg of an IR once a module is rewritten, where this is its program with patches. It is linear in the IR.
pub fn repaired_cfg(
    alloc: Global,
    graph: &Graph,
    module: ModuleId,
    program: &Program,
    patches: &PatchTable,
) -> Result<Option<Cfg>, AllocError>
    requires live { «module».index < length graph.now.modules }
    requires patched { program.now ≡ patched_at graph.now «module» patches.now }
    ensures { let m = plain_module graph.now (module_at graph.now «module») in IfOk result (λ cfg. cfg ≡ repaired_cfg m (tables_of m) patches.now (ir_of graph.now).cfg) }
{
    whole_blocks_are_one_part();
    let ir = graph.to_ir(alloc)?;
    let plain = graph.plain_module(alloc, module)?;
    let blocks = patched_blocks(alloc, program)?;
    let context = Context::new(alloc, &plain, patches)?;
    let cfg = cfg_of(alloc, &context, blocks.as_slice(), &ir.cfg)?;
    Ok(cfg)
}
