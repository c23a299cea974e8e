//! The program of a module of a graph and of patches.

ghost use Rattle.std.specs.Prelude.{◌≡◌, ◌<◌, [], ◌∷◌, ◌++◌, filter, length, map, if◌then◌else◌, IfOk, OnOk, IsSome};
ghost use Rattle.std.specs.List.{AllByRecursion, flat_map, list_any};
ghost use Rattle.gt_model.specs.Ordered.{ordered_module, ordered_section};
ghost use Rattle.gt_model.specs.declared.intervals.Interval.{Interval as IntervalOf};
ghost use Rattle.module_program.specs.Graphs.{formed_at, patched_at};
ghost use Rattle.module_program.specs.Knowing.{HasGoodLines, Knows};
ghost use Rattle.node_arena.specs.Arenas.{module_at};
ghost use Rattle.node_arena.specs.Plain.{plain_module};
ghost use Rattle.sym_expr.specs.Modules.{has_id, is_loaded, loaded_sections};
ghost use Rattle.sym_expr.specs.Program.{function_stretch, has_entry, program, section_stretches};
ghost use Rattle.sym_expr.specs.TableOk.{table_ok};

use crate::context::Context;
use crate::functions::add_functions;
use crate::loaded::is_loaded;
use crate::order::id_of;
use crate::pieces::add_stretches;
use aux_tables::program_tables;
use gr_base::Seq;
use gt_model::{Interval, Section};
use node_arena::{Graph, ModuleId};
use std::alloc::{AllocError, Global};
use sym_expr::{PatchTable, Point, Program, Stretch};
use uuid::Uuid;

/// The interval has the block of an identifier.
fn has_block(interval: &Interval, id: Uuid) -> bool
    ensures { result ≡ list_any (has_id id) interval.now.blocks }
{
    interval
        .blocks
        .as_slice()
        .iter()
        .any(|block| id_of(block) == id)
}

/// The section has the block of an identifier.
fn has_block_in(section: &Section, id: Uuid) -> bool
    ensures { result ≡ list_any (λ (i : IntervalOf). list_any (has_id id) i.blocks) section.now.intervals }
{
    section
        .intervals
        .as_slice()
        .iter()
        .any(|interval| has_block(interval, id))
}

/// The section has the entry.
#[tactic(auto, using(crate::proofs::Sections::entry_in))]
fn has_entry(context: &Context<'_>, section: &Section, entry: Uuid) -> bool
    requires { context.now.module.entry ≡ Some entry }
    ensures { result ≡ has_entry context.now.module section.now }
{
    has_block_in(section, entry)
}

/// The functions of the patches, if the section has the entry, behind the intervals before them.
fn add_last(
    alloc: Global,
    stretches: &mut Vec<Stretch>,
    context: &Context<'_>,
    section: &Section,
    entry: Uuid,
) -> Result<(), AllocError>
    requires known { Knows context.now }
    requires good { AllByRecursion (HasGoodLines context.now.module context.now.patches.now) context.now.patches.now.functions }
    requires entry { context.now.module.entry ≡ Some entry }
    ensures { OnOk result (stretches.new.items ≡ stretches.old.items ++ (if has_entry context.now.module section.now then map (function_stretch context.now.module context.now.patches.now) context.now.patches.now.functions else [])) }
{
    if !has_entry(context, section, entry) {
        return Ok(());
    }
    add_functions(alloc, stretches, context)
}

/// The intervals of a section, if it is loaded, behind those before it.
#[tactic(auto, using(crate::proofs::Sections::one_loaded, crate::proofs::Sections::one_skipped))]
fn add_loaded(
    alloc: Global,
    stretches: &mut Vec<Stretch>,
    context: &Context<'_>,
    section: &Section,
    entry: Uuid,
) -> Result<(), AllocError>
    requires known { Knows context.now }
    requires ordered { ordered_section section.now }
    requires good { AllByRecursion (HasGoodLines context.now.module context.now.patches.now) context.now.patches.now.functions }
    requires entry { context.now.module.entry ≡ Some entry }
    ensures { OnOk result (stretches.new.items ≡ stretches.old.items ++ flat_map (section_stretches context.now.module context.now.tables context.now.patches.now) (filter is_loaded (section.now ∷ []))) }
{
    if !is_loaded(section) {
        return Ok(());
    }
    add_stretches(alloc, stretches, context, section)?;
    add_last(alloc, stretches, context, section, entry)
}

/// The intervals of the loaded sections.
fn stretches(alloc: Global, context: &Context<'_>, entry: Uuid) -> Result<Seq<Stretch>, AllocError>
    requires known { Knows context.now }
    requires ordered { ordered_module context.now.module }
    requires good { AllByRecursion (HasGoodLines context.now.module context.now.patches.now) context.now.patches.now.functions }
    requires entry { context.now.module.entry ≡ Some entry }
    ensures { IfOk result (λ made. made ≡ flat_map (section_stretches context.now.module context.now.tables context.now.patches.now) (loaded_sections context.now.module)) }
{
    let mut stretches = Vec::new(alloc);
    for section in context.module.sections.as_slice() {
        add_loaded(alloc, &mut stretches, context, section, entry)?;
    }
    Ok(Seq::from_vec(stretches))
}

fn program(alloc: Global, context: &Context<'_>) -> Result<Program, AllocError>
    requires known { Knows context.now }
    requires ordered { ordered_module context.now.module }
    requires good { AllByRecursion (HasGoodLines context.now.module context.now.patches.now) context.now.patches.now.functions }
    requires entered { IsSome context.now.module.entry }
    ensures { IfOk result (λ made. made ≡ program context.now.module context.now.tables context.now.patches.now) }
{
    let entry = context.module.entry.unwrap();
    let stretches = stretches(alloc, context, entry)?;
    Ok(Program {
        stretches,
        entry: Point {
            block: entry,
            offset: 0,
            j: 0,
        },
    })
}

/// The program of a module and of patches that it can take.
pub fn program_of(
    alloc: Global,
    graph: &Graph,
    id: ModuleId,
    patches: &PatchTable,
) -> Result<Program, AllocError>
    requires live { id.index < length graph.now.modules }
    requires formed { formed_at graph.now id }
    requires accepted { table_ok (plain_module graph.now (module_at graph.now id)) patches.now }
    ensures { IfOk result (λ g. g ≡ patched_at graph.now id patches.now) }
{
    let plain = graph.plain_module(alloc, id)?;
    let tables = program_tables(alloc, plain.aux.as_slice())?;
    let context = Context::new(alloc, plain, patches, tables)?;
    let made = program(alloc, &context)?;
    Ok(made)
}
