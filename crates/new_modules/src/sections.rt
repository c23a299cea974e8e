//! The sections of a rewritten module.

ghost use Rattle.std.specs.Prelude.{◌≡◌, ◌<◌, ◌^◌, map, take, drop, length, IfOk};
ghost use Rattle.std.specs.List.{list_any};
ghost use Rattle.aux_tables.specs.ModuleTables.{tables_of};
ghost use Rattle.gt_model.specs.declared.intervals.Interval.{Interval as IntervalOf};
ghost use Rattle.new_intervals.specs.Knowing.{Knows};
ghost use Rattle.new_modules.specs.Shares.{share};
ghost use Rattle.rewrite.specs.Rewritten.{new_intervals, new_section};
ghost use Rattle.sym_expr.specs.Modules.{has_id, is_loaded};
ghost use Rattle.sym_expr.specs.Program.{entry_of, has_entry, program as program_of, section_stretches};
ghost use Rattle.sym_expr.specs.WellMade.{well_made};

use crate::intervals::{old_intervals, push_functions};
use gr_base::{Seq, Text};
use gt_model::{Block, Body, CopyIn, Interval, Module, Section};
use new_intervals::Inserts;
use std::alloc::{AllocError, Global};
use sym_expr::{PatchTable, Program};
use uuid::Uuid;

/// GTIRB's number of the section flag.
const LOADED: i32 = 4;

fn is_loaded(section: &Section) -> bool
    ensures { result ≡ is_loaded section.now }
{
    section.flags.as_slice().contains(&LOADED)
}

/// The block has the identifier; a bare one has nil.
fn has_id(block: &Block, id: Uuid) -> bool
    ensures { result ≡ has_id id block.now }
{
    let held = match block.body {
        Body::Bare => Uuid::nil(),
        Body::Code { uuid, .. } => uuid,
        Body::Data { uuid, .. } => uuid,
    };
    held == id
}

/// The interval has the block of an identifier.
fn has_block(interval: &Interval, id: Uuid) -> bool
    ensures { result ≡ list_any (has_id id) interval.now.blocks }
{
    interval
        .blocks
        .as_slice()
        .iter()
        .any(|block| has_id(block, id))
}

/// The section has the block of an identifier.
fn has_block_in(section: &Section, id: Uuid) -> bool
    ensures { result ≡ list_any (λ (i : IntervalOf). list_any (has_id id) i.blocks) section.now.intervals }
{
    section
        .intervals
        .as_slice()
        .iter()
        .any(|interval| has_block(interval, id))
}

/// The section has the entry of the module, where the program begins at it.
fn has_entry(module: &Module, program: &Program, section: &Section) -> bool
    requires { program.now.entry.block ≡ entry_of «module».now }
    ensures { result ≡ has_entry «module».now section.now }
{
    has_block_in(section, program.entry.block)
}

/// The intervals of a loaded section, whose stretches stand in the program from here on.
fn new_intervals(
    alloc: Global,
    inserts: &Inserts<'_>,
    program: &Program,
    at: usize,
    section: &Section,
) -> Result<Seq<Interval>, AllocError>
    requires known { Knows inserts.now }
    requires well { well_made program.now }
    requires entry { program.now.entry.block ≡ entry_of inserts.now.module.now }
    requires here { take (length (section_stretches inserts.now.module.now (tables_of inserts.now.module.now) inserts.now.patches.now section.now)) (drop at program.now.stretches) ≡ section_stretches inserts.now.module.now (tables_of inserts.now.module.now) inserts.now.patches.now section.now }
    ensures { IfOk result (λ made. made ≡ new_intervals inserts.now.module.now (tables_of inserts.now.module.now) inserts.now.patches.now section.now) }
{
    let old = section.intervals.as_slice();
    let mut intervals = old_intervals(alloc, inserts, program, at, old)?;
    if !has_entry(inserts.module, program, section) {
        return Ok(Seq::from_vec(intervals));
    }
    let functions = inserts.patches.functions.as_slice();
    push_functions(alloc, &mut intervals, inserts.module, functions)?;
    Ok(Seq::from_vec(intervals))
}

/// A section, whose stretches stand in the program from here on, if it is loaded.
fn new_section(
    alloc: Global,
    inserts: &Inserts<'_>,
    program: &Program,
    at: usize,
    section: &Section,
) -> Result<Section, AllocError>
    requires known { Knows inserts.now }
    requires well { well_made program.now }
    requires entry { program.now.entry.block ≡ entry_of inserts.now.module.now }
    requires here { take (length (share inserts.now.module.now (tables_of inserts.now.module.now) inserts.now.patches.now section.now)) (drop at program.now.stretches) ≡ share inserts.now.module.now (tables_of inserts.now.module.now) inserts.now.patches.now section.now }
    ensures { IfOk result (λ made. made ≡ new_section inserts.now.module.now (tables_of inserts.now.module.now) inserts.now.patches.now section.now) }
{
    if !is_loaded(section) {
        let copy = section.copy_in(alloc)?;
        return Ok(copy);
    }
    let intervals = new_intervals(alloc, inserts, program, at, section)?;
    let name = Text::from_str(alloc, section.name.as_str())?;
    let flags = Seq::from_slice(alloc, section.flags.as_slice())?;
    Ok(Section {
        uuid: section.uuid,
        name,
        intervals,
        flags,
    })
}

/// How many stretches of the program come of a section.
fn share_size(inserts: &Inserts<'_>, program: &Program, section: &Section) -> usize
    requires entry { program.now.entry.block ≡ entry_of inserts.now.module.now }
    requires few { length (share inserts.now.module.now (tables_of inserts.now.module.now) inserts.now.patches.now section.now) < 2 ^ 40 }
    ensures { result ≡ length (share inserts.now.module.now (tables_of inserts.now.module.now) inserts.now.patches.now section.now) }
{
    if !is_loaded(section) {
        return 0;
    }
    let own = section.intervals.len();
    if !has_entry(inserts.module, program, section) {
        return own;
    }
    own + inserts.patches.functions.len()
}

/// The sections of the module of an index of inserted words.
fn sections_of(
    alloc: Global,
    inserts: &Inserts<'_>,
    program: &Program,
) -> Result<Seq<Section>, AllocError>
    requires known { Knows inserts.now }
    requires well { well_made program.now }
    requires program { program.now ≡ program_of inserts.now.module.now (tables_of inserts.now.module.now) inserts.now.patches.now }
    ensures { IfOk result (λ made. made ≡ map (new_section inserts.now.module.now (tables_of inserts.now.module.now) inserts.now.patches.now) inserts.now.module.now.sections) }
{
    let mut sections = Vec::new(alloc);
    let mut at = 0;
    for section in inserts.module.sections.as_slice() {
        let made = new_section(alloc, inserts, program, at, section)?;
        sections.push(made)?;
        at += share_size(inserts, program, section);
    }
    Ok(Seq::from_vec(sections))
}

/// The sections of a module of which this is the program.
pub(crate) fn new_sections(
    alloc: Global,
    module: &Module,
    program: &Program,
    patches: &PatchTable,
) -> Result<Seq<Section>, AllocError>
    requires well { well_made program.now }
    requires program { program.now ≡ program_of «module».now (tables_of «module».now) patches.now }
    ensures { IfOk result (λ made. made ≡ map (new_section «module».now (tables_of «module».now) patches.now) «module».now.sections) }
{
    let inserts = Inserts::new(alloc, module, patches)?;
    sections_of(alloc, &inserts, program)
}
