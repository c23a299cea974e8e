//! The text of a module.

ghost use Rattle.std.specs.Prelude.{◌≡◌, ◌++◌, ◌<◌, ◌^◌, filter, length, map, sum_by, IfOk, OnOk};
ghost use Rattle.std.specs.List.{flat_map};
ghost use Rattle.std.specs.String.{string_bytes};
ghost use Rattle.aux_tables.specs.ModuleTables.{tables_of};
ghost use Rattle.module_program.specs.Graphs.{formed_at};
ghost use Rattle.sym_expr.specs.Modules.{intervals_of, is_loaded};
ghost use Rattle.sym_expr.specs.Patches.{no_patches};
ghost use Rattle.sym_expr.specs.Placing.{spot_of, stretch_size};
ghost use Rattle.sym_expr.specs.Program.{stretch};
ghost use Rattle.asm_print.specs.Marking.{Knows};
ghost use Rattle.asm_print.specs.Printed.{interval_line, interval_lines, payload_line, printed, residue_text, section_lines, set_line, stretch_lines};

use crate::context::{Context, Here};
use crate::pieces::push_body;
use crate::places::is_loaded;
use asm_spelling::quoted;
use gr_base::Bytes;
use gt_model::{Interval, Payload, Section, Symbol};
use layout_plan::program_shape;
use module_program::unpatched_program;
use node_arena::{Graph, ModuleId};
use std::alloc::{AllocError, Global};
use sym_expr::{ShapeSpot, Stretch};
use uuid::Uuid;

/// The line of an absolute symbol.
fn push_set(
    alloc: Global,
    out: &mut Bytes,
    context: &Context,
    symbol: &Symbol,
) -> Result<(), AllocError>
    requires { Knows context.now }
    ensures { OnOk result (out.new ≡ out.old ++ set_line context.now.module symbol.now) }
{
    match symbol.payload {
        Payload::Nothing => Ok(()),
        Payload::Referent(_) => Ok(()),
        Payload::Value(value) => {
            out.extend_from_slice(b".set ")?;
            out.extend_from_slice(context.label_of(&symbol.uuid))?;
            let number = format!(in alloc; ", 0x{value:x}\n")?;
            out.extend_from_slice(number.as_bytes())
        }
    }
}

fn push_sets(alloc: Global, out: &mut Bytes, context: &Context) -> Result<(), AllocError>
    requires { Knows context.now }
    ensures { OnOk result (out.new ≡ out.old ++ flat_map (set_line context.now.module) context.now.module.symbols) }
{
    for symbol in context.module.symbols.as_slice() {
        push_set(alloc, out, context, symbol)?;
    }
    Ok(())
}

fn residue_text(alloc: Global, residue: Option<u64>) -> Result<String, AllocError>
    ensures { IfOk result (λ text. string_bytes text ≡ residue_text residue) }
{
    match residue {
        Some(residue) => format!(in alloc; " {residue}"),
        None => Ok(String::new(alloc)),
    }
}

/// The line with which an interval begins.
fn interval_line(alloc: Global, spot: &ShapeSpot) -> Result<String, AllocError>
    ensures { IfOk result (λ line. string_bytes line ≡ interval_line spot.now) }
{
    let mut buffer = Uuid::encode_buffer();
    let interval = spot.interval.hyphenated().encode_lower(&mut buffer);
    let residue = residue_text(alloc, spot.residue)?;
    format!(in alloc; ".interval {interval} {}{residue}\n", spot.align)
}

fn push_stretch(
    alloc: Global,
    out: &mut Bytes,
    context: &Context,
    interval: &Interval,
    stretch: &Stretch,
    spot: &ShapeSpot,
) -> Result<(), AllocError>
    requires known { Knows context.now }
    requires bound { stretch_size stretch.now < 2 ^ 62 }
    requires spot { spot.now ≡ spot_of stretch.now }
    ensures { OnOk result (out.new ≡ out.old ++ stretch_lines context.now.module interval.now stretch.now) }
{
    let line = interval_line(alloc, spot)?;
    out.extend_from_slice(line.as_bytes())?;
    let here = Here::new(alloc, context, interval)?;
    push_body(alloc, out, &here, stretch)
}

/// The intervals of a section, each with its pieces and with what it needs.
fn push_intervals(
    alloc: Global,
    out: &mut Bytes,
    context: &Context,
    intervals: &[Interval],
    stretches: &[Stretch],
    spots: &[ShapeSpot],
) -> Result<(), AllocError>
    requires known { Knows context.now }
    requires stretches { stretches.now ≡ map (stretch context.now.module (tables_of context.now.module) no_patches) intervals.now }
    requires spots { spots.now ≡ map spot_of stretches.now }
    requires bound { sum_by stretch_size stretches.now < 2 ^ 62 }
    ensures { OnOk result (out.new ≡ out.old ++ flat_map (interval_lines context.now.module (tables_of context.now.module)) intervals.now) }
{
    for k in 0..intervals.len() {
        push_stretch(alloc, out, context, &intervals[k], &stretches[k], &spots[k])?;
    }
    Ok(())
}

/// A section with its intervals.
fn push_section(
    alloc: Global,
    out: &mut Bytes,
    context: &Context,
    section: &Section,
    stretches: &[Stretch],
    spots: &[ShapeSpot],
) -> Result<(), AllocError>
    requires known { Knows context.now }
    requires stretches { stretches.now ≡ map (stretch context.now.module (tables_of context.now.module) no_patches) section.now.intervals }
    requires spots { spots.now ≡ map spot_of stretches.now }
    requires bound { sum_by stretch_size stretches.now < 2 ^ 62 }
    ensures { OnOk result (out.new ≡ out.old ++ section_lines context.now.module (tables_of context.now.module) section.now) }
{
    out.extend_from_slice(b".section ")?;
    let name = quoted(alloc, section.name.as_str().as_bytes())?;
    out.extend_from_slice(name.as_slice())?;
    out.extend_from_slice(b"\n")?;
    let intervals = section.intervals.as_slice();
    push_intervals(alloc, out, context, intervals, stretches, spots)
}

/// The loaded sections in order.
fn push_sections(
    alloc: Global,
    out: &mut Bytes,
    context: &Context,
    stretches: &[Stretch],
    spots: &[ShapeSpot],
) -> Result<(), AllocError>
    requires known { Knows context.now }
    requires stretches { stretches.now ≡ map (stretch context.now.module (tables_of context.now.module) no_patches) (intervals_of (filter is_loaded context.now.module.sections)) }
    requires spots { spots.now ≡ map spot_of stretches.now }
    requires bound { sum_by stretch_size stretches.now < 2 ^ 62 }
    ensures { OnOk result (out.new ≡ out.old ++ flat_map (section_lines context.now.module (tables_of context.now.module)) (filter is_loaded context.now.module.sections)) }
{
    let mut stretches = stretches;
    let mut spots = spots;
    for section in context.module.sections.as_slice() {
        if is_loaded(section) {
            let count = section.intervals.len();
            let (first, rest) = stretches.split_at(count);
            let (first_spots, rest_spots) = spots.split_at(count);
            push_section(alloc, out, context, section, first, first_spots)?;
            stretches = rest;
            spots = rest_spots;
        }
    }
    Ok(())
}

/// The assembly text of a module: absolute symbols, and then the loaded sections with their intervals, in
/// which labels, the entry, words, data and the bytes between them stand in order.
pub fn print_asm(alloc: Global, graph: &Graph, module: ModuleId) -> Result<Bytes, AllocError>
    requires live { «module».index < length graph.now.modules }
    requires formed { formed_at graph.now «module» }
    ensures { IfOk result (λ text. text ≡ printed graph.now «module») }
{
    let program = unpatched_program(alloc, graph, module)?;
    let shape = program_shape(alloc, &program)?;
    let plain = graph.plain_module(alloc, module)?;
    let context = Context::new(alloc, plain)?;
    let mut text = Bytes::new(alloc);
    push_sets(alloc, &mut text, &context)?;
    let (stretches, spots) = (program.stretches.as_slice(), shape.spots.as_slice());
    push_sections(alloc, &mut text, &context, stretches, spots)?;
    Ok(text)
}
