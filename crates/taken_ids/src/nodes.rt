//! The identifiers of an IR's nodes.

ghost use Rattle.std.specs.Prelude.{◌≡◌, ◌++◌, map, IfOk, OnOk};
ghost use Rattle.std.specs.List.{flat_map};
ghost use Rattle.gt_model.specs.Nodes.{nodes, ids};
ghost use Rattle.taken_ids.specs.NodeIds.{block_ids, interval_ids, ir_ids, module_ids, section_ids, symbol_id};

use gt_model::{Block, Body, Interval, Ir, Module, Section, Symbol};
use std::alloc::{AllocError, Global};
use uuid::Uuid;

/// The identifier of a block, if it has one, behind those before.
fn push_block(out: &mut Vec<Uuid>, block: &Block) -> Result<(), AllocError>
    ensures { OnOk result (out.new.items ≡ out.old.items ++ block_ids block.now) }
{
    match block.body {
        Body::Bare => {}
        Body::Code { uuid, .. } => out.push(uuid)?,
        Body::Data { uuid, .. } => out.push(uuid)?,
    }
    Ok(())
}

fn push_blocks(out: &mut Vec<Uuid>, blocks: &[Block]) -> Result<(), AllocError>
    ensures { OnOk result (out.new.items ≡ out.old.items ++ flat_map block_ids blocks.now) }
{
    for block in blocks {
        push_block(out, block)?;
    }
    Ok(())
}

fn push_interval(out: &mut Vec<Uuid>, interval: &Interval) -> Result<(), AllocError>
    ensures { OnOk result (out.new.items ≡ out.old.items ++ interval_ids interval.now) }
{
    out.push(interval.uuid)?;
    push_blocks(out, interval.blocks.as_slice())
}

fn push_intervals(out: &mut Vec<Uuid>, intervals: &[Interval]) -> Result<(), AllocError>
    ensures { OnOk result (out.new.items ≡ out.old.items ++ flat_map interval_ids intervals.now) }
{
    for interval in intervals {
        push_interval(out, interval)?;
    }
    Ok(())
}

fn push_section(out: &mut Vec<Uuid>, section: &Section) -> Result<(), AllocError>
    ensures { OnOk result (out.new.items ≡ out.old.items ++ section_ids section.now) }
{
    out.push(section.uuid)?;
    push_intervals(out, section.intervals.as_slice())
}

fn push_sections(out: &mut Vec<Uuid>, sections: &[Section]) -> Result<(), AllocError>
    ensures { OnOk result (out.new.items ≡ out.old.items ++ flat_map section_ids sections.now) }
{
    for section in sections {
        push_section(out, section)?;
    }
    Ok(())
}

fn push_symbols(out: &mut Vec<Uuid>, symbols: &[Symbol]) -> Result<(), AllocError>
    ensures { OnOk result (out.new.items ≡ out.old.items ++ map symbol_id symbols.now) }
{
    for symbol in symbols {
        out.push(symbol.uuid)?;
    }
    Ok(())
}

fn push_module(out: &mut Vec<Uuid>, module: &Module) -> Result<(), AllocError>
    ensures { OnOk result (out.new.items ≡ out.old.items ++ module_ids «module».now) }
{
    out.push(module.uuid)?;
    out.extend_from_slice(module.proxies.as_slice())?;
    push_symbols(out, module.symbols.as_slice())?;
    push_sections(out, module.sections.as_slice())
}

fn push_modules(out: &mut Vec<Uuid>, modules: &[Module]) -> Result<(), AllocError>
    ensures { OnOk result (out.new.items ≡ out.old.items ++ flat_map module_ids modules.now) }
{
    for module in modules {
        push_module(out, module)?;
    }
    Ok(())
}

fn push_ir(out: &mut Vec<Uuid>, ir: &Ir) -> Result<(), AllocError>
    ensures { OnOk result (out.new.items ≡ out.old.items ++ ir_ids ir.now) }
{
    out.push(ir.uuid)?;
    push_modules(out, ir.modules.as_slice())
}

/// The identifiers of all nodes, in order.
pub(crate) fn node_ids(alloc: Global, ir: &Ir) -> Result<Vec<Uuid>, AllocError>
    ensures { IfOk result (λ made. made.items ≡ ids (nodes ir.now)) }
{
    let mut out = Vec::new(alloc);
    push_ir(&mut out, ir)?;
    Ok(out)
}
