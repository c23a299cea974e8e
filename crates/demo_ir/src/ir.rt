ghost use Rattle.std.specs.Prelude.{◌≡◌, ◌<◌, ◌≤◌, ◌^◌, ◌∷◌, [], IfOk};
ghost use Rattle.demo_ir.specs.Demo.{interval, section, demo_module, demo_ir};

use crate::blocks::{blocks_of, branches_of, symbols_of};
use crate::code::contents;
use crate::identifiers::{identifier, numbered};
use gr_base::{Seq, Text};
use gt_model::{Interval, Ir, Module, Section};
use std::alloc::{AllocError, Global};

/// A list of one item.
fn only<T: Drop>(alloc: Global, item: T) -> Result<Seq<T>, AllocError>
    ensures { IfOk result (λ items. items ≡ item ∷ []) }
{
    let mut items = Seq::new(alloc);
    items.push(item)?;
    Ok(items)
}

fn interval(alloc: Global, seed: u64, blocks: u64) -> Result<Interval, AllocError>
    requires seed { seed < 2 ^ 32 }
    requires blocks { blocks ≤ 100000 }
    ensures { IfOk result (λ made. made ≡ interval seed blocks) }
{
    let contents = contents(alloc, seed, blocks)?;
    Ok(Interval {
        uuid: identifier(b"demo/interval"),
        blocks: blocks_of(alloc, blocks)?,
        exprs: branches_of(alloc, blocks)?,
        has_address: false,
        address: 0,
        size: contents.len() as u64,
        contents,
    })
}

fn section(alloc: Global, seed: u64, blocks: u64) -> Result<Section, AllocError>
    requires seed { seed < 2 ^ 32 }
    requires blocks { blocks ≤ 100000 }
    ensures { IfOk result (λ made. made ≡ section seed blocks) }
{
    Ok(Section {
        uuid: identifier(b"demo/section"),
        name: Text::from_str(alloc, ".text")?,
        intervals: only(alloc, interval(alloc, seed, blocks)?)?,
        flags: Seq::from_slice(alloc, &[1, 3, 4, 5])?,
    })
}

fn demo_module(alloc: Global, seed: u64, blocks: u64) -> Result<Module, AllocError>
    requires seed { seed < 2 ^ 32 }
    requires blocks { blocks ≤ 100000 }
    ensures { IfOk result (λ made. made ≡ demo_module seed blocks) }
{
    Ok(Module {
        uuid: identifier(b"demo/module"),
        binary_path: Text::new(alloc),
        preferred_addr: 0,
        rebase_delta: 0,
        file_format: 0,
        isa: 7,
        name: Text::new(alloc),
        symbols: symbols_of(alloc, blocks)?,
        sections: only(alloc, section(alloc, seed, blocks)?)?,
        proxies: Seq::new(alloc),
        aux: Seq::new(alloc),
        entry: Some(numbered(alloc, "block", 0)?),
        byte_order: 2,
    })
}

/// The generated IR.
pub fn demo_ir(alloc: Global, seed: u64, blocks: u64) -> Result<Ir, AllocError>
    requires seed { seed < 2 ^ 32 }
    requires blocks { blocks ≤ 100000 }
    ensures { IfOk result (λ ir. ir ≡ demo_ir seed blocks) }
{
    Ok(Ir {
        uuid: identifier(b"demo/ir"),
        modules: only(alloc, demo_module(alloc, seed, blocks)?)?,
        aux: Seq::new(alloc),
        version: 4,
        cfg: None,
    })
}
