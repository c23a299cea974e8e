ghost use Rattle.std.specs.Prelude.{◌≡◌, ◌<◌, length};
ghost use Rattle.gt_model.specs.Ordered.{ordered_exprs};
ghost use Rattle.node_arena.specs.declared.nodes.NodePayload.TheVariants as payloads;
ghost use Rattle.node_arena.specs.Arenas.{module_at, interval_at, block_at, symbol_at};
ghost use Rattle.node_arena.specs.Changes.{with_module, with_interval, with_block, with_symbol, with_table, sized, Reordered};
ghost use Rattle.node_arena.specs.Sound.{NamesSymbolsOf, module_of_interval, module_of_block};

use crate::graph::Graph;
use crate::ids::{BlockId, IntervalId, ModuleId, SymbolId};
use crate::nodes::NodePayload;
use gr_base::{Bytes, Seq};
use gt_model::{Aux, Body, Expr};
use std::mem;

/// A body of another size.
fn resized(body: Body, size: u64) -> Body
    ensures { result ≡ sized body size }
{
    match body {
        Body::Bare => Body::Bare,
        Body::Code {
            uuid,
            decode_mode,
            ..
        } => Body::Code {
            uuid,
            size,
            decode_mode,
        },
        Body::Data { uuid, .. } => Body::Data { uuid, size },
    }
}

/// Gives the first table of a name other bytes.
fn put_table(tables: &mut Vec<Aux>, name: &str, bytes: Bytes)
    ensures { tables.new.items ≡ with_table tables.old.items name.now bytes }
{
    for k in 0..tables.len() {
        if tables[k].name.as_str() == name {
            tables[k].bytes = bytes;
            return;
        }
    }
}

impl Graph {
    /// Moves a block, and gives it another size. It takes no memory, as all calls that set something.
    pub fn set_block(&mut self, block: BlockId, offset: u64, size: u64)
        requires { block.index < length self.old.blocks }
        ensures { let n = block_at self.old block in
            self.new ≡ with_block self.old block (record n { offset = offset; body = sized n.body size }) }
    {
        let node = &mut self.arena.blocks[block.index];
        node.offset = offset;
        node.body = resized(node.body, size);
    }

    /// Lets a symbol stand for a block of its module.
    pub fn set_referent(&mut self, symbol: SymbolId, block: BlockId)
        requires symbol { symbol.index < length self.old.symbols }
        requires block { block.index < length self.old.blocks }
        requires same_module { module_of_block self.old block ≡ (symbol_at self.old symbol).module.index }
        ensures { let n = symbol_at self.old symbol in
            self.new ≡ with_symbol self.old symbol (record n { payload = payloads.Block block }) }
    {
        self.arena.symbols[symbol.index].payload = NodePayload::Block(block);
    }

    /// Gives an interval other contents, and another size.
    pub fn set_contents(&mut self, interval: IntervalId, contents: Bytes, size: u64)
        requires { interval.index < length self.old.intervals }
        ensures { let n = interval_at self.old interval in
            self.new ≡ with_interval self.old interval (record n { contents = contents; size = size }) }
    {
        let node = &mut self.arena.intervals[interval.index];
        node.contents = contents;
        node.size = size;
    }

    /// Gives an interval other expressions, which ascend and name symbols of its module.
    pub fn set_exprs(&mut self, interval: IntervalId, exprs: Seq<Expr>)
        requires interval { interval.index < length self.old.intervals }
        requires order { ordered_exprs exprs }
        requires symbols { NamesSymbolsOf self.old (module_of_interval self.old interval) exprs }
        ensures { let n = interval_at self.old interval in
            self.new ≡ with_interval self.old interval (record n { exprs = exprs }) }
    {
        self.arena.intervals[interval.index].exprs = exprs;
    }

    /// Gives the blocks of an interval another order. With `add_block` at the end many blocks find their places in one pass.
    pub fn order_blocks(&mut self, interval: IntervalId, blocks: Seq<BlockId>)
        requires interval { interval.index < length self.old.intervals }
        requires same_blocks { Reordered (interval_at self.old interval).blocks blocks }
        ensures { let n = interval_at self.old interval in
            self.new ≡ with_interval self.old interval (record n { blocks = blocks }) }
    {
        self.arena.intervals[interval.index].blocks = blocks;
    }

    /// Gives the table of a name other bytes. Where there is none of that name nothing changes.
    pub fn set_table(&mut self, module: ModuleId, name: &str, bytes: Bytes)
        requires { «module».index < length self.old.modules }
        ensures { let n = module_at self.old «module» in
            self.new ≡ with_module self.old «module» (record n { aux = with_table n.aux name.now bytes }) }
    {
        let none = Seq::new(*self.arena.modules.allocator());
        let node = &mut self.arena.modules[module.index];
        let mut tables = mem::replace(&mut node.aux, none).into_vec();
        put_table(&mut tables, name, bytes);
        node.aux = Seq::from_vec(tables);
    }
}
