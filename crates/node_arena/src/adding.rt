ghost use Rattle.std.specs.Prelude.{◌≡◌, ◌<◌, None, Err, false, length, IfOk, OnOk, OnErr};
ghost use Rattle.gr_base.specs.declared.end.End.TheVariants.{Fault};
ghost use Rattle.gt_model.specs.Linked.{is_bare_body};
ghost use Rattle.gt_model.specs.Views.{referent_of};
ghost use Rattle.node_arena.specs.declared.fault.AddFault.{AddFault};
ghost use Rattle.node_arena.specs.declared.fault.AddFault.TheVariants.{Taken};
ghost use Rattle.node_arena.specs.Plain.{body_id};
ghost use Rattle.node_arena.specs.Changes.{IsFree, IsHeld, loose_payload, loose_symbol, symbol_added, empty_interval, interval_added, new_block, block_added};

use crate::fault::AddFault;
use crate::graph::Graph;
use crate::holding::{hold_block, hold_interval, hold_symbol, identifier};
use crate::ids::{BlockId, IntervalId, ModuleId, SectionId, SymbolId};
use crate::nodes::{BlockNode, IntervalNode, NodePayload, SymbolNode};
use gr_base::{Bytes, End, Seq};
use gt_model::{Body, Payload, Symbol};
use uuid::Uuid;

fn payload_without_referent(payload: Payload) -> NodePayload
    ensures { result ≡ loose_payload payload }
{
    match payload {
        Payload::Nothing | Payload::Referent(_) => NodePayload::Nothing,
        Payload::Value(value) => NodePayload::Value(value),
    }
}

impl Graph {
    /// Adds a symbol after all others of a module. It stands for nothing or for a number.
    pub fn add_symbol(
        &mut self,
        module: ModuleId,
        symbol: Symbol,
    ) -> Result<SymbolId, End<AddFault>>
        requires module { «module».index < length self.old.modules }
        requires payload { referent_of symbol.payload ≡ None }
        ensures id { IfOk result (λ id. id.index ≡ length self.old.symbols) }
        ensures added { OnOk result (self.new ≡ symbol_added self.old (loose_symbol «module» symbol)) }
        ensures free { OnOk result (IsFree self.old symbol.uuid) }
        ensures taken { (f : AddFault) → result ≡ Err (Fault f) → (f ≡ Taken symbol.uuid) × IsHeld self.old symbol.uuid }
        ensures err { OnErr result (self.new ≡ self.old) }
    {
        if self.index.contains_key(&symbol.uuid) {
            return Err(End::Fault(AddFault::Taken(symbol.uuid)));
        }
        let node = SymbolNode {
            uuid: symbol.uuid,
            name: symbol.name,
            at_end: symbol.at_end,
            payload: payload_without_referent(symbol.payload),
            module,
        };
        Ok(hold_symbol(&mut self.arena, &mut self.index, node)?)
    }

    /// Adds an interval after all others of a section. It is empty and has no address.
    pub fn add_interval(
        &mut self,
        section: SectionId,
        uuid: Uuid,
    ) -> Result<IntervalId, End<AddFault>>
        requires { section.index < length self.old.sections }
        ensures id { IfOk result (λ id. id.index ≡ length self.old.intervals) }
        ensures added { OnOk result (self.new ≡ interval_added self.old (empty_interval section uuid)) }
        ensures free { OnOk result (IsFree self.old uuid) }
        ensures taken { (f : AddFault) → result ≡ Err (Fault f) → (f ≡ Taken uuid) × IsHeld self.old uuid }
        ensures err { OnErr result (self.new ≡ self.old) }
    {
        if self.index.contains_key(&uuid) {
            return Err(End::Fault(AddFault::Taken(uuid)));
        }
        let alloc = *self.arena.intervals.allocator();
        let node = IntervalNode {
            uuid,
            has_address: false,
            address: 0,
            size: 0,
            contents: Bytes::new(alloc),
            exprs: Seq::new(alloc),
            blocks: Seq::new(alloc),
            section,
        };
        Ok(hold_interval(&mut self.arena, &mut self.index, node)?)
    }

    /// Adds a block after the named one of its interval, else last. It is code or data.
    pub fn add_block(
        &mut self,
        interval: IntervalId,
        after: Option<BlockId>,
        offset: u64,
        body: Body,
    ) -> Result<BlockId, End<AddFault>>
        requires interval { interval.index < length self.old.intervals }
        requires body { is_bare_body body ≡ false }
        ensures id { IfOk result (λ id. id.index ≡ length self.old.blocks) }
        ensures added { OnOk result (self.new ≡ block_added self.old after (new_block interval offset body)) }
        ensures free { OnOk result (IsFree self.old (body_id body)) }
        ensures taken { (f : AddFault) → result ≡ Err (Fault f) → (f ≡ Taken (body_id body)) × IsHeld self.old (body_id body) }
        ensures err { OnErr result (self.new ≡ self.old) }
    {
        let uuid = identifier(body);
        if self.index.contains_key(&uuid) {
            return Err(End::Fault(AddFault::Taken(uuid)));
        }
        let node = BlockNode {
            offset,
            body,
            interval,
        };
        Ok(hold_block(&mut self.arena, &mut self.index, after, node)?)
    }
}
