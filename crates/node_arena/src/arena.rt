use crate::ids::{CfgEnd, EdgeId};
use crate::nodes::{
    BlockNode, EdgeNode, IntervalNode, ModuleNode, ProxyNode, SectionNode, SymbolNode,
};
use gr_base::Seq;
use gt_model::Aux;
use uuid::Uuid;

/// The nodes of a graph: one list of each kind, in which an identifier is a place, the modules in order,
/// and the live edges in order.
#[derive(Debug, Drop)]
pub struct Arena {
    pub uuid: Uuid,
    pub version: u32,
    pub aux: Seq<Aux>,
    pub modules: Vec<ModuleNode>,
    pub sections: Vec<SectionNode>,
    pub intervals: Vec<IntervalNode>,
    pub blocks: Vec<BlockNode>,
    pub symbols: Vec<SymbolNode>,
    pub proxies: Vec<ProxyNode>,
    pub edges: Vec<EdgeNode>,
    pub live: Vec<EdgeId>,
    pub vertices: Vec<CfgEnd>,
    pub has_cfg: bool,
}
