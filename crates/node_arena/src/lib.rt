//! An IR as a graph: its nodes in arenas, its references as identifiers of nodes that were checked once,
//! and an index from identifiers to nodes. It stays well linked through every change.
#![tactic(auto)]

mod adding;
mod arena;
mod bare;
mod building;
mod checks;
mod copies;
mod draft;
mod edges;
mod fault;
mod graph;
mod holding;
mod ids;
mod index;
mod landing;
pub mod laws;
mod linking;
mod nodes;
mod plain;
mod refs;
mod setting;

pub use fault::{AddFault, CheckFault};
pub use graph::Graph;
pub use ids::{
    BlockId, CfgEnd, EdgeId, IntervalId, ModuleId, NodeRef, ProxyId, SectionId, SymbolId,
};
pub use nodes::{
    BlockNode, EdgeNode, IntervalNode, ModuleNode, NodePayload, SectionNode, SymbolNode,
};
