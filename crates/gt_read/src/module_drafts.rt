use crate::children::Children;
use crate::edge_drafts::CfgDraft;
use crate::ids::Identifier;
use crate::names::Name;
use gr_base::{Bytes, Seq, Text};
use gt_model::{Interval, Module, Section, Symbol};
use std::collections::BTreeMap;
use uuid::Uuid;

/// The draft of what a symbol stands for.
#[derive(Drop)]
pub enum PayloadDraft {
    Nothing,
    Value(u64),
    Referent(Identifier),
}

/// The draft of a symbol.
#[derive(Drop)]
pub struct SymbolDraft {
    pub uuid: Identifier,
    pub payload: PayloadDraft,
    pub name: Text,
    pub at_end: bool,
}

/// The draft of a proxy block.
#[derive(Drop)]
pub struct ProxyDraft {
    pub uuid: Identifier,
}

/// A table without its name, or the draft of one.
#[derive(Drop)]
pub struct TableParts {
    pub type_name: Text,
    pub bytes: Bytes,
}

/// The draft of an entry of the map from names to tables.
#[derive(Drop)]
pub struct TableEntryDraft {
    pub name: Text,
    pub value: Option<TableParts>,
}

/// An entry of that map.
#[derive(Drop)]
pub struct TableEntry {
    pub name: Text,
    pub parts: TableParts,
}

/// The draft of a section.
#[derive(Drop)]
pub struct SectionDraft {
    pub uuid: Identifier,
    pub name: Text,
    pub intervals: Children<Interval>,
    pub flags: Seq<i32>,
}

/// The draft of a module.
#[derive(Drop)]
pub struct ModuleDraft {
    pub uuid: Identifier,
    pub binary_path: Text,
    pub preferred_addr: u64,
    pub rebase_delta: i64,
    pub file_format: i32,
    pub isa: i32,
    pub name: Text,
    pub symbols: Children<Symbol>,
    pub sections: Children<Section>,
    pub proxies: Children<Uuid>,
    pub aux: BTreeMap<Name, TableParts>,
    pub entry: Identifier,
    pub byte_order: i32,
}

/// The draft of a whole file.
#[derive(Drop)]
pub struct IrDraft {
    pub uuid: Identifier,
    pub modules: Children<Module>,
    pub aux: BTreeMap<Name, TableParts>,
    pub version: u32,
    pub cfg: Option<CfgDraft>,
}
