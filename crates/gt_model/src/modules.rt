use crate::copying::{CopyIn, copy_all};
use crate::intervals::Interval;
use crate::symbols::Symbol;
use crate::tables::Aux;
use gr_base::{Seq, Text};
use std::alloc::{AllocError, Global};
use uuid::Uuid;

/// One binary: its symbols, sections and proxy blocks.
///
/// The tables ascend by the bytes of their names.
#[derive(Debug, Drop)]
pub struct Module {
    pub uuid: Uuid,
    pub binary_path: Text,
    pub preferred_addr: u64,
    pub rebase_delta: i64,
    pub file_format: i32,
    pub isa: i32,
    pub name: Text,
    pub symbols: Seq<Symbol>,
    pub sections: Seq<Section>,
    pub proxies: Seq<Uuid>,
    pub aux: Seq<Aux>,
    pub entry: Option<Uuid>,
    pub byte_order: i32,
}

/// A named part of a module. The flags are GTIRB's numbers: Readable 1, Writable 2, Executable 3,
/// Loaded 4, Initialized 5, ThreadLocal 6.
#[derive(Debug, Drop)]
pub struct Section {
    pub uuid: Uuid,
    pub name: Text,
    pub intervals: Seq<Interval>,
    pub flags: Seq<i32>,
}

impl CopyIn for Section {
    fn copy_in(&self, alloc: Global) -> Result<Section, AllocError> {
        Ok(Section {
            uuid: self.uuid,
            name: Text::from_str(alloc, self.name.as_str())?,
            intervals: copy_all(alloc, &self.intervals)?,
            flags: Seq::from_slice(alloc, self.flags.as_slice())?,
        })
    }
}

impl CopyIn for Module {
    fn copy_in(&self, alloc: Global) -> Result<Module, AllocError> {
        Ok(Module {
            uuid: self.uuid,
            binary_path: Text::from_str(alloc, self.binary_path.as_str())?,
            preferred_addr: self.preferred_addr,
            rebase_delta: self.rebase_delta,
            file_format: self.file_format,
            isa: self.isa,
            name: Text::from_str(alloc, self.name.as_str())?,
            symbols: copy_all(alloc, &self.symbols)?,
            sections: copy_all(alloc, &self.sections)?,
            proxies: Seq::from_slice(alloc, self.proxies.as_slice())?,
            aux: copy_all(alloc, &self.aux)?,
            entry: self.entry,
            byte_order: self.byte_order,
        })
    }
}
