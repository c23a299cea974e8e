//! What a text of assembly gives.

use asm_lines::AsmItem;
use gr_base::{Seq, Text};
use uuid::Uuid;

/// A place in a module.
#[derive(Clone, Copy, Debug, Drop)]
pub enum AsmAt {
    /// This address, whatever the layout.
    Absolute(u64),
    /// So many bytes into an interval.
    Inside(Uuid, u64),
}

/// A label: the k-th of its name, from 1, and where it is.
#[derive(Debug, Drop)]
pub struct AsmLabel {
    pub name: Text,
    pub ordinal: u64,
    pub at: AsmAt,
}

/// An interval, with what stands in it.
#[derive(Debug, Drop)]
pub struct AsmInterval {
    pub uuid: Uuid,
    pub align: u64,
    pub residue: Option<u64>,
    pub items: Seq<AsmItem>,
}

/// A module of assembly.
#[derive(Debug, Drop)]
pub struct AsmModule {
    pub intervals: Seq<AsmInterval>,
    pub labels: Seq<AsmLabel>,
    pub entry: AsmAt,
}
