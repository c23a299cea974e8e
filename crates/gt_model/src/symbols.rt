use crate::copying::CopyIn;
use gr_base::Text;
use std::alloc::{AllocError, Global};
use uuid::Uuid;

/// A name, and what it stands for.
#[derive(Debug, Drop)]
pub struct Symbol {
    pub uuid: Uuid,
    pub name: Text,
    /// Whether it stands for the end of its referent and not for the start.
    pub at_end: bool,
    pub payload: Payload,
}

/// What a symbol stands for.
#[derive(Clone, Copy, Debug, PartialEq, Eq)]
pub enum Payload {
    Nothing,
    /// A number.
    Value(u64),
    /// The block of this identifier.
    Referent(Uuid),
}

impl CopyIn for Symbol {
    fn copy_in(&self, alloc: Global) -> Result<Symbol, AllocError> {
        Ok(Symbol {
            uuid: self.uuid,
            name: Text::from_str(alloc, self.name.as_str())?,
            at_end: self.at_end,
            payload: self.payload,
        })
    }
}
