use crate::copying::CopyIn;
use gr_base::{Bytes, Text};
use std::alloc::{AllocError, Global};

/// An auxiliary table: its name, the name of its type, and its bytes.
#[derive(Debug, Drop)]
pub struct Aux {
    pub name: Text,
    pub type_name: Text,
    pub bytes: Bytes,
}

impl CopyIn for Aux {
    fn copy_in(&self, alloc: Global) -> Result<Aux, AllocError> {
        Ok(Aux {
            name: Text::from_str(alloc, self.name.as_str())?,
            type_name: Text::from_str(alloc, self.type_name.as_str())?,
            bytes: Bytes::from_slice(alloc, self.bytes.as_slice())?,
        })
    }
}
