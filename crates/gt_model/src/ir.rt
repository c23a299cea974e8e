ghost use Rattle.std.specs.Prelude.{◌≡◌, IfOk};

use crate::copying::{CopyIn, copy_all};
use crate::edges::Cfg;
use crate::modules::Module;
use crate::tables::Aux;
use gr_base::Seq;
use std::alloc::{AllocError, Global};
use uuid::Uuid;

/// A whole GTIRB file.
///
/// The tables ascend by the bytes of their names.
#[derive(Debug, Drop)]
pub struct Ir {
    pub uuid: Uuid,
    pub modules: Seq<Module>,
    pub aux: Seq<Aux>,
    pub version: u32,
    pub cfg: Option<Cfg>,
}

impl Ir {
    /// An equal value, in memory of its own.
    pub fn copy(&self, alloc: Global) -> Result<Ir, AllocError>
        ensures { IfOk result (λ copy. copy ≡ self.now) }
    {
        self.copy_in(alloc)
    }
}

impl CopyIn for Ir {
    fn copy_in(&self, alloc: Global) -> Result<Ir, AllocError> {
        let cfg = match &self.cfg {
            None => None,
            Some(cfg) => Some(cfg.copy_in(alloc)?),
        };
        Ok(Ir {
            uuid: self.uuid,
            modules: copy_all(alloc, &self.modules)?,
            aux: copy_all(alloc, &self.aux)?,
            version: self.version,
            cfg,
        })
    }
}
