ghost use Rattle.gt_model.specs.Schema.{label_rows, edge_rows, cfg_rows};
ghost use Rattle.gt_model.specs.Views.{label_value, edge_value, cfg_value};
ghost use Rattle.gt_model.specs.Typed.{IsI32, typed_edge, typed_cfg};
ghost use Rattle.gt_write.specs.Spelling.{spelling};

use crate::messages::{Spelled, put_messages, put_optional_message};
use crate::records::{put_flag, put_id, put_ids, put_signed32};
use gt_model::{Cfg, Edge, Label};
use std::alloc::{AllocError, Global};

impl Spelled for Label {
    ghost spelled = { λ l. spelling label_rows (label_value l) };

    ghost typed = { λ l. IsI32 l.kind };

    fn put(&self, _: Global, out: &mut Vec<u8>) -> Result<(), AllocError> {
        put_flag(out, 1, self.conditional)?;
        put_flag(out, 2, self.direct)?;
        put_signed32(out, 3, self.kind)?;
        Ok(())
    }
}

impl Spelled for Edge {
    ghost spelled = { λ e. spelling edge_rows (edge_value e) };

    ghost typed = { typed_edge };

    fn put(&self, alloc: Global, out: &mut Vec<u8>) -> Result<(), AllocError> {
        put_id(out, 1, &self.source)?;
        put_id(out, 2, &self.target)?;
        put_optional_message(alloc, out, 5, &self.label)?;
        Ok(())
    }
}

impl Spelled for Cfg {
    ghost spelled = { λ c. spelling cfg_rows (cfg_value c) };

    ghost typed = { typed_cfg };

    fn put(&self, alloc: Global, out: &mut Vec<u8>) -> Result<(), AllocError> {
        put_messages(alloc, out, 2, &self.edges)?;
        put_ids(out, 3, &self.vertices)?;
        Ok(())
    }
}
