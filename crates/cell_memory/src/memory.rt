//! The memory of a symbolic machine.

ghost use Rattle.std.specs.Prelude.{◌≡◌, ◌≤◌, ◌^◌, IfOk};
ghost use Rattle.cell_memory.specs.Memory.{cells_of};
ghost use Rattle.sym_expr.specs.States.{object_cells};
ghost use Rattle.sym_expr.specs.WellMade.{well_made};

use crate::block::program_blocks;
use crate::cells::Cells;
use indexmap::IndexMap;
use std::alloc::{AllocError, Global};
use sym_expr::Program;
use uuid::Uuid;

/// The cells of the stack and of each data block.
#[derive(Drop)]
pub struct CellMemory {
    pub(crate) stack: Cells,
    pub(crate) blocks: IndexMap<Uuid, Cells>,
}

impl CellMemory {
    /// The memory of a program before its first instruction, with a stack of so many zeros.
    pub fn open(alloc: Global, program: &Program, stack: u64) -> Result<CellMemory, AllocError>
        requires well { well_made program.now }
        requires stack { stack ≤ 2 ^ 24 }
        ensures { IfOk result (λ memory. cells_of memory ≡ object_cells program.now stack) }
    {
        let zeros = vec![in alloc; 0; stack as usize]?;
        let cells = Cells::new(alloc, zeros)?;
        let blocks = program_blocks(alloc, program)?;
        Ok(CellMemory {
            stack: cells,
            blocks,
        })
    }
}
