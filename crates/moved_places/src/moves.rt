ghost use Rattle.std.specs.Prelude.{◌≡◌, IfOk};
ghost use Rattle.moved_places.specs.Moved.{block_place, interval_place, place_to};
ghost use Rattle.rewrite.specs.Places.{moved_place};
ghost use Rattle.sym_expr.specs.declared.patches.PatchTable.{PatchTable};
ghost use Rattle.sym_expr.specs.Program.{program as program_of};
ghost use Rattle.sym_expr.specs.Tables.{Tables};
ghost use Rattle.sym_expr.specs.WellMade.{well_made};

use crate::index::{index_blocks, index_intervals};
use crate::interval::IntervalMoves;
use crate::kept::BlockMoves;
use crate::looking::{offset_in_interval, place_in_block};
use crate::sizes::interval_sizes;
use aux_codec::{Place, Places};
use gt_model::Module;
use indexmap::IndexMap;
use std::alloc::{AllocError, Global};
use sym_expr::Program;
use uuid::Uuid;

/// Where the Places of a module go once it is rewritten: what is kept of its code blocks, of the intervals of its program
/// and of the sizes of its own.
#[derive(Drop)]
pub struct Moves {
    pub(crate) blocks: IndexMap<Uuid, BlockMoves>,
    pub(crate) intervals: IndexMap<Uuid, IntervalMoves>,
    pub(crate) sizes: IndexMap<Uuid, u64>,
}

impl Moves {
    /// The moves of a module of which this is the program, with patches.
    pub fn new(alloc: Global, module: &Module, program: &Program) -> Result<Moves, AllocError>
        requires { well_made program.now }
        ensures { IfOk result (λ moves. (t : Tables) (p : PatchTable) → program.now ≡ program_of «module».now t p → place_to moves ≡ moved_place «module».now t p) }
    {
        let blocks = index_blocks(alloc, module, program)?;
        let intervals = index_intervals(alloc, program)?;
        let sizes = interval_sizes(alloc, module)?;
        Ok(Moves {
            blocks,
            intervals,
            sizes,
        })
    }

    /// Where a Place in a code block goes.
    fn block_place(&self, at: &Place) -> Option<Place>
        ensures { result ≡ block_place self.now.blocks at.now }
    {
        let block = self.blocks.get(&at.id)?;
        place_in_block(block, at.offset)
    }

    /// Where a Place in an interval goes.
    fn interval_place(&self, at: &Place) -> Option<Place>
        ensures { result ≡ interval_place self.now.intervals self.now.sizes at.now }
    {
        let size = self.sizes.get(&at.id)?;
        if at.offset > *size {
            return None;
        }
        let interval = self.intervals.get(&at.id)?;
        Some(Place {
            id: at.id,
            offset: offset_in_interval(interval, at.offset),
        })
    }
}

impl Places for Moves {
    ghost placed = { place_to };

    /// A look-up, and a search among the pieces of an interval and their inserted words.
    fn place(&self, at: &Place) -> Place {
        match self.block_place(at) {
            Some(place) => place,
            None => self.interval_place(at).unwrap_or(*at),
        }
    }
}
