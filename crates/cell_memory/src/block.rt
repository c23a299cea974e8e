//! The data blocks of a program as cells.

ghost use Rattle.std.specs.Prelude.{◌≡◌, ℕ, List, [], ◌∷◌, IfOk, OnOk};
ghost use Rattle.std.specs.List.{AllByRecursion};
ghost use Rattle.std.specs.Option.{option_map, option_or};
ghost use Rattle.std.specs.Str.{bytes_eq};
ghost use Rattle.indexmap.specs.IndexMap.{get};
ghost use Rattle.cell_memory.specs.Blocks.{AreFit, IsFit, data_in};
ghost use Rattle.cell_memory.specs.Shown.{shown};
ghost use Rattle.sym_expr.specs.Points.{data_at};
ghost use Rattle.sym_expr.specs.States.{block_cells};
ghost use Rattle.sym_expr.specs.WellMade.{well_made};

use crate::cells::Cells;
use indexmap::IndexMap;
use std::alloc::{AllocError, Global};
use sym_expr::{DataBlock, Piece, Program};
use uuid::Uuid;

/// The cells of a data block. Where two fillings share a cell the first counts, so that they are put from
/// the last on.
fn block_cells(alloc: Global, block: &DataBlock) -> Result<Cells, AllocError>
    requires { IsFit block.now }
    ensures { IfOk result (λ cells. shown cells ≡ block_cells block.now) }
{
    let bytes = Vec::from_slice(alloc, block.bytes.as_slice())?;
    let mut cells = Cells::new(alloc, bytes)?;
    let fillings = block.fillings.as_slice();
    let mut left = fillings.len();
    while left > 0 {
        left -= 1;
        let (offset, filling) = &fillings[left];
        cells.put_filling(*offset, filling)?;
    }
    Ok(cells)
}

/// Keeps the cells of a piece, if it is a data block.
fn keep_piece(
    alloc: Global,
    blocks: &mut IndexMap<Uuid, Cells>,
    piece: &Piece,
) -> Result<(), AllocError>
    requires { AreFit (piece.now ∷ []) }
    ensures { OnOk result ((id : List ℕ) → option_map shown (get bytes_eq blocks.new id) ≡ option_or (option_map block_cells (data_in (piece.now ∷ []) id)) (option_map shown (get bytes_eq blocks.old id))) }
{
    let Piece::Data(block) = piece else {
        return Ok(());
    };
    let cells = block_cells(alloc, block)?;
    blocks.insert(block.id, cells)?;
    Ok(())
}

/// Keeps the cells of the data blocks among pieces. Of two with one identifier the first counts, so that
/// they are kept from the last on.
fn keep_pieces(
    alloc: Global,
    blocks: &mut IndexMap<Uuid, Cells>,
    pieces: &[Piece],
) -> Result<(), AllocError>
    requires { AreFit pieces.now }
    ensures { OnOk result ((id : List ℕ) → option_map shown (get bytes_eq blocks.new id) ≡ option_or (option_map block_cells (data_in pieces.now id)) (option_map shown (get bytes_eq blocks.old id))) }
{
    let mut left = pieces.len();
    while left > 0 {
        left -= 1;
        keep_piece(alloc, blocks, &pieces[left])?;
    }
    Ok(())
}

/// The cells of the data blocks of a program, by their identifiers.
pub fn program_blocks(alloc: Global, program: &Program) -> Result<IndexMap<Uuid, Cells>, AllocError>
    requires { well_made program.now }
    ensures { IfOk result (λ blocks. (id : List ℕ) → option_map shown (get bytes_eq blocks id) ≡ option_map block_cells (data_at program.now id)) }
{
    let mut blocks = IndexMap::new(alloc);
    let stretches = program.stretches.as_slice();
    let mut left = stretches.len();
    while left > 0 {
        left -= 1;
        keep_pieces(alloc, &mut blocks, stretches[left].pieces.as_slice())?;
    }
    Ok(blocks)
}
