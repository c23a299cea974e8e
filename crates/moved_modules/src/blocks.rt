//! The blocks in which words are inserted, in their parts.

ghost use Rattle.std.specs.Prelude.{◌≡◌, ◌++◌, ◌∷◌, [], filter, map, unwrap_or, IfOk, OnOk};
ghost use Rattle.std.specs.List.{filter_map};
ghost use Rattle.std.specs.Str.{bytes_eq};
ghost use Rattle.block_parts.specs.Parts.{parts};
ghost use Rattle.indexmap.specs.IndexMap.{get};
ghost use Rattle.moved_modules.specs.Moved.{is_patched, moved_block, moved_part};
ghost use Rattle.moved_modules.specs.Targets.{targets_in, word_from};
ghost use Rattle.sym_expr.specs.Points.{code_blocks, code_of};

use crate::moved::{MovedBlock, Part, WordFrom};
use crate::targets::{copy_target, targets_by_block};
use block_parts::{Origin, Part as CutPart};
use gr_base::Seq;
use gt_model::Module;
use indexmap::IndexMap;
use new_symbols::id_of_part;
use std::alloc::{AllocError, Global};
use sym_expr::{CodeBlock, PatchTable, PatchTarget, Piece, Program, Stretch};
use taken_ids::parts_of_block;
use uuid::Uuid;

/// Where a word comes from, of a block in which words with these targets are inserted.
fn word_from(
    alloc: Global,
    targets: &[Option<PatchTarget>],
    origin: Origin,
) -> Result<WordFrom, AllocError>
    ensures { IfOk result (λ from. from ≡ word_from targets.now origin) }
{
    match origin {
        Origin::Own(offset) => Ok(WordFrom::Old(offset)),
        Origin::Inserted(k) => match targets.get(k as usize) {
            Some(target) => {
                let target = copy_target(alloc, target)?;
                Ok(WordFrom::Insert(target))
            }
            None => Ok(WordFrom::Insert(None)),
        },
    }
}

/// A part of a block in which words with these targets are inserted.
fn moved_part(
    alloc: Global,
    module: &Module,
    targets: &[Option<PatchTarget>],
    block: &CodeBlock,
    part: &CutPart,
) -> Result<Part, AllocError>
    ensures { IfOk result (λ moved. moved ≡ moved_part «module».now targets.now block.now part.now) }
{
    let uuid = id_of_part(alloc, module, &block.id, part)?;
    let own = part.words.as_slice();
    let size = 4 * own.len() as u64;
    let mut words = Vec::new(alloc);
    for word in own {
        let from = word_from(alloc, targets, word.origin)?;
        words.push(from)?;
    }
    Ok(Part {
        uuid,
        start: part.start,
        size,
        words: Seq::from_vec(words),
    })
}

/// The parts of a block in which words with these targets are inserted.
fn moved_parts(
    alloc: Global,
    module: &Module,
    targets: &[Option<PatchTarget>],
    block: &CodeBlock,
) -> Result<Seq<Part>, AllocError>
    ensures { IfOk result (λ moved. moved ≡ map (moved_part «module».now targets.now block.now) (parts block.now)) }
{
    let parts = parts_of_block(alloc, block)?;
    let mut moved = Vec::new(alloc);
    for part in parts.as_slice() {
        let made = moved_part(alloc, module, targets, block, part)?;
        moved.push(made)?;
    }
    Ok(Seq::from_vec(moved))
}

fn moved_block(
    alloc: Global,
    module: &Module,
    targets: &IndexMap<Uuid, Seq<Option<PatchTarget>>>,
    block: &CodeBlock,
) -> Result<MovedBlock, AllocError>
    ensures { IfOk result (λ moved. moved ≡ moved_block «module».now (λ id. unwrap_or (get bytes_eq targets.now id) []) block.now) }
{
    let none = Seq::new(alloc);
    let own = targets.get(&block.id).unwrap_or(&none);
    let parts = moved_parts(alloc, module, own.as_slice(), block)?;
    Ok(MovedBlock {
        block: block.id,
        parts,
    })
}

/// The block that a piece is, if words are inserted in it, behind those before.
fn push_piece(
    alloc: Global,
    blocks: &mut Vec<MovedBlock>,
    module: &Module,
    targets: &IndexMap<Uuid, Seq<Option<PatchTarget>>>,
    piece: &Piece,
) -> Result<(), AllocError>
    ensures { OnOk result (blocks.new.items ≡ blocks.old.items ++ map (moved_block «module».now (λ id. unwrap_or (get bytes_eq targets.now id) [])) (filter is_patched (filter_map code_of (piece.now ∷ [])))) }
{
    match piece {
        Piece::Code(block) if !block.inserted.is_empty() => {
            let made = moved_block(alloc, module, targets, block)?;
            blocks.push(made)?;
            Ok(())
        }
        _ => Ok(()),
    }
}

fn push_stretch(
    alloc: Global,
    blocks: &mut Vec<MovedBlock>,
    module: &Module,
    targets: &IndexMap<Uuid, Seq<Option<PatchTarget>>>,
    stretch: &Stretch,
) -> Result<(), AllocError>
    ensures { OnOk result (blocks.new.items ≡ blocks.old.items ++ map (moved_block «module».now (λ id. unwrap_or (get bytes_eq targets.now id) [])) (filter is_patched (filter_map code_of stretch.now.pieces))) }
{
    for piece in stretch.pieces.as_slice() {
        push_piece(alloc, blocks, module, targets, piece)?;
    }
    Ok(())
}

/// The blocks of a program in which words are inserted, by what these name.
fn program_blocks(
    alloc: Global,
    module: &Module,
    targets: &IndexMap<Uuid, Seq<Option<PatchTarget>>>,
    program: &Program,
) -> Result<Vec<MovedBlock>, AllocError>
    ensures { IfOk result (λ made. made.items ≡ map (moved_block «module».now (λ id. unwrap_or (get bytes_eq targets.now id) [])) (filter is_patched (code_blocks program.now))) }
{
    let mut blocks = Vec::new(alloc);
    for stretch in program.stretches.as_slice() {
        push_stretch(alloc, &mut blocks, module, targets, stretch)?;
    }
    Ok(blocks)
}

/// The blocks of a program in which patches insert words, in block order.
pub(crate) fn moved_blocks(
    alloc: Global,
    module: &Module,
    program: &Program,
    patches: &PatchTable,
) -> Result<Seq<MovedBlock>, AllocError>
    ensures { IfOk result (λ blocks. blocks ≡ map (moved_block «module».now (targets_in patches.now)) (filter is_patched (code_blocks program.now))) }
{
    let targets = targets_by_block(alloc, patches)?;
    let blocks = program_blocks(alloc, module, &targets, program)?;
    Ok(Seq::from_vec(blocks))
}
