//! The blocks that functions of patches are cut into.

ghost use Rattle.std.specs.Prelude.{◌≡◌, ◌+◌, ◌*◌, ◌≤◌, ◌<◌, ◌^◌, ◌++◌, ◌&&◌, ◌==◌, not, if◌then◌else◌, List, [], ◌∷◌, length, IfOk, OnOk};
ghost use Rattle.new_intervals.specs.Cutting.{all_blocks, block_from, blocks_yet};
ghost use Rattle.rewrite.specs.Functions.{blocks_from};
ghost use Rattle.sym_expr.specs.declared.patches.FunLine.{FunLine as FunLineOf};
ghost use Rattle.sym_expr.specs.declared.patches.FunLine.TheVariants.{Word as WordOf};
ghost use Rattle.sym_expr.specs.declared.patches.PatchWord.{PatchWord as PatchWordOf};
ghost use Rattle.sym_expr.specs.Patches.{function_blocks, is_control};

use crate::control::is_control;
use derived_ids::block_id;
use gr_base::Seq;
use gt_model::{Block, Body, Module};
use std::alloc::{AllocError, Global};
use sym_expr::{FunLine, Function};

/// The blocks of a function so far: those that are whole, how many words the one has that isn't, with its
/// offset, and whether the next word begins another.
#[derive(Drop)]
pub(crate) struct Blocks {
    pub whole: Vec<Block>,
    pub at: u64,
    pub words: u64,
    pub fresh: bool,
}

/// Puts the block that isn't whole behind those that are.
fn end_block(
    alloc: Global,
    module: &Module,
    function: &Function,
    blocks: &mut Blocks,
) -> Result<(), AllocError>
    requires { blocks.old.at + 4 * blocks.old.words < 2 ^ 63 }
    ensures { OnOk result ((blocks.new.whole.items ≡ blocks.old.whole.items ++ block_from «module».now function.now (length blocks.old.whole.items) blocks.old.at blocks.old.words ∷ []) × (blocks.new.at ≡ blocks.old.at + 4 * blocks.old.words) × (blocks.new.words ≡ 0) × (blocks.new.fresh ≡ blocks.old.fresh)) }
{
    let k = blocks.whole.len() as u64;
    let uuid = block_id(alloc, &module.uuid, function.name.as_str(), k)?;
    let size = 4 * blocks.words;
    blocks.whole.push(Block {
        offset: blocks.at,
        body: Body::Code {
            uuid,
            size,
            decode_mode: 0,
        },
    })?;
    blocks.at += size;
    blocks.words = 0;
    Ok(())
}

/// Ends the block that isn't whole where the next word begins another: that word goes into what is there then.
fn end_before_word(
    alloc: Global,
    module: &Module,
    function: &Function,
    blocks: &mut Blocks,
) -> Result<(), AllocError>
    requires { blocks.old.at + 4 * blocks.old.words < 2 ^ 62 }
    ensures blocks { OnOk result ((word : PatchWordOf) (rest : List FunLineOf) → blocks.new.whole.items ++ blocks_yet «module».now function.now (length blocks.new.whole.items) blocks.new.at (blocks.new.words + 1) (is_control word.word) rest ≡ all_blocks «module».now function.now blocks.old (WordOf word ∷ rest)) }
    ensures room { OnOk result (blocks.new.at + 4 * blocks.new.words ≤ blocks.old.at + 4 * blocks.old.words) }
{
    if !blocks.fresh {
        return Ok(());
    }
    if blocks.words == 0 {
        return Ok(());
    }
    end_block(alloc, module, function, blocks)
}

/// One line further.
fn add_line(
    alloc: Global,
    module: &Module,
    function: &Function,
    blocks: &mut Blocks,
    line: &FunLine,
) -> Result<(), AllocError>
    requires { blocks.old.at + 4 * blocks.old.words < 2 ^ 62 }
    ensures blocks { OnOk result ((rest : List FunLineOf) → all_blocks «module».now function.now blocks.new rest ≡ all_blocks «module».now function.now blocks.old (line.now ∷ rest)) }
    ensures room { OnOk result (blocks.new.at + 4 * blocks.new.words ≤ blocks.old.at + 4 * blocks.old.words + 4) }
{
    match line {
        FunLine::Label(_) => {
            blocks.fresh = true;
            Ok(())
        }
        FunLine::Word(word) => {
            end_before_word(alloc, module, function, blocks)?;
            blocks.words += 1;
            blocks.fresh = is_control(word.word);
            Ok(())
        }
    }
}

/// All blocks, with the one that isn't whole, if it has words.
#[tactic(auto, using(crate::proofs::Builds::none_left, crate::proofs::Builds::one_left))]
fn finished(
    alloc: Global,
    module: &Module,
    function: &Function,
    mut blocks: Blocks,
) -> Result<Seq<Block>, AllocError>
    requires { blocks.at + 4 * blocks.words < 2 ^ 63 }
    ensures { IfOk result (λ made. made ≡ all_blocks «module».now function.now blocks []) }
{
    if blocks.words == 0 {
        return Ok(Seq::from_vec(blocks.whole));
    }
    end_block(alloc, module, function, &mut blocks)?;
    Ok(Seq::from_vec(blocks.whole))
}

/// The blocks of a function.
pub(crate) fn function_blocks(
    alloc: Global,
    module: &Module,
    function: &Function,
) -> Result<Seq<Block>, AllocError>
    ensures { IfOk result (λ made. made ≡ blocks_from «module».now function.now 0 0 (function_blocks function.now)) }
{
    let mut blocks = Blocks {
        whole: Vec::new(alloc),
        at: 0,
        words: 0,
        fresh: true,
    };
    for line in function.body.as_slice() {
        add_line(alloc, module, function, &mut blocks, line)?;
    }
    let made = finished(alloc, module, function, blocks)?;
    Ok(made)
}
