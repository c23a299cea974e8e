//! Functions of patches as intervals.

ghost use Rattle.std.specs.Prelude.{◌≡◌, ◌+◌, ◌*◌, ◌≤◌, ◌<◌, ◌^◌, ◌++◌, List, [], ◌∷◌, length, map, IfOk, OnOk};
ghost use Rattle.std.specs.List.{AllByRecursion};
ghost use Rattle.module_program.specs.Building.{all_pieces, block_piece, is_begun, with_word};
ghost use Rattle.module_program.specs.Knowing.{KnowsNames, NamesKnown, HasGoodLines, IsGoodLine};
ghost use Rattle.sym_expr.specs.declared.patches.FunLine.{FunLine as FunLineOf};
ghost use Rattle.sym_expr.specs.declared.patches.FunLine.TheVariants.{Word as WordOf};
ghost use Rattle.sym_expr.specs.declared.patches.PatchWord.{PatchWord as PatchWordOf};
ghost use Rattle.sym_expr.specs.Program.{function_stretch};

use crate::context::Context;
use crate::cut::is_control;
use derived_ids::{block_id, interval_id};
use gr_base::Seq;
use std::alloc::{AllocError, Global};
use std::mem;
use sym_expr::{CodeBlock, FunLine, Function, PatchWord, Piece, Stretch, Word};

/// The blocks of a function so far: those that are whole, and the words of the one that isn't, with its
/// offset, and whether the next word begins another.
#[derive(Drop)]
pub(crate) struct Blocks {
    pub whole: Vec<Piece>,
    pub own: Vec<Word>,
    pub at: u64,
    pub fresh: bool,
}

/// Puts a word behind those before it.
fn push_word(words: &mut Vec<Word>, word: Word) -> Result<(), AllocError>
    ensures { OnOk result (words.new.items ≡ words.old.items ++ word ∷ []) }
{
    let Word { word, target } = word;
    words.push(Word { word, target })?;
    Ok(())
}

/// There are words.
fn is_begun(words: &[Word]) -> bool
    ensures { result ≡ is_begun words.now }
{
    match words {
        [] => false,
        _ => true,
    }
}

/// Puts the block that isn't whole behind those that are.
fn end_block(
    alloc: Global,
    context: &Context<'_>,
    function: &Function,
    blocks: &mut Blocks,
) -> Result<(), AllocError>
    requires { blocks.old.at + 4 * length blocks.old.own.items < 2 ^ 63 }
    ensures { OnOk result ((blocks.new.whole.items ≡ blocks.old.whole.items ++ block_piece context.now.module function.now (length blocks.old.whole.items) blocks.old.at blocks.old.own.items ∷ []) × (blocks.new.own.items ≡ []) × (blocks.new.at ≡ blocks.old.at + 4 * length blocks.old.own.items) × (blocks.new.fresh ≡ blocks.old.fresh)) }
{
    let k = blocks.whole.len() as u64;
    let id = block_id(alloc, &context.module.uuid, function.name.as_str(), k)?;
    let words = blocks.own.len() as u64;
    let own = mem::replace(&mut blocks.own, Vec::new(alloc));
    blocks.whole.push(Piece::Code(CodeBlock {
        id,
        offset: blocks.at,
        own: Seq::from_vec(own),
        inserted: Seq::new(alloc),
    }))?;
    blocks.at += 4 * words;
    Ok(())
}

/// Ends the block that isn't whole where the next word begins another: that word goes into what is there then.
fn end_before_word(
    alloc: Global,
    context: &Context<'_>,
    function: &Function,
    blocks: &mut Blocks,
) -> Result<(), AllocError>
    requires { blocks.old.at + 4 * length blocks.old.own.items < 2 ^ 62 }
    ensures pieces { OnOk result ((word : PatchWordOf) (rest : List FunLineOf) → with_word context.now.module context.now.patches.now function.now blocks.new word rest ≡ all_pieces context.now.module context.now.patches.now function.now blocks.old (WordOf word ∷ rest)) }
    ensures room { OnOk result (blocks.new.at + 4 * length blocks.new.own.items ≤ blocks.old.at + 4 * length blocks.old.own.items) }
{
    if !blocks.fresh {
        return Ok(());
    }
    if !is_begun(blocks.own.as_slice()) {
        return Ok(());
    }
    end_block(alloc, context, function, blocks)
}

/// Adds a word to the block that isn't whole, or to a new one.
fn add_word(
    alloc: Global,
    context: &Context<'_>,
    function: &Function,
    blocks: &mut Blocks,
    word: &PatchWord,
) -> Result<(), AllocError>
    requires known { KnowsNames context.now }
    requires good { NamesKnown context.now.module context.now.patches.now word.now }
    requires room { blocks.old.at + 4 * length blocks.old.own.items < 2 ^ 62 }
    ensures pieces { OnOk result ((rest : List FunLineOf) → all_pieces context.now.module context.now.patches.now function.now blocks.new rest ≡ all_pieces context.now.module context.now.patches.now function.now blocks.old (WordOf word.now ∷ rest)) }
    ensures room { OnOk result (blocks.new.at + 4 * length blocks.new.own.items ≤ blocks.old.at + 4 * length blocks.old.own.items + 4) }
{
    end_before_word(alloc, context, function, blocks)?;
    let made = context.patched_word(word);
    push_word(&mut blocks.own, made)?;
    blocks.fresh = is_control(word.word);
    Ok(())
}

/// One line further.
fn add_line(
    alloc: Global,
    context: &Context<'_>,
    function: &Function,
    blocks: &mut Blocks,
    line: &FunLine,
) -> Result<(), AllocError>
    requires known { KnowsNames context.now }
    requires good { IsGoodLine context.now.module context.now.patches.now line.now }
    requires room { blocks.old.at + 4 * length blocks.old.own.items < 2 ^ 62 }
    ensures pieces { OnOk result ((rest : List FunLineOf) → all_pieces context.now.module context.now.patches.now function.now blocks.new rest ≡ all_pieces context.now.module context.now.patches.now function.now blocks.old (line.now ∷ rest)) }
    ensures room { OnOk result (blocks.new.at + 4 * length blocks.new.own.items ≤ blocks.old.at + 4 * length blocks.old.own.items + 4) }
{
    match line {
        FunLine::Label(_) => {
            blocks.fresh = true;
            Ok(())
        }
        FunLine::Word(word) => add_word(alloc, context, function, blocks, word),
    }
}

/// All blocks, with the one that isn't whole, if it has words.
#[tactic(auto, using(crate::proofs::Builds::none_left, crate::proofs::Builds::one_left))]
fn finished(
    alloc: Global,
    context: &Context<'_>,
    function: &Function,
    mut blocks: Blocks,
) -> Result<Seq<Piece>, AllocError>
    requires { blocks.at + 4 * length blocks.own.items < 2 ^ 63 }
    ensures { IfOk result (λ pieces. pieces ≡ all_pieces context.now.module context.now.patches.now function.now blocks []) }
{
    if !is_begun(blocks.own.as_slice()) {
        return Ok(Seq::from_vec(blocks.whole));
    }
    end_block(alloc, context, function, &mut blocks)?;
    Ok(Seq::from_vec(blocks.whole))
}

/// The blocks of a function.
fn function_pieces(
    alloc: Global,
    context: &Context<'_>,
    function: &Function,
) -> Result<Seq<Piece>, AllocError>
    requires known { KnowsNames context.now }
    requires good { HasGoodLines context.now.module context.now.patches.now function.now }
    ensures { IfOk result (λ pieces. pieces ≡ (function_stretch context.now.module context.now.patches.now function.now).pieces) }
{
    let mut blocks = Blocks {
        whole: Vec::new(alloc),
        own: Vec::new(alloc),
        at: 0,
        fresh: true,
    };
    for line in function.body.as_slice() {
        add_line(alloc, context, function, &mut blocks, line)?;
    }
    let pieces = finished(alloc, context, function, blocks)?;
    Ok(pieces)
}

/// A function as an interval of its own.
fn function_stretch(
    alloc: Global,
    context: &Context<'_>,
    function: &Function,
) -> Result<Stretch, AllocError>
    requires known { KnowsNames context.now }
    requires good { HasGoodLines context.now.module context.now.patches.now function.now }
    ensures { IfOk result (λ made. made ≡ function_stretch context.now.module context.now.patches.now function.now) }
{
    let id = interval_id(alloc, &context.module.uuid, function.name.as_str())?;
    let pieces = function_pieces(alloc, context, function)?;
    Ok(Stretch {
        id,
        address: None,
        pieces,
    })
}

/// The functions of the patches behind the intervals before them.
pub(crate) fn add_functions(
    alloc: Global,
    stretches: &mut Vec<Stretch>,
    context: &Context<'_>,
) -> Result<(), AllocError>
    requires known { KnowsNames context.now }
    requires good { AllByRecursion (HasGoodLines context.now.module context.now.patches.now) context.now.patches.now.functions }
    ensures { OnOk result (stretches.new.items ≡ stretches.old.items ++ map (function_stretch context.now.module context.now.patches.now) context.now.patches.now.functions) }
{
    for function in context.patches.functions.as_slice() {
        let made = function_stretch(alloc, context, function)?;
        stretches.push(made)?;
    }
    Ok(())
}
