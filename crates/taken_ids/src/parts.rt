//! The parts that a patched block is cut into.

ghost use Rattle.std.specs.Prelude.{◌≡◌, IfOk};
ghost use Rattle.block_parts.specs.Parts.{parts};

use crate::cutting::Cutting;
use crate::words::patched_words;
use block_parts::Part;
use gr_base::Seq;
use std::alloc::{AllocError, Global};
use sym_expr::CodeBlock;

/// The parts of a block, of which there is at least one.
pub fn parts_of_block(alloc: Global, block: &CodeBlock) -> Result<Seq<Part>, AllocError>
    ensures { IfOk result (λ made. made ≡ parts block.now) }
{
    let words = patched_words(alloc, block)?;
    let mut cutting = Cutting::new(alloc);
    for word in words.as_slice() {
        cutting.add(alloc, word)?;
    }
    let made = cutting.finished()?;
    Ok(made)
}
