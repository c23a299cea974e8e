//! Block order.

ghost use Rattle.std.specs.Prelude.{◌≡◌, ◌<◌, ◌^◌, IfOk};
ghost use Rattle.sym_expr.specs.Modules.{end_of, id_of, in_order, is_code, size_of};
ghost use Rattle.module_program.specs.Ordering.{rank};

use gr_base::Seq;
use gt_model::{Block, Body};
use std::alloc::{AllocError, Global};
use uuid::Uuid;

pub(crate) fn is_code(block: &Block) -> bool
    ensures { result ≡ is_code block.now }
{
    matches!(block.body, Body::Code { .. })
}

/// The identifier of the block, nil for one that has none.
pub(crate) fn id_of(block: &Block) -> Uuid
    ensures { result ≡ id_of block.now }
{
    match block.body {
        Body::Bare => Uuid::nil(),
        Body::Code { uuid, .. } => uuid,
        Body::Data { uuid, .. } => uuid,
    }
}

pub(crate) fn size_of(block: &Block) -> u64
    ensures { result ≡ size_of block.now }
{
    match block.body {
        Body::Bare => 0,
        Body::Code { size, .. } => size,
        Body::Data { size, .. } => size,
    }
}

/// Where the block ends, which may be past every offset.
pub(crate) fn end_of(block: &Block) -> u128
    ensures { result ≡ end_of block.now }
{
    u128::from(block.offset) + u128::from(size_of(block))
}

/// A number by which blocks are in order.
fn rank(block: &Block) -> u128
    ensures { result ≡ rank block.now }
{
    2 * u128::from(block.offset) + u128::from(size_of(block) != 0)
}

/// The blocks in block order.
pub(crate) fn in_order(alloc: Global, blocks: &[Block]) -> Result<Seq<Block>, AllocError>
    ensures { IfOk result (λ ordered. ordered ≡ in_order blocks.now) }
{
    let mut ordered = Vec::from_slice(alloc, blocks)?;
    ordered.sort_by_key(|block| rank(block))?;
    Ok(Seq::from_vec(ordered))
}
