//! How many words patches insert at each offset of each block.

ghost use Rattle.std.specs.Prelude.{◌≡◌, ◌+◌, ◌<◌, ◌^◌, ℕ, List, if◌then◌else◌, length, sum_by, IfOk, OnOk};
ghost use Rattle.module_program.specs.Inserting.{count_among};
ghost use Rattle.module_program.specs.Naming.{count_in, spot_eq};
ghost use Rattle.sym_expr.specs.declared.patches.Insert.{Insert as InsertOf};

use indexmap::IndexMap;
use std::alloc::{AllocError, Global};
use sym_expr::Insert;
use uuid::Uuid;

/// How many words are inserted at an offset of a block.
pub(crate) fn count_in(counts: &IndexMap<(Uuid, u64), u64>, block: Uuid, offset: u64) -> u64
    ensures { result ≡ count_in counts.now block offset }
{
    counts.get(&(block, offset)).copied().unwrap_or(0)
}

/// Adds so many words at an offset of a block.
fn add_count(
    counts: &mut IndexMap<(Uuid, u64), u64>,
    block: Uuid,
    offset: u64,
    words: u64,
) -> Result<(), AllocError>
    requires { count_in counts.old block offset + words < 2 ^ 64 }
    ensures { OnOk result ((b : List ℕ) (at : ℕ) → count_in counts.new b at ≡ count_in counts.old b at + (if spot_eq (block, offset) (b, at) then words else 0)) }
{
    let before = count_in(counts, block, offset);
    counts.insert((block, offset), before + words)?;
    Ok(())
}

/// How many words the inserts put at each offset of each block.
pub(crate) fn insert_counts(
    alloc: Global,
    inserts: &[Insert],
) -> Result<IndexMap<(Uuid, u64), u64>, AllocError>
    requires { sum_by (λ (i : InsertOf). length i.body) inserts.now < 2 ^ 64 }
    ensures { IfOk result (λ counts. (block : List ℕ) (offset : ℕ) → count_in counts block offset ≡ count_among inserts.now block offset) }
{
    let mut counts = IndexMap::new(alloc);
    for insert in inserts {
        let words = insert.body.len() as u64;
        add_count(&mut counts, insert.block, insert.offset, words)?;
    }
    Ok(counts)
}
