//! Identifiers by identifiers.

ghost use Rattle.std.specs.Prelude.{◌≡◌, ℕ, List, IfOk};
ghost use Rattle.std.specs.Str.{bytes_eq};
ghost use Rattle.indexmap.specs.IndexMap.{get};
ghost use Rattle.new_symbols.specs.Entries.{value_of};

use indexmap::IndexMap;
use std::alloc::{AllocError, Global};
use uuid::Uuid;

/// What each identifier stands for; of several entries of one the first counts.
pub(crate) fn index_of(
    alloc: Global,
    entries: &[(Uuid, Uuid)],
) -> Result<IndexMap<Uuid, Uuid>, AllocError>
    ensures { IfOk result (λ index. (id : List ℕ) → get bytes_eq index id ≡ value_of id entries.now) }
{
    let mut index = IndexMap::new(alloc);
    let mut left = entries.len();
    while left > 0 {
        left -= 1;
        let (id, value) = entries[left];
        index.insert(id, value)?;
    }
    Ok(index)
}
