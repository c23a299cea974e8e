//! Values by key.

ghost use Rattle.std.specs.Prelude.{◌≡◌, IfOk};
ghost use Rattle.indexmap.specs.IndexMap.{get};
ghost use Rattle.asm_print.specs.Names.{value_at};

use indexmap::IndexMap;
use std::alloc::{AllocError, Global};
use std::hash::Hash;

/// The value of each key; of several entries of one key the first counts.
pub(crate) fn index_of<K: Eq + Hash + Copy, V: Copy>(
    alloc: Global,
    entries: &[(K, V)],
) -> Result<IndexMap<K, V>, AllocError>
    ensures { IfOk result (λ index. (key : K) → get K.eq index key ≡ value_at K.eq key entries.now) }
{
    let mut index = IndexMap::new(alloc);
    let mut left = entries.len();
    while left > 0 {
        left -= 1;
        let (key, value) = entries[left];
        index.insert(key, value)?;
    }
    Ok(index)
}
