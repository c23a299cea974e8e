//! Identifiers that are taken.

ghost use Rattle.std.specs.Prelude.{◌≡◌, ℕ, List, IfOk};
ghost use Rattle.std.specs.List.{list_any};
ghost use Rattle.std.specs.Str.{bytes_eq};
ghost use Rattle.indexmap.specs.IndexSet.{contains};
ghost use Rattle.taken_ids.specs.Answers.{Tells};
ghost use Rattle.taken_ids.specs.Faults.{first_taken};

use crate::fault::RewriteFault;
use gr_base::End;
use indexmap::IndexSet;
use std::alloc::{AllocError, Global};
use uuid::Uuid;

/// The identifiers as a set.
fn id_set(alloc: Global, ids: &[Uuid]) -> Result<IndexSet<Uuid>, AllocError>
    ensures { IfOk result (λ set. (id : List ℕ) → contains bytes_eq set id ≡ list_any (bytes_eq id) ids.now) }
{
    let mut set = IndexSet::new(alloc);
    for id in ids {
        set.insert(*id)?;
    }
    Ok(set)
}

/// Whether none of the derived identifiers is taken, or stands there before.
pub(crate) fn check_free(
    alloc: Global,
    taken: &[Uuid],
    derived: &[Uuid],
) -> Result<(), End<RewriteFault>>
    ensures { Tells result (first_taken taken.now derived.now) }
{
    let mut set = id_set(alloc, taken)?;
    for id in derived {
        if set.contains(id) {
            return Err(End::Fault(RewriteFault::IdTaken(*id)));
        }
        set.insert(*id)?;
    }
    Ok(())
}
