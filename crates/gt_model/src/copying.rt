ghost use Rattle.std.specs.Prelude.{◌≡◌, IfOk};

use gr_base::Seq;
use std::alloc::{AllocError, Global};

/// A value that is copied into memory of its own.
pub trait CopyIn: Drop {
    /// An equal value.
    fn copy_in(&self, alloc: Global) -> Result<Self, AllocError>
        ensures { IfOk result (λ copy. copy ≡ self.now) };
}

/// A copy of each element, in order.
pub fn copy_all<T: CopyIn>(alloc: Global, items: &Seq<T>) -> Result<Seq<T>, AllocError>
    ensures { IfOk result (λ copies. copies ≡ items.now) }
{
    let mut copies = Vec::new(alloc);
    for item in items.as_slice() {
        copies.push(item.copy_in(alloc)?)?;
    }
    Ok(Seq::from_vec(copies))
}
