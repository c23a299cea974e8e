//! Messages inside messages.

ghost use Rattle.std.specs.Prelude.{◌≡◌, ◌≤◌, ◌^◌, ◌-◌, ◌++◌, List, ℕ, IfSome, OnOk};
ghost use Rattle.std.specs.List.{flat_map, AllByRecursion};
ghost use Rattle.gt_write.specs.Spelling.{run_record, if_there};

use crate::records::put_run;
use gr_base::Seq;
use std::alloc::{AllocError, Global};

/// A message that is spelled by the records of its fields.
pub trait Spelled {
    ghost spelled: { Self → List ℕ };

    /// Its numbers are of their types, and its texts are UTF-8.
    ghost typed: { Self → Type 0 };

    /// Appends the records.
    fn put(&self, alloc: Global, out: &mut Vec<u8>) -> Result<(), AllocError>
        ensures records { OnOk result (out.new.items ≡ out.old.items ++ spelled self.now) }
        ensures typed { OnOk result (typed self.now) };
}

/// An embedded message.
pub fn put_message<M: Spelled>(
    alloc: Global,
    out: &mut Vec<u8>,
    field: u64,
    message: &M,
) -> Result<(), AllocError>
    requires first { 1 ≤ field }
    requires last { field ≤ 2 ^ 29 - 1 }
    ensures records { OnOk result (out.new.items ≡ out.old.items ++ run_record field (M.spelled message.now)) }
    ensures typed { OnOk result (M.typed message.now) }
{
    let mut payload = Vec::new(alloc);
    message.put(alloc, &mut payload)?;
    put_run(out, field, payload.as_slice())
}

/// An embedded message, if there is one.
pub fn put_optional_message<M: Spelled>(
    alloc: Global,
    out: &mut Vec<u8>,
    field: u64,
    message: &Option<M>,
) -> Result<(), AllocError>
    requires first { 1 ≤ field }
    requires last { field ≤ 2 ^ 29 - 1 }
    ensures records { OnOk result (out.new.items
        ≡ out.old.items ++ if_there (λ m. run_record field (M.spelled m)) message.now) }
    ensures typed { OnOk result (IfSome message.now M.typed) }
{
    match message {
        None => Ok(()),
        Some(message) => put_message(alloc, out, field, message),
    }
}

/// A repeated message, or the entries of a map.
pub fn put_messages<M: Spelled>(
    alloc: Global,
    out: &mut Vec<u8>,
    field: u64,
    messages: &Seq<M>,
) -> Result<(), AllocError>
    requires first { 1 ≤ field }
    requires last { field ≤ 2 ^ 29 - 1 }
    ensures records { OnOk result (out.new.items
        ≡ out.old.items ++ flat_map (λ m. run_record field (M.spelled m)) messages.now) }
    ensures typed { OnOk result (AllByRecursion M.typed messages.now) }
{
    for message in messages.as_slice() {
        put_message(alloc, out, field, message)?;
    }
    Ok(())
}
