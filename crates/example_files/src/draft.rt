ghost use Rattle.std.specs.Prelude.{◌≡◌, ◌++◌, ◌∷◌, [], ℕ, List, length, IsNone, OnOk, IfOk, replicate, Vec};
ghost use Rattle.std.specs.declared.alloc.Global.{Global};
ghost use Rattle.pb_wire.specs.Varint.{shortest};

use pb_wire::put_bytes;
use std::alloc::{AllocError, Global};
use std::mem;

/// A file while it is spelled: the bytes of the innermost open message, and of each one around it before it.
#[derive(Drop)]
pub(crate) struct Draft {
    pub(crate) around: Vec<Vec<u8>>,
    pub(crate) inner: Vec<u8>,
}

impl Draft {
    pub(crate) fn new(alloc: Global) -> Draft
        ensures { (result.around.items ≡ []) × (result.inner.items ≡ []) }
    {
        Draft {
            around: Vec::new(alloc),
            inner: Vec::new(alloc),
        }
    }

    /// Opens a message.
    pub(crate) fn open(&mut self, alloc: Global) -> Result<(), AllocError>
        ensures { OnOk result ((self.new.around.items ≡ self.old.around.items ++ self.old.inner ∷ []) × (self.new.inner.items ≡ [])) }
    {
        let around = mem::replace(&mut self.inner, Vec::new(alloc));
        self.around.push(around)?;
        Ok(())
    }

    /// Closes the innermost message, whose length comes before it. There is none where no message is open.
    pub(crate) fn close(&mut self) -> Result<Option<()>, AllocError>
        ensures none { self.old.around.items ≡ [] → IfOk result IsNone }
        ensures closed { (around : List (Vec ℕ Global)) (last : Vec ℕ Global) → self.old.around.items ≡ around ++ last ∷ [] → OnOk result ((self.new.around.items ≡ around) × (self.new.inner.items ≡ last.items ++ shortest (length self.old.inner.items) ++ self.old.inner.items)) }
    {
        let Some(around) = self.around.pop() else {
            return Ok(None);
        };
        let closed = mem::replace(&mut self.inner, around);
        put_bytes(&mut self.inner, closed.as_slice())?;
        Ok(Some(()))
    }

    /// Appends an identifier of equal bytes, and its length before it.
    pub(crate) fn put_identifier(&mut self, byte: u8) -> Result<(), AllocError>
        ensures { OnOk result (self.new.inner.items ≡ self.old.inner.items ++ shortest 16 ++ replicate 16 byte) }
    {
        put_bytes(&mut self.inner, &[byte; 16])
    }
}
