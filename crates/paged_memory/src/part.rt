ghost use Rattle.std.specs.Prelude.{◌≡◌, ◌<◌, ◌+◌, ◌^◌, ℕ, List, ◌↔◌, IsTrue, IfSome};
ghost use Rattle.paged_memory.specs.Mapped.{Has, Shows, stretch};

/// Mapped bytes of one page, and where they stand in the list of all bytes.
#[derive(Clone, Copy)]
pub struct Part {
    /// The address of the first.
    pub at: u64,
    pub count: u64,
    /// The place of the first.
    pub start: u64,
}

impl Part {
    /// No bytes.
    pub const NONE: Part = Part {
        at: 0,
        count: 0,
        start: 0,
    };

    /// Whether an address lies in this part.
    pub fn has(&self, at: u64) -> bool
        ensures { IsTrue result ↔ Has at self.now }
    {
        at >= self.at && at - self.at < self.count
    }

    /// Where so many bytes from an address on stand, if all are of this part.
    #[inline(always)]
    pub fn place(&self, at: u64, count: u64) -> Option<u64>
        requires { self.now.start + self.now.count < 2 ^ 64 }
        ensures { IfSome result (λ place. (parts : List Part) (size : ℕ) → Shows parts size self.now → Shows parts size (stretch at count place)) }
    {
        let offset = at.checked_sub(self.at)?;
        if offset < self.count && count <= self.count - offset {
            Some(self.start + offset)
        } else {
            None
        }
    }
}
