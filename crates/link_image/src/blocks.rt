//! What the linker keeps of a block.

ghost use Rattle.std.specs.Prelude.{◌≡◌};
ghost use Rattle.std.specs.List.Sorted.{IsNonDecreasing};
ghost use Rattle.link_image.specs.Counts.{count_below};

use gr_base::Seq;

/// A block's address, and the offsets of the words that are inserted in it, in order.
#[derive(Debug, Drop)]
pub struct BlockAt {
    pub at: u64,
    pub inserted: Seq<u64>,
}

impl BlockAt {
    /// How many words are inserted below an offset.
    pub fn inserted_below(&self, offset: u64) -> u64
        requires { IsNonDecreasing self.now.inserted }
        ensures { result ≡ count_below offset self.now.inserted }
    {
        self.inserted.as_slice().partition_point(|at| *at < offset) as u64
    }
}
