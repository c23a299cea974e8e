ghost use Rattle.std.specs.Prelude.{◌≡◌, List, ℕ, [], ◌++◌, OnOk};

use crate::bytes::Bytes;
use std::alloc::AllocError;

/// What takes bytes, piece after piece.
pub trait Taker {
    /// What bytes make of a taker.
    ghost took: { Self → List ℕ → Self → Type 0 };

    /// Takes one more piece. After want of memory nothing is said of the taker.
    fn take(&mut self, piece: &[u8]) -> Result<(), AllocError>
        ensures { OnOk result (took self.old piece.now self.new) };

    /// No bytes leave a taker as it is.
    ghost took_none: { (taker : Self) → took taker [] taker };

    /// Two pieces, one after the other, are one list of bytes.
    ghost took_both: { (old mid new : Self) (first second : List ℕ) → took old first mid → took mid second new → took old (first ++ second) new };
}

impl Taker for Bytes {
    ghost use Rattle.std.specs.Prelude.{◌≡◌, List, ℕ, [], ◌++◌};
    ghost use Rattle.gr_base.specs.Whole.{added_none, added_both};

    ghost took = { λ old piece new. new ≡ old ++ piece };

    ghost took_none = { added_none };

    ghost took_both = { added_both };

    fn take(&mut self, piece: &[u8]) -> Result<(), AllocError> {
        self.extend_from_slice(piece)
    }
}
