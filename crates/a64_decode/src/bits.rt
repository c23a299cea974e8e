//! Bits of a word.

ghost use Rattle.std.specs.Prelude.{◌≡◌, ◌+◌, ◌<◌, ◌≤◌};
ghost use Rattle.a64_inst.specs.Parts.{bits_at};

// The bits of a word, `width` of them, that end at `place`.
#[inline(always)]
pub(crate) fn bits(word: u32, place: u32, width: u32) -> u32
    requires place { place < 32 }
    requires width { width < 32 }
    ensures { result ≡ bits_at place width word }
{
    word >> place & ((1 << width) - 1)
}
