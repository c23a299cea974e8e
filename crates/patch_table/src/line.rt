//! What a line of patch text says.

ghost use Rattle.std.specs.Prelude.{◌≡◌, IfOk, IfErr, IsUtf8};
ghost use Rattle.asm_read.specs.Words.{HasWords};
ghost use Rattle.gr_base.specs.declared.end.End.TheVariants.{Memory};
ghost use Rattle.patch_lines.specs.Values.{typed_line};
ghost use Rattle.patch_table.specs.PatchLines.{Says};

use crate::asm::read_asm;
use crate::own::{is_own, read_own};
use asm_read::laws::one_split;
use asm_read::split_words;
use gr_base::{Bytes, End};
use patch_lines::{PatchFault, PatchLine};
use std::alloc::Global;

/// What a line with these words says.
fn read_words(alloc: Global, line: &[u8], words: &[Bytes]) -> Result<PatchLine, End<PatchFault>>
    requires utf8 { IsUtf8 line.now }
    requires words { HasWords line.now words.now }
    ensures says { IfOk result (Says line.now) }
    ensures typed { IfOk result typed_line }
    ensures memory { IfErr result (λ e. e ≡ Memory) }
{
    one_split();
    if is_own(words) {
        return read_own(alloc, words);
    }
    read_asm(alloc, line, words)
}

/// What a line of patch text says.
pub(crate) fn read_patch_line(alloc: Global, line: &[u8]) -> Result<PatchLine, End<PatchFault>>
    ensures says { IfOk result (Says line.now) }
    ensures typed { IfOk result typed_line }
    ensures memory { IfErr result (λ e. e ≡ Memory) }
{
    match split_words(alloc, line) {
        Ok(words) => read_words(alloc, line, words.as_slice()),
        Err(End::Fault(_)) => Ok(PatchLine::Other),
        Err(End::Memory) => Err(End::Memory),
    }
}
