//! The bytes of code.

ghost use Rattle.std.specs.Prelude.{◌≡◌, ◌<◌, ◌+◌, ◌*◌, ◌^◌, ◌++◌, length, OnOk};
ghost use Rattle.std.specs.List.{AllByRecursion, filter_map, flat_map};
ghost use Rattle.sym_expr.specs.Images.{bytes_of, all_words, code_bytes, filled_word, first_fault, fit_or, word_fault, words_at};
ghost use Rattle.sym_expr.specs.Layouts.{address_of};
ghost use Rattle.sym_expr.specs.Placing.{new_size};
ghost use Rattle.sym_expr.specs.WellMade.{IsCode, IsWord};
ghost use Rattle.link_image.specs.Answers.{Tells};
ghost use Rattle.link_image.specs.Bytes.{words_bytes};
ghost use Rattle.link_image.specs.Ready.{IsReady};

use crate::linker::Linker;
use crate::words::all_words;
use gr_base::End;
use std::alloc::Global;
use sym_expr::{CodeBlock, LinkFault, Stretch, Word};

impl Linker<'_> {
    /// Adds words that stand from an offset of an interval on, which lies at a start.
    fn push_words(
        &self,
        out: &mut Vec<u8>,
        stretch: &Stretch,
        start: u64,
        at: u64,
        words: &[Word],
    ) -> Result<(), End<LinkFault>>
        requires ready { IsReady self.now }
        requires start { start ≡ address_of self.now.layout.now stretch.now.id }
        requires fits { start + at + 4 * length words.now < 2 ^ 63 }
        requires words { AllByRecursion (IsWord self.now.program.now) words.now }
        ensures fault { Tells result (first_fault (filter_map (word_fault self.now.layout.now self.now.program.now stretch.now) (words_at at words.now))) }
        ensures bytes { OnOk result (out.new.items ≡ out.old.items ++ words_bytes self.now.layout.now self.now.program.now (start + at) words.now) }
    {
        let mut offset = at;
        for word in words {
            match self.checked_word(stretch, start, offset, word) {
                Ok(filled) => out.extend_from_slice(&filled.to_le_bytes())?,
                Err(fault) => return Err(End::Fault(fault)),
            }
            offset += 4;
        }
        Ok(())
    }

    /// Adds a code block that stands at an offset of an interval.
    pub fn push_code(
        &self,
        alloc: Global,
        out: &mut Vec<u8>,
        stretch: &Stretch,
        start: u64,
        at: u64,
        block: &CodeBlock,
    ) -> Result<(), End<LinkFault>>
        requires ready { IsReady self.now }
        requires start { start ≡ address_of self.now.layout.now stretch.now.id }
        requires fits { start + at + 4 * (length block.now.own + length block.now.inserted) < 2 ^ 63 }
        requires code { IsCode self.now.program.now block.now }
        ensures fault { Tells result (first_fault (filter_map (word_fault self.now.layout.now self.now.program.now stretch.now) (words_at at (all_words block.now)))) }
        ensures bytes { OnOk result (out.new.items ≡ out.old.items ++ code_bytes self.now.layout.now self.now.program.now (start + at) block.now) }
    {
        if block.inserted.is_empty() {
            self.push_words(out, stretch, start, at, block.own.as_slice())
        } else {
            let words = all_words(alloc, block)?;
            self.push_words(out, stretch, start, at, &words)
        }
    }
}
