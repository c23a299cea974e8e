//! Decoded instructions, by their words.

ghost use Rattle.std.specs.Prelude.{◌≡◌, ◌<◌, length, MatchOption, None, IfOk};
ghost use Rattle.std.specs.Bool.{MatchBool};
ghost use Rattle.std.specs.List.{HoldsAt};
ghost use Rattle.a64_inst.specs.Table.{row};
ghost use Rattle.num_run.specs.Decoded.{IsCache, IsSlot};

use a64_decode::decode;
use a64_inst::Inst;
use std::alloc::{AllocError, Global};

/// How many instructions are kept.
pub const SLOTS: usize = 4096;

/// A word and its instruction.
#[derive(Clone, Copy)]
pub struct Slot {
    pub word: u32,
    pub inst: Inst,
}

/// The instructions that were decoded last, each in the slot of its address. What is stored into memory changes none:
/// an instruction is used only for its own word.
#[derive(Drop)]
pub struct Cache {
    pub slots: Vec<Slot>,
}

impl Cache {
    /// A cache in which each slot has the word 0.
    pub fn new(alloc: Global) -> Result<Cache, AllocError>
        ensures { IfOk result IsCache }
    {
        let first = Slot {
            word: 0,
            inst: Inst::Udf { imm16: 0 },
        };
        Ok(Cache {
            slots: vec![in alloc; first; SLOTS]?,
        })
    }

    /// The slot of the instruction of a word that stands at an address, if it is one.
    #[inline(always)]
    pub fn find(&mut self, at: u64, word: u32) -> Option<usize>
        requires { IsCache self.old }
        ensures cache { IsCache self.new }
        ensures found { MatchOption result (row word ≡ None) (λ index. IsSlot self.new word index) }
    {
        let index = (at / 4) as usize % SLOTS;
        if self.slots[index].word == word || self.fill(index, word) {
            Some(index)
        } else {
            None
        }
    }

    /// Decodes a word into a slot, if it is one.
    fn fill(&mut self, index: usize, word: u32) -> bool
        requires cache { IsCache self.old }
        requires index { index < length self.old.slots.items }
        ensures cache { IsCache self.new }
        ensures found { MatchBool result (IsSlot self.new word index) (row word ≡ None) }
    {
        match decode(word) {
            Some(inst) => {
                self.slots[index] = Slot { word, inst };
                true
            }
            None => false,
        }
    }

    /// The instruction of a slot.
    #[inline(always)]
    pub fn inst(&self, index: usize) -> &Inst
        requires { index < length self.now.slots.items }
        ensures { HoldsAt (λ slot. slot.inst ≡ result.now) self.now.slots.items index }
    {
        &self.slots[index].inst
    }
}
