//! Laws of the instruction table: words and instructions stand for each other.

ghost use Rattle.std.specs.Prelude.{◌≡◌, ℕ, ◌<◌, ◌^◌, IsTrue, Some};
ghost use Rattle.a64_inst.specs.declared.inst.Inst.{Inst};
ghost use Rattle.a64_inst.specs.Table.{is_allowed, row, word_of};

/// The word of an instruction is in its row, and in no other.
pub fn word_is_read()
    ensures { (i : Inst) → IsTrue (is_allowed i) → row (word_of i) ≡ Some i }
{}

/// A word that is in a row is the word of its instruction.
pub fn read_is_word()
    ensures { (word : ℕ) (i : Inst) → word < 2 ^ 32 → row word ≡ Some i → IsTrue (is_allowed i) × (word_of i ≡ word) }
{}
