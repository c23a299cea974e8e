//! Laws of the definitions that contracts cite: each function is its contract.

ghost use Rattle.std.specs.Prelude.{◌≡◌, ◌<◌, ◌≤◌, ◌^◌, ◌++◌, [], ℕ, ℤ, pos, codes, IfSome, IsSome, List, None, Option, Some, IsUtf8};
ghost use Rattle.gt_model.specs.Typed.{AreBytes, IsI64, IsId};
ghost use Rattle.a64_inst.specs.declared.kind.Kind.{Kind};
ghost use Rattle.a64_inst.specs.Fitting.{fit};
ghost use Rattle.a64_inst.specs.Kinds.{operand, operand_kind};
ghost use Rattle.asm_lines.specs.declared.line.AsmItem.TheVariants as items;
ghost use Rattle.asm_lines.specs.declared.line.AsmLine.TheVariants as lines;
ghost use Rattle.asm_directives.specs.Directives.{IsAlignment, IsResidue};
ghost use Rattle.asm_spelling.specs.declared.named.Named.TheVariants.{Nothing, Label};
ghost use Rattle.asm_spelling.specs.Labels.{label_text};
ghost use Rattle.asm_spelling.specs.Reading.{label};
ghost use Rattle.asm_spelling.specs.Slots.{without_operand};
ghost use Rattle.asm_spelling.specs.Words.{word_line};
ghost use Rattle.printed_lines.specs.Lines.{IsPrinted, difference_text, entry_text, hex_text, interval_text, item_text, label_line, quarter_text, section_text, set_text, sum_of, sum_text, zero_text};
ghost use Rattle.printed_lines.specs.Words.{read_word};

use asm_lines::laws::one_label_ahead;
use asm_spelling::laws::{printed_labels_are_read, printed_words_are_read};

/// Absolute labels, sections, intervals, labels and the entry are read.
pub fn printed_marks_are_read()
    ensures set { (name : List ℕ) (k value : ℕ) → IsUtf8 name → k < 2 ^ 64 → value < 2 ^ 64 → IsPrinted (set_text name k value) (lines.Set (label name k) value) }
    ensures section { (name : List ℕ) → IsUtf8 name → IsPrinted (section_text name) (lines.Section name) }
    ensures interval { (uuid : List ℕ) (align : ℕ) (residue : Option ℕ) → IsId uuid → IsAlignment align → IfSome residue (IsResidue align) → IsPrinted (interval_text uuid align residue) (lines.Interval uuid align residue) }
    ensures label { (name : List ℕ) (k : ℕ) → IsUtf8 name → k < 2 ^ 64 → IsPrinted (label_line name k) (lines.Label (label name k)) }
    ensures entry { IsPrinted entry_text lines.Entry }
{
    printed_labels_are_read();
}

/// Bytes and zeros are read.
pub fn printed_bytes_are_read()
    ensures hex { (bytes : List ℕ) → AreBytes bytes → (bytes ≡ [] → ⊥) → IsPrinted (hex_text bytes) (lines.Item (items.Bytes bytes)) }
    ensures zero { (count : ℕ) → count ≤ 2 ^ 24 → IsPrinted (zero_text count) (lines.Item (items.Zero count)) }
{}

/// Addresses and differences are read.
pub fn printed_addresses_are_read()
    ensures sum { (name : List ℕ) (k : ℕ) (offset : ℤ) → IsUtf8 name → k < 2 ^ 64 → IsI64 offset → IsPrinted (item_text (codes ".quad " ++ sum_text name k offset)) (lines.Item (items.Quad (sum_of name k offset))) }
    ensures wide { (name : List ℕ) (k : ℕ) (other : List ℕ) (n : ℕ) (offset : ℤ) → IsUtf8 name → k < 2 ^ 64 → IsUtf8 other → n < 2 ^ 64 → IsI64 offset → IsPrinted (item_text (codes ".quad " ++ difference_text name k other n offset)) (lines.Item (items.QuadDiff (label name k) (label other n) offset)) }
    ensures narrow { (name : List ℕ) (k : ℕ) (other : List ℕ) (n : ℕ) (offset : ℤ) → IsUtf8 name → k < 2 ^ 64 → IsUtf8 other → n < 2 ^ 64 → IsI64 offset → IsPrinted (item_text (codes ".word " ++ difference_text name k other n offset)) (lines.Item (items.WordDiff (label name k) (label other n) offset)) }
{
    printed_labels_are_read();
    one_label_ahead();
}

/// Entries of tables are read.
pub fn printed_entries_are_read()
    ensures byte { (name : List ℕ) (k : ℕ) (other : List ℕ) (n : ℕ) → IsUtf8 name → k < 2 ^ 64 → IsUtf8 other → n < 2 ^ 64 → IsPrinted (item_text (codes ".byte " ++ difference_text name k other n (pos 0))) (lines.Item (items.Entry 1 1 (label name k) (label other n))) }
    ensures half { (name : List ℕ) (k : ℕ) (other : List ℕ) (n : ℕ) → IsUtf8 name → k < 2 ^ 64 → IsUtf8 other → n < 2 ^ 64 → IsPrinted (item_text (codes ".hword " ++ difference_text name k other n (pos 0))) (lines.Item (items.Entry 2 1 (label name k) (label other n))) }
    ensures byte_quarter { (name : List ℕ) (k : ℕ) (other : List ℕ) (n : ℕ) → IsUtf8 name → k < 2 ^ 64 → IsUtf8 other → n < 2 ^ 64 → IsPrinted (item_text (codes ".byte " ++ quarter_text name k other n)) (lines.Item (items.Entry 1 4 (label name k) (label other n))) }
    ensures half_quarter { (name : List ℕ) (k : ℕ) (other : List ℕ) (n : ℕ) → IsUtf8 name → k < 2 ^ 64 → IsUtf8 other → n < 2 ^ 64 → IsPrinted (item_text (codes ".hword " ++ quarter_text name k other n)) (lines.Item (items.Entry 2 4 (label name k) (label other n))) }
    ensures word_quarter { (name : List ℕ) (k : ℕ) (other : List ℕ) (n : ℕ) → IsUtf8 name → k < 2 ^ 64 → IsUtf8 other → n < 2 ^ 64 → IsPrinted (item_text (codes ".word " ++ quarter_text name k other n)) (lines.Item (items.Entry 4 4 (label name k) (label other n))) }
{
    printed_labels_are_read();
}

/// The line of a word is read as the word. Where its operand names something, an instruction is read as the word with
/// 0 in the operand's bits, and names the same.
pub fn printed_words_are_lines()
    ensures plain { (word : ℕ) → word < 2 ^ 32 → IsPrinted (item_text (word_line word Nothing)) (lines.Item (items.Word word None)) }
    ensures named { (word : ℕ) (name : List ℕ) (k : ℕ) (offset : ℤ) → word < 2 ^ 32 → IsUtf8 name → k < 2 ^ 64 → IsI64 offset → IsSome (operand_kind word) → IsPrinted (item_text (word_line word (Label (label_text name k) offset))) (lines.Item (items.Word (read_word word (Label (label_text name k) offset)) (Some (sum_of name k offset)))) }
{
    printed_labels_are_read();
    printed_words_are_read();
}

/// An expression makes of a word with 0 in its operand's bits what it makes of the word.
pub fn open_words_take_the_same()
    ensures { (kind : Kind) (place target word : ℕ) → word < 2 ^ 32 → fit kind place target (without_operand (operand kind) word) ≡ fit kind place target word }
{}
