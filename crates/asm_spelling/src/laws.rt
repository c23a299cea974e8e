//! Laws of the definitions that contracts cite: each function is its contract.

ghost use Rattle.std.specs.Prelude.{◌≡◌, ◌<◌, ◌^◌, ℕ, ℤ, List, Some, None, IsUtf8};
ghost use Rattle.a64_inst.specs.declared.kind.Kind.{Kind};
ghost use Rattle.a64_inst.specs.Kinds.{operand, operand_kind};
ghost use Rattle.a64_forms.specs.declared.form.Aim.{Aim};
ghost use Rattle.a64_forms.specs.Spelling.{IsSpelling, spelled};
ghost use Rattle.asm_lines.specs.Labels.{IsLabel};
ghost use Rattle.asm_spelling.specs.declared.named.Named.TheVariants.{Nothing, Label};
ghost use Rattle.asm_spelling.specs.declared.written.Texts.{Texts};
ghost use Rattle.asm_spelling.specs.Labels.{label_text};
ghost use Rattle.asm_spelling.specs.Reading.{label};
ghost use Rattle.asm_spelling.specs.Slots.{aim_text, without_operand};
ghost use Rattle.asm_spelling.specs.Words.{word_texts};

/// The texts of a word as an instruction are read as that word. Where its operand names something, they are
/// read as the word with 0 in the operand's bits, and name the same.
pub fn printed_words_are_read()
    ensures plain { (word : ℕ) (x : Texts) → word_texts word Nothing ≡ Some x → IsSpelling x.texts (spelled word None) }
    ensures named { (word k : ℕ) (name : List ℕ) (offset : ℤ) (x : Texts) → word_texts word (Label (label_text name k) offset) ≡ Some x → (kind : Kind) × (aim : Aim) × (text : List ℕ) × (operand_kind word ≡ Some kind) × (aim_text aim (Label (label_text name k) offset) ≡ Some text) × IsSpelling x.texts (spelled (without_operand (operand kind) word) (Some (aim, text))) }
{}

/// A label that is written is read as its name and, from the second symbol of the name on, its ordinal.
pub fn printed_labels_are_read()
    ensures { (name : List ℕ) (k : ℕ) → IsUtf8 name → k < 2 ^ 64 → IsLabel (label_text name k) (label name k) }
{}
