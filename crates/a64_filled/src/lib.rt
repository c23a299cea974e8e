//! Laws of words that an expression gives an operand: each function is its contract.
#![tactic(auto)]

ghost use Rattle.std.specs.Prelude.{◌≡◌, ℕ, ◌+◌, ◌<◌, ◌^◌, Some, Ok};
ghost use Rattle.std.specs.Option.{option_map};
ghost use Rattle.a64_inst.specs.declared.inst.Inst.{Inst};
ghost use Rattle.a64_inst.specs.declared.kind.Kind.{Kind};
ghost use Rattle.a64_inst.specs.Fitting.{fit, operand_value, units_of, with_operand};
ghost use Rattle.a64_inst.specs.Kinds.{operand, operand_kind};
ghost use Rattle.a64_inst.specs.Table.{row};
ghost use Rattle.a64_filled.specs.Filled.{operand_bits, with_number};
ghost use Rattle.a64_filled.specs.Named.{named, part_named};
ghost use Rattle.a64_filled.specs.Taken.{Takes};

/// A word with another number in its operand is in the same row, with all other fields as they were;
/// it is in no row if the word is in none.
pub fn operand_alone_changes()
    ensures { (kind : Kind) (word n : ℕ) → operand_kind word ≡ Some kind → n < 2 ^ operand_bits kind → row (with_operand (operand kind) n word) ≡ option_map (with_number n) (row word) }
{}

/// So is the word that an expression gives its operand.
pub fn filled_word_keeps_its_row()
    ensures { (kind : Kind) (place target word filled : ℕ) → operand_kind word ≡ Some kind → fit kind place target word ≡ Ok filled → row filled ≡ option_map (with_number (units_of (operand kind) (operand_value kind place target))) (row word) }
{}

/// Its operand names the target: the target itself, its page or its low twelve bits.
pub fn filled_word_names_its_target()
    ensures { (kind : Kind) (place target word filled : ℕ) → place < 2 ^ 64 → target < 2 ^ 64 → fit kind place target word ≡ Ok filled → named kind place (units_of (operand kind) (operand_value kind place target)) ≡ part_named kind target }
{}

/// A word that has an operand and is in a row is in one that has it.
pub fn operand_is_of_its_row()
    ensures { (kind : Kind) (word : ℕ) (i : Inst) → operand_kind word ≡ Some kind → row word ≡ Some i → Takes kind i }
{}
