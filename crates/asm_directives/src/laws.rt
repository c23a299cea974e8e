//! Laws of the definitions that contracts cite: each function is its contract.

ghost use Rattle.std.specs.Prelude.{◌≡◌, ℕ, List};
ghost use Rattle.asm_read.specs.declared.fault.TextReason.{TextReason};
ghost use Rattle.asm_lines.specs.declared.line.AsmLine.{AsmLine};
ghost use Rattle.asm_directives.specs.Lines.{IsAsmFault, IsAsmLine};

use a64_forms::laws::{form_begins, one_number};
use asm_lines::laws::{one_expression, one_label, one_label_ahead, one_saying, said_without_fault};
use asm_read::laws::one_split;

/// A line says one thing at most.
pub fn one_asm_saying()
    ensures { (line : List ℕ) (a b : AsmLine) → IsAsmLine line a → IsAsmLine line b → a ≡ b }
{
    one_number();
    one_label();
    one_expression();
    one_label_ahead();
    one_split();
    form_begins();
    said_without_fault();
    one_saying();
}

/// A line that says something has no fault.
pub fn said_or_faulty()
    ensures { (line : List ℕ) (said : AsmLine) (reason : TextReason) → IsAsmLine line said → IsAsmFault line reason → ⊥ }
{
    one_split();
    form_begins();
    said_without_fault();
}

/// A line has one fault at most.
pub fn one_asm_fault()
    ensures { (line : List ℕ) (a b : TextReason) → IsAsmFault line a → IsAsmFault line b → a ≡ b }
{
    one_split();
    form_begins();
    said_without_fault();
}
