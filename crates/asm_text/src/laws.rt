//! Laws of the definitions that contracts cite: each function is its contract.

ghost use Rattle.std.specs.Prelude.{◌≡◌, ℕ, List, Result};
ghost use Rattle.asm_read.specs.declared.fault.TextFault.{TextFault};
ghost use Rattle.asm_modules.specs.declared.module.AsmModule.{AsmModule};
ghost use Rattle.asm_text.specs.Texts.{asm_text};

use asm_directives::laws::{one_asm_fault, one_asm_saying, said_or_faulty};

/// A text gives one result, a module or a fault.
pub fn one_result()
    ensures { (text : List ℕ) (a b : Result AsmModule TextFault) → asm_text text a → asm_text text b → a ≡ b }
{
    one_asm_saying();
    said_or_faulty();
    one_asm_fault();
}
