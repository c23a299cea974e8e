//! Laws of the definitions that contracts cite: each function is its contract.

ghost use Rattle.std.specs.Prelude.{◌≡◌, ℕ, List, Result};
ghost use Rattle.gt_model.specs.declared.modules.Module.{Module};
ghost use Rattle.patch_lines.specs.declared.fault.PatchFault.{PatchFault};
ghost use Rattle.sym_expr.specs.declared.patches.PatchTable.{PatchTable as Patches};
ghost use Rattle.patch_table.specs.PatchText.{patch_text};

use a64_forms::laws::{one_form, one_number};
use asm_lines::laws::{
    label_or_none, number_or_none, number_word_or_none, one_fault, one_label, one_saying,
    said_without_fault, says_or_fault, words_or_none,
};
use asm_read::laws::one_split;

/// A text gives one result for a module, a table or a fault.
pub fn one_result()
    ensures { (text : List ℕ) (m : Module) (a b : Result Patches PatchFault) → patch_text text m a → patch_text text m b → a ≡ b }
{
    one_split();
    one_label();
    one_number();
    one_saying();
    said_without_fault();
    one_fault();
    one_form();
}

/// Every text gives a result.
pub fn a_result()
    ensures { (text : List ℕ) (m : Module) → (r : Result Patches PatchFault) × patch_text text m r }
{
    one_split();
    label_or_none();
    number_or_none();
    number_word_or_none();
    words_or_none();
    says_or_fault();
}
