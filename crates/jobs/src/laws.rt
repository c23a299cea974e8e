//! Laws of the definitions that contracts cite: each function is its contract.

ghost use Rattle.std.specs.Prelude.{◌≡◌, ◌⊎◌, ℕ, List, Option, Some, IsSome, true};
ghost use Rattle.gr_base.specs.Desk.{Files};
ghost use Rattle.jobs.specs.Inputs.{inputs_of, AllHeld, HoldBytes};
ghost use Rattle.jobs.specs.Outcome.{Outcome, Pass, Verdict};
ghost use Rattle.command_words.specs.Picked.{Picked, picked};
ghost use Rattle.command_words.specs.Table.{requires, role_word};
ghost use Rattle.command_words.specs.declared.role.Role.{Role};
ghost use Rattle.command_words.specs.declared.table.WordName.TheVariants as WordName;
ghost use Rattle.command_words.specs.Words.{Usage, WordsOk};

use asm_read::laws::one_split;
use bare_image::laws::{image_or_fault, one_spelling};
use gt_read::laws::{a_file_has_no_fault, no_fault_is_a_file, one_meaning};
use layout_plan::laws::{one_layout_or_fault, one_saying};
use patch_table::laws::{a_result, one_result};

/// Over some files what is asked for has one outcome at most: one verdict, text and bytes.
pub fn one_outcome()
    ensures { (asked : Option Picked) (passes : List Pass) (files : Files) (a b : Verdict) → Outcome asked passes files a → Outcome asked passes files b → a ≡ b }
{
    one_meaning();
    one_spelling();
    image_or_fault();
    one_layout_or_fault();
    one_result();
}

/// Over files that hold each input of a job's words there is an outcome.
pub fn an_outcome()
    ensures { (words : List (List ℕ)) (passes : List Pass) (files : Files) → WordsOk words → HoldBytes files
        → AllHeld (inputs_of (picked words)) files → (verdict : Verdict) × Outcome (picked words) passes files verdict }
{
    a_file_has_no_fault();
    no_fault_is_a_file();
    image_or_fault();
    one_split();
    one_saying();
    a_result();
}
