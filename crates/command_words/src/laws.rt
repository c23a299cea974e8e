//! Laws of the definitions that contracts cite: each function is its contract.

ghost use Rattle.std.specs.Prelude.{◌≡◌, ◌⊎◌, ℕ, List, Some, IsSome, true};
ghost use Rattle.command_words.specs.Picked.{Picked, picked};
ghost use Rattle.command_words.specs.Table.{requires, role_word};
ghost use Rattle.command_words.specs.declared.role.Role.{Role};
ghost use Rattle.command_words.specs.declared.table.WordName.TheVariants as WordName;
ghost use Rattle.command_words.specs.Words.{Usage, WordsOk};

/// Words are those of a job, or exactly one index is at fault.
pub fn words_or_usage()
    ensures some { (words : List (List ℕ)) → WordsOk words ⊎ ((index : ℕ) × Usage words index) }
    ensures apart { (words : List (List ℕ)) (index : ℕ) → WordsOk words → Usage words index → ⊥ }
    ensures one { (words : List (List ℕ)) (a b : ℕ) → Usage words a → Usage words b → a ≡ b }
{}

/// The files that a job requires are named by its words.
pub fn required_files_are_named()
    ensures input { (words : List (List ℕ)) (asked : Picked) → WordsOk words → picked words ≡ Some asked
        → (role : Role) → requires asked.job (role_word role) ≡ true → IsSome (asked.file role) }
    ensures output { (words : List (List ℕ)) (asked : Picked) → WordsOk words → picked words ≡ Some asked
        → requires asked.job WordName.Out ≡ true → IsSome asked.out }
{}
