//! Laws of the definitions that contracts cite: each function is its contract.

ghost use Rattle.std.specs.Prelude.{◌≡◌, ℕ, List};
ghost use Rattle.asm_read.specs.Number.{IsNumber};
ghost use Rattle.asm_read.specs.Words.{HasWords};

/// A line has the words that it has and no others.
pub fn one_split()
    ensures { (line : List ℕ) (a b : List (List ℕ)) → HasWords line a → HasWords line b → a ≡ b }
{}

/// A word spells one number at most.
pub fn one_number()
    ensures { (word : List ℕ) (m n : ℕ) → IsNumber word m → IsNumber word n → m ≡ n }
{}
