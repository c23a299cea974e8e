//! Laws of the definitions that contracts cite: each function is its contract.

ghost use Rattle.std.specs.Prelude.{◌≡◌, ◌∷◌, ℕ, List, IsTrue};
ghost use Rattle.a64_forms.specs.declared.form.Numbers.{Numbers};
ghost use Rattle.a64_forms.specs.Number.{IsNumber};
ghost use Rattle.a64_forms.specs.Spelling.{HasForm, Spelled, begins_small};

/// A line has one form at most, and gives one word by it.
pub fn one_form()
    ensures { (n : Numbers) (texts : List (List ℕ)) (s t : Spelled) → HasForm n texts s → HasForm n texts t → s ≡ t }
{}

/// A line of a form begins with a mnemonic, which begins with a small letter, and has something behind it.
pub fn form_begins()
    ensures { (n : Numbers) (texts : List (List ℕ)) (s : Spelled) → HasForm n texts s → (first second : List ℕ) × (rest : List (List ℕ)) × (texts ≡ first ∷ second ∷ rest) × IsTrue (begins_small first) }
{}

/// A word spells one number at most.
pub fn one_number()
    ensures { (word : List ℕ) (m n : ℕ) → IsNumber word m → IsNumber word n → m ≡ n }
{}
