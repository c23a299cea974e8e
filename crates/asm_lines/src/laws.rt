//! Laws of the definitions that contracts cite: each function is its contract.

ghost use Rattle.std.specs.Prelude.{◌≡◌, ◌⊎◌, ◌++◌, ℕ, List};
ghost use Rattle.asm_read.specs.declared.fault.TextReason.{TextReason};
ghost use Rattle.asm_read.specs.Words.{HasWords};
ghost use Rattle.a64_forms.specs.Number.{IsNumber, IsNumberWord};
ghost use Rattle.asm_lines.specs.declared.line.AsmExpr.{AsmExpr};
ghost use Rattle.asm_lines.specs.declared.line.AsmLine.{AsmLine};
ghost use Rattle.asm_lines.specs.declared.line.AsmName.{AsmName};
ghost use Rattle.asm_lines.specs.Expressions.{HasExpressionShape, IsExpression};
ghost use Rattle.asm_lines.specs.Labels.{EndsLabel, IsLabel};
ghost use Rattle.asm_lines.specs.Lines.{IsFault, IsLine};

use a64_forms::laws::{form_begins, one_form, one_number};
use asm_read::laws::one_split;

/// A line that says something has no fault.
pub fn said_without_fault()
    ensures { (line : List ℕ) (said : AsmLine) (reason : TextReason) → IsLine line said → IsFault line reason → ⊥ }
{
    one_split();
    form_begins();
}

/// A line has one fault at most.
pub fn one_fault()
    ensures { (line : List ℕ) (a b : TextReason) → IsFault line a → IsFault line b → a ≡ b }
{
    one_split();
    form_begins();
}

/// A line falls into words or into none.
pub fn words_or_none()
    ensures { (line : List ℕ) → ((words : List (List ℕ)) × HasWords line words) ⊎ (((words : List (List ℕ)) × HasWords line words) → ⊥) }
{}

/// Every line says something or has a fault.
pub fn says_or_fault()
    ensures { (line : List ℕ) → ((said : AsmLine) × IsLine line said) ⊎ ((reason : TextReason) × IsFault line reason) }
{}

/// A word is one label at most.
pub fn one_label()
    ensures { (word : List ℕ) (a b : AsmName) → IsLabel word a → IsLabel word b → a ≡ b }
{}

/// A line says one thing at most.
pub fn one_saying()
    ensures { (line : List ℕ) (a b : AsmLine) → IsLine line a → IsLine line b → a ≡ b }
{
    one_split();
    form_begins();
    one_form();
    one_number();
}

/// A word is a label or none.
pub fn label_or_none()
    ensures { (word : List ℕ) → ((label : AsmName) × IsLabel word label) ⊎ (((label : AsmName) × IsLabel word label) → ⊥) }
{}

/// A word spells a number or none.
pub fn number_or_none()
    ensures { (word : List ℕ) → ((n : ℕ) × IsNumber word n) ⊎ (((n : ℕ) × IsNumber word n) → ⊥) }
{}

/// A word is a number word or isn't.
pub fn number_word_or_none()
    ensures { (word : List ℕ) → IsNumberWord word ⊎ (IsNumberWord word → ⊥) }
{}

/// What stands ahead of the end of a text or of a sign is one label at most.
pub fn one_label_ahead()
    ensures { (text a x b y : List ℕ) (m n : AsmName) → text ≡ a ++ x → text ≡ b ++ y → IsLabel a m → IsLabel b n → EndsLabel x → EndsLabel y → (m ≡ n) × (x ≡ y) }
{}

/// A text is one label expression at most.
pub fn one_expression()
    ensures { (text : List ℕ) (a b : AsmExpr) → IsExpression text a → IsExpression text b → a ≡ b }
{
    one_number();
}

/// A text is a label expression or none.
pub fn expression_or_none()
    ensures { (text : List ℕ) → ((e : AsmExpr) × IsExpression text e) ⊎ (((e : AsmExpr) × IsExpression text e) → ⊥) }
{}

/// A text has the shape of a label expression or hasn't.
pub fn expression_shape_or_none()
    ensures { (text : List ℕ) → HasExpressionShape text ⊎ (HasExpressionShape text → ⊥) }
{}
