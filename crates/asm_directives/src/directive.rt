//! The names of directives.

ghost use Rattle.std.specs.Prelude.{◌≡◌, ◌↔◌, ◌++◌, ◌∷◌, [], ℕ, List, IsTrue, MatchOption};
ghost use Rattle.asm_lines.specs.Lines.{IsDirectiveWord};
ghost use Rattle.asm_directives.specs.Lines.{directive_of};
ghost use Rattle.asm_directives.specs.Names.{bytes_of, mark_of, value_of};

/// The directives.
#[derive(Clone, Copy, Debug, PartialEq, Eq)]
pub(crate) enum Directive {
    Set,
    Section,
    Interval,
    Entry,
    Hex,
    Zero,
    Inst,
    Quad,
    Word,
    Byte,
    Hword,
}

fn mark_of(word: &[u8]) -> Option<Directive>
    ensures { result ≡ mark_of word.now }
{
    if word == b".set".as_slice() {
        Some(Directive::Set)
    } else if word == b".section".as_slice() {
        Some(Directive::Section)
    } else if word == b".interval".as_slice() {
        Some(Directive::Interval)
    } else if word == b".entry".as_slice() {
        Some(Directive::Entry)
    } else {
        None
    }
}

fn bytes_of(word: &[u8]) -> Option<Directive>
    ensures { result ≡ bytes_of word.now }
{
    if word == b".hex".as_slice() {
        Some(Directive::Hex)
    } else if word == b".zero".as_slice() {
        Some(Directive::Zero)
    } else if word == b".inst".as_slice() {
        Some(Directive::Inst)
    } else {
        None
    }
}

fn value_of(word: &[u8]) -> Option<Directive>
    ensures { result ≡ value_of word.now }
{
    if word == b".quad".as_slice() {
        Some(Directive::Quad)
    } else if word == b".word".as_slice() {
        Some(Directive::Word)
    } else if word == b".byte".as_slice() {
        Some(Directive::Byte)
    } else if word == b".hword".as_slice() {
        Some(Directive::Hword)
    } else {
        None
    }
}

/// The directive that a word names.
pub(crate) fn directive_of(word: &[u8]) -> Option<Directive>
    ensures { result ≡ directive_of word.now }
{
    mark_of(word).or(bytes_of(word).or(value_of(word)))
}

/// What stands before a colon at the end.
fn before_colon(word: &[u8]) -> Option<&[u8]>
    ensures { MatchOption result ((front : List ℕ) → word.now ≡ front ++ 58 ∷ [] → ⊥) (λ front. word.now ≡ front.now ++ 58 ∷ []) }
{
    word.strip_suffix(b":")
}

fn begins_dot(word: &[u8]) -> bool
    ensures { IsTrue result ↔ ((behind : List ℕ) × (word.now ≡ 46 ∷ behind)) }
{
    matches!(word, [b'.', ..])
}

/// Whether a word is like a directive: it begins with a dot and doesn't end with a colon.
pub(crate) fn is_directive(word: &[u8]) -> bool
    ensures { IsTrue result ↔ IsDirectiveWord word.now }
{
    match before_colon(word) {
        Some(_) => false,
        None => begins_dot(word),
    }
}
