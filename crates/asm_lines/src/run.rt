//! Runs of bytes of one class.

ghost use Rattle.std.specs.Prelude.{◌≡◌, ◌≢◌, ◌++◌, ℕ, List, MatchOption, true};
ghost use Rattle.std.specs.List.{list_all};
ghost use Rattle.asm_lines.specs.Labels.{Stops, begins_bare, belongs};

/// Classes of bytes.
#[derive(Clone, Copy, Debug, PartialEq, Eq)]
pub(crate) enum Class {
    /// What bare names are made of.
    Bare,
    /// Decimal digits.
    Digit,
}

pub(crate) fn begins_bare(byte: u8) -> bool
    ensures { result ≡ begins_bare byte }
{
    byte.is_ascii_alphabetic() || byte == b'_' || byte == b'.' || byte == b'$'
}

pub(crate) fn belongs(class: Class, byte: u8) -> bool
    ensures { result ≡ belongs class byte }
{
    match class {
        Class::Bare => begins_bare(byte) || byte.is_ascii_digit(),
        Class::Digit => byte.is_ascii_digit(),
    }
}

/// The bytes of the class at the front of a text, and what stands behind them.
pub(crate) fn split_run(class: Class, text: &[u8]) -> (&[u8], &[u8])
    ensures parts { text.now ≡ result.0.now ++ result.1.now }
    ensures run { list_all (λ b. belongs class b) result.0.now ≡ true }
    ensures stops { Stops class result.1.now }
{
    let mut rest = text;
    while let Some((byte, behind)) = rest.split_first() {
        if !belongs(class, *byte) {
            return text.split_at(text.len() - rest.len());
        }
        rest = behind;
    }
    (text, rest)
}

/// What stands behind these bytes, if they stand first.
pub(crate) fn behind<'a>(text: &'a [u8], first: &[u8]) -> Option<&'a [u8]>
    ensures { MatchOption result ((rest : List ℕ) → text.now ≢ first.now ++ rest) (λ rest. text.now ≡ first.now ++ rest.now) }
{
    text.strip_prefix(first)
}
