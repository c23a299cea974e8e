ghost use Rattle.std.specs.Prelude.{◌≡◌, ◌≤◌, ◌<◌, ◌↔◌, ◌^◌, ℕ, Some, SomeIff, IsTrue, slice_index};
ghost use Rattle.std.specs.Char.{is_digit};
ghost use Rattle.std.specs.List.{list_all};
ghost use Rattle.std.specs.Str.Parse.{IsNumeral, digits_value};
ghost use Rattle.a64_forms.specs.Number.{IsNumber, IsNumberWord};

use std::str;

/// The most digits of a hexadecimal number.
const MOST_HEXADECIMAL: usize = 16;

fn begins_with_plus(text: &[u8]) -> bool
    ensures { IsTrue result ↔ (slice_index text.now 0 ≡ 43) }
{
    matches!(text, [b'+', ..])
}

/// The number that digits of a base spell, without a sign.
fn read_digits(digits: &[u8], base: u32) -> Option<u64>
    requires least { 2 ≤ base }
    requires most { base ≤ 36 }
    ensures { SomeIff result (IsNumeral base digits.now × (digits_value base digits.now < 2 ^ 64)) (digits_value base digits.now) }
{
    if begins_with_plus(digits) {
        return None;
    }
    match str::from_utf8(digits) {
        Ok(text) => u64::from_str_radix(text, base).ok(),
        Err(_) => None,
    }
}

fn all_digits(digits: &[u8], base: u32) -> bool
    requires least { 2 ≤ base }
    requires most { base ≤ 36 }
    ensures { result ≡ list_all (λ d. is_digit d base) digits.now }
{
    digits.iter().all(|digit| char::from(*digit).is_digit(base))
}

fn is_numeral(digits: &[u8], base: u32) -> bool
    requires least { 2 ≤ base }
    requires most { base ≤ 36 }
    ensures { IsTrue result ↔ IsNumeral base digits.now }
{
    match digits {
        [] => false,
        [_, ..] => all_digits(digits, base),
    }
}

/// Whether a word is decimal digits, or `0x` and hexadecimal ones, whatever number they spell.
pub fn is_number_word(word: &[u8]) -> bool
    ensures { IsTrue result ↔ IsNumberWord word.now }
{
    match word {
        [b'0', b'x', digits @ ..] => is_numeral(digits, 16),
        _ => is_numeral(word, 10),
    }
}

/// The number that a word spells: decimal digits, or `0x` and up to 16 hexadecimal ones.
pub fn read_number(word: &[u8]) -> Option<u64>
    ensures { (n : ℕ) → (result ≡ Some n) ↔ IsNumber word.now n }
{
    match word {
        [b'0', b'x', digits @ ..] if digits.len() > MOST_HEXADECIMAL => None,
        [b'0', b'x', digits @ ..] => read_digits(digits, 16),
        _ => read_digits(word, 10),
    }
}
