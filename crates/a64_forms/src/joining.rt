//! Shares of a word, together.

ghost use Rattle.std.specs.Prelude.{◌≡◌};
ghost use Rattle.a64_forms.specs.Spelling.{both, held};

use crate::share::Share;

// What two shares give together.
pub(crate) fn both<'a>(first: Share<'a>, rest: Share<'a>) -> Share<'a>
    ensures { held result ≡ both (held first.entry) (held rest.entry) }
{
    Share {
        bits: first.bits | rest.bits,
        target: first.target.or(rest.target),
    }
}
