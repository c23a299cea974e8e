ghost use Rattle.std.specs.Prelude.{◌≡◌};
ghost use Rattle.asm_read.specs.Identifier.{identifier_of};

use uuid::Uuid;

/// How many characters spell an identifier: 32 digits and four hyphens.
const SPELLING: usize = 36;

/// The identifier that a word spells, hyphenated as in RFC 9562, with letters in either case.
pub fn read_uuid(word: &[u8]) -> Option<Uuid>
    ensures { result ≡ identifier_of word.now }
{
    if word.len() != SPELLING {
        return None;
    }
    Uuid::try_parse_ascii(word).ok()
}
