// Up to eight bytes as a number, of which the lowest byte comes first; a shorter text is filled up with blanks.
ghost use Rattle.std.specs.Prelude.{◌≡◌};
ghost use Rattle.wordlist.specs.Filled.{fill_to, packed};

use std::array;

// The first eight bytes of a text.
pub fn number(w: &[u8]) -> u64
    ensures { result ≡ packed (fill_to 8 w.now) }
{
    u64::from_le_bytes(array::from_fn(|i| w.get(i).copied().unwrap_or(b' ')))
}
