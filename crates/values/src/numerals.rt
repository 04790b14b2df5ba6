// Which words are numbers: decimal digits alone, or `0x` and hex digits.
ghost use Rattle.std.specs.Prelude.{◌≡◌};
ghost use Rattle.lexemes.specs.Bytes.{is_digit};
ghost use Rattle.lexemes.specs.Words.{all};
ghost use Rattle.values.specs.Numbers.{is_hex};

use lexemes::bytes::{is_digit, is_hex_digit};

// Every byte is a decimal digit.
pub fn all_digits(w: &[u8]) -> bool
    ensures { result ≡ all is_digit w.now }
{
    w.iter().all(|b| is_digit(*b))
}

// `0x` and one or more hex digits.
pub fn is_hex(w: &[u8]) -> bool
    ensures { result ≡ is_hex w.now }
{
    if w.len() <= 2 || w[0] != b'0' || w[1] != b'x' {
        return false;
    }
    w[2..].iter().all(|b| is_hex_digit(*b))
}
