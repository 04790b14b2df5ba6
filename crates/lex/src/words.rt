// Words and numbers: a guess where a word ends, and the class of a number.
ghost use Rattle.std.specs.Prelude.{◌≡◌, true, ◌≤◌, ◌<◌, length, get_or, IfSome};
ghost use Rattle.lexemes.specs.Bytes.{is_digit};
ghost use Rattle.lex.specs.Likely.{LikelyEnd};
ghost use Rattle.lex.specs.Tokens.{word_class};

use lexemes::bytes::is_word_byte;
use lexemes::classes::{BAD, DECIMAL, HEX};
use values::numerals::{all_digits, is_hex};

// The length of the most frequent reserved word that starts with a letter; 0 where there is none.
fn likely_length(b: u8) -> usize
    ensures { result ≤ 12 }
{
    match b {
        b'A' => 3,
        b'D' => 7,
        b'F' => 5,
        b'I' => 11,
        b'N' => 3,
        b'O' => 2,
        b'R' => 9,
        b'S' => 12,
        b'T' => 4,
        b'c' => 8,
        b'd' => 7,
        b'e' => 5,
        b'f' => 5,
        b'g' => 4,
        b'h' => 4,
        b'l' => 5,
        b'm' => 7,
        b'n' => 4,
        b'o' => 6,
        b'p' => 6,
        b'q' => 11,
        b'r' => 4,
        b's' => 8,
        b't' => 4,
        b'v' => 5,
        _ => 0,
    }
}

// A guess where the word at a place ends, to be tried first: no letter, digit or `_` stands there.
pub fn likely_end(src: &[u8], at: usize) -> usize
    requires { at < length src.now }
    ensures { LikelyEnd src.now at result }
{
    let size = likely_length(src[at]);
    if size < src.len() - at {
        return if is_word_byte(src[at + size]) {
            src.len()
        } else {
            at + size
        };
    }
    src.len()
}

// The class of a run of letters, digits and `_` that starts with a digit.
pub fn number_class(w: &[u8]) -> u8
    requires { is_digit (get_or w.now 0 0) ≡ true }
    ensures { result ≡ word_class w.now }
{
    if all_digits(w) {
        DECIMAL
    } else if is_hex(w) {
        HEX
    } else {
        BAD
    }
}
