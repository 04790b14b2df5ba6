// Recognising the reserved words: a word is searched in the list as in a dictionary, from the first word with its letter on.
ghost use Rattle.std.specs.Prelude.{◌≡◌, ◌+◌, ◌≤◌, drop, unwrap_or};
ghost use Rattle.lexemes.specs.Classes.{SIGNS};
ghost use Rattle.lexemes.specs.Lexemes.{reserved};
ghost use Rattle.lexemes.specs.Search.{COUNT, letter_start, scan};
ghost use Rattle.lexemes.specs.Words.{place_among};

use crate::classes::*;
use wordlist::{COUNT, Packed, listed, pack_word};

// The class of the first word with a letter, at which the search starts; of a letter that no word has, the first class of all.
fn first_class(letter: u8) -> u8
    ensures { result ≡ SIGNS + letter_start letter }
{
    match letter {
        b'A' => AND,
        b'D' => DEFAULT,
        b'F' => FALSE,
        b'I' => INTERACTIVE,
        b'N' => NOT,
        b'O' => ONE,
        b'R' => READ_ONLY,
        b'S' => STRING_TOKEN,
        b'T' => TRUE,
        b'U' => UNDEFINED,
        b'Z' => ZERO,
        b'c' => KW_CHECKBOX,
        b'd' => KW_DEFAULT,
        b'e' => KW_ENDCHECKBOX,
        b'f' => KW_FLAGS,
        b'g' => KW_GOTO,
        b'h' => KW_HELP,
        b'l' => KW_LABEL,
        b'm' => KW_MAXIMUM,
        b'n' => KW_NAME,
        b'o' => KW_ONEOF,
        b'p' => KW_PROMPT,
        b'q' => KW_QUESTIONID,
        b'r' => KW_RULE,
        b's' => KW_STEP,
        b't' => KW_TEXT,
        b'v' => KW_VALUE,
        _ => AND,
    }
}

// The place of a packed word among those from a place on that have its letter.
fn find(wanted: Packed, from: usize) -> Option<usize>
    ensures { unwrap_or result COUNT ≡ scan COUNT from wanted.first wanted.rest (drop from reserved) }
{
    for i in from..COUNT {
        let row = listed(i);
        if row == wanted {
            return Some(i);
        }
        if row.first % 256 != wanted.first % 256 {
            return None;
        }
    }
    None
}

// The place of a word in the list; none where it is not reserved.
fn place_of(w: &[u8]) -> Option<usize>
    ensures { unwrap_or result COUNT ≡ place_among w.now reserved }
{
    let n = w.len();
    if n < 2 || 16 < n {
        return None;
    }
    // The blanks after a word are none of its bytes.
    if w[n - 1] == b' ' {
        return None;
    }
    find(pack_word(w), usize::from(first_class(w[0]) - SIGNS))
}

// The class of a word that does not start with a digit.
pub fn class_of(w: &[u8]) -> u8
    ensures { result ≡ SIGNS + place_among w.now reserved }
{
    match place_of(w) {
        Some(place) => SIGNS + place as u8,
        None => NAME,
    }
}
