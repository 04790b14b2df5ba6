// Words: where one ends, its bytes one by one, and whether two are the same.
ghost use Rattle.std.specs.Prelude.{◌≡◌, ◌+◌, get_or, drop};
ghost use Rattle.lexemes.specs.Bytes.{is_word_byte};
ghost use Rattle.lexemes.specs.Words.{run, word, same_word};

use crate::bytes::{byte_at, is_word_byte};

// Past the letters, digits and `_` from `at` on.
pub fn word_end(src: &[u8], at: usize) -> usize
    ensures { result ≡ at + run is_word_byte (drop at src.now) }
{
    for i in at..src.len() {
        if !is_word_byte(src[i]) {
            return i;
        }
    }
    src.len().max(at)
}

// The byte at an index if it is a letter, a digit or `_`, and else 0.
pub fn word_byte(src: &[u8], i: usize) -> u8
    ensures { result ≡ get_or (word (drop i src.now)) 0 0 }
{
    let b = byte_at(src, i);
    if is_word_byte(b) { b } else { 0 }
}

// The words that start at two places are the same.
pub fn same_word(src: &[u8], p: usize, q: usize) -> bool
    ensures { result ≡ same_word src.now p q }
{
    let mut j = q;
    for i in p..src.len() {
        let b = src[i];
        if b != byte_at(src, j) {
            // The same only where both end.
            return word_byte(src, i) == word_byte(src, j);
        }
        if !is_word_byte(b) {
            return true;
        }
        j += 1;
    }
    word_byte(src, j) == 0
}
