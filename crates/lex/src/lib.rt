// Tokens of a source: a slice and a place in, a token by value out (document 01, Tokens).
#![tactic(auto)]

mod gaps;
mod signs;
mod words;

ghost use Rattle.std.specs.Prelude.{◌≡◌, true, false, ◌<◌, length, get_or, drop};
ghost use Rattle.lexemes.specs.Bytes.{is_digit, is_word_byte};
ghost use Rattle.lexemes.specs.Words.{word};
ghost use Rattle.lex.specs.Tokens.{word_token, sign_token, token_from, token_at, first_bad};

use lexemes::bytes::{byte_at, in_word, is_blank, is_digit};
use lexemes::classes::{BAD, DECIMAL, END, NAME, SEMICOLON, SIGNS};
use lexemes::reserved::class_of;
use lexemes::words::word_end;

// A class of `lexemes::classes`; start and end, both the first byte of a bad token, and the source's length at the end.
#[derive(Clone, Copy, Debug, PartialEq, Eq)]
pub struct Token {
    pub class: u8,
    pub start: usize,
    pub end: usize,
}

// A token without bytes: a bad one, or the end.
fn empty(class: u8, at: usize) -> Token
    ensures { result ≡ record { class = class; start = at; end = at } }
{
    Token {
        class,
        start: at,
        end: at,
    }
}

// The word at a place, which starts with no digit.
fn word_token(src: &[u8], at: usize) -> Token
    requires { (at < length src.now) × (is_word_byte (get_or src.now at 0) ≡ true) × (is_digit (get_or src.now at 0) ≡ false) }
    ensures { result ≡ word_token (word (drop at src.now)) at }
{
    // Stays: a flag and a loop, since a second call of `class_of` is not inlined (reading is a tenth slower, measured).
    let mut end = words::likely_end(src, at);
    let mut sure = false;
    loop {
        let class = class_of(&src[at..end]);
        if class < NAME {
            return Token {
                class,
                start: at,
                end,
            };
        }
        if sure {
            return Token {
                class: NAME,
                start: at,
                end,
            };
        }
        end = word_end(src, at + 1);
        sure = true;
    }
}

// The number at a place, whatever it is.
fn any_number(src: &[u8], at: usize) -> Token
    requires { (at < length src.now) × (is_digit (get_or src.now at 0) ≡ true) }
    ensures { result ≡ word_token (word (drop at src.now)) at }
{
    let end = word_end(src, at);
    let class = words::number_class(&src[at..end]);
    if class == BAD {
        return empty(BAD, at);
    }
    Token {
        class,
        start: at,
        end,
    }
}

// The number at a place; a decimal one in one pass.
fn number_token(src: &[u8], at: usize) -> Token
    requires { (at < length src.now) × (is_digit (get_or src.now at 0) ≡ true) }
    ensures { result ≡ word_token (word (drop at src.now)) at }
{
    for i in at + 1..src.len() {
        let b = src[i];
        if !is_digit(b) {
            if in_word(b) {
                return any_number(src, at);
            }
            return Token {
                class: DECIMAL,
                start: at,
                end: i,
            };
        }
    }
    Token {
        class: DECIMAL,
        start: at,
        end: src.len(),
    }
}

// The sign at a place; the longest one is taken.
fn sign_token(src: &[u8], at: usize) -> Token
    requires { at < length src.now }
    ensures { result ≡ sign_token (drop at src.now) at }
{
    // Stays: SIGNS for no sign, here and in `signs`, since with Option the tokens of a source take 15 % more (measured).
    let b = src[at];
    let one = signs::one_byte(b);
    if one <= SEMICOLON {
        return Token {
            class: one,
            start: at,
            end: at + 1,
        };
    }
    let two = signs::two_bytes(b, byte_at(src, at + 1));
    if two < SIGNS {
        return Token {
            class: two,
            start: at,
            end: at + 2,
        };
    }
    if one < SIGNS {
        return Token {
            class: one,
            start: at,
            end: at + 1,
        };
    }
    empty(BAD, at)
}

// The token that starts at a place.
fn token_from(src: &[u8], at: usize) -> Token
    requires { at < length src.now }
    ensures { result ≡ token_from (drop at src.now) at }
{
    let b = src[at];
    if !in_word(b) {
        sign_token(src, at)
    } else if is_digit(b) {
        number_token(src, at)
    } else {
        word_token(src, at)
    }
}

// The first token at or after a place; past the source it is the end.
pub fn token_at(src: &[u8], at: usize) -> Token
    ensures { result ≡ token_at src.now at }
{
    let mut i = at;
    while i < src.len() {
        if is_blank(src[i]) {
            i += 1;
        } else if gaps::starts_comment(src, i) {
            i = gaps::line_end(src, i);
        } else {
            return token_from(src, i);
        }
    }
    empty(END, src.len())
}

// The place of the first bad token.
pub fn first_bad(src: &[u8]) -> Option<usize>
    ensures { result ≡ first_bad src.now }
{
    let mut at = 0;
    loop {
        let token = token_at(src, at);
        if token.class == BAD {
            return Some(token.start);
        }
        if token.class == END {
            return None;
        }
        at = token.end;
    }
}
