// Numbers: which words are numbers, the value of the number at a place of a source, and a GUID part's digits (document 01, Tokens and Grammar).
#![tactic(auto)]

pub mod numerals;

ghost use Rattle.std.specs.Prelude.{◌≡◌, ◌<◌, false, length, drop, IfSome};
ghost use Rattle.values.specs.Numbers.{digit_value, value_from, marks_hex, numeral, fitted, value_at, digits_at};
ghost use Rattle.lexemes.specs.Words.{word};

use lexemes::bytes::{byte_at, is_digit, is_word_byte};
use lexemes::words::word_end;

// The value of a digit of base 10 or 16.
fn digit_value(b: u8) -> u8
    ensures { result ≡ digit_value b }
{
    if b <= b'9' {
        b.saturating_sub(b'0')
    } else if b <= b'F' {
        b - (b'A' - 10)
    } else {
        b.saturating_sub(b'a' - 10)
    }
}

// The value of digits in a base.
fn value_in(w: &[u8], base: u64) -> Option<u64>
    requires { 0 < base }
    ensures { result ≡ fitted (value_from base 0 w.now) }
{
    let mut value: u64 = 0;
    for b in w {
        value = value
            .checked_mul(base)?
            .checked_add(u64::from(digit_value(*b)))?;
    }
    Some(value)
}

// The value of a number's bytes.
fn number_value(w: &[u8]) -> Option<u64>
    ensures { result ≡ fitted (numeral w.now) }
{
    if byte_at(w, 1) == b'x' {
        value_in(&w[2..], 16)
    } else {
        value_in(w, 10)
    }
}

// The value of the number that starts at a place, whatever it is.
fn any_value_at(src: &[u8], at: usize) -> Option<u64>
    requires { at < length src.now }
    ensures { result ≡ value_at src.now at }
{
    let end = word_end(src, at);
    number_value(&src[at..end])
}

// The value of the decimal number that starts at a place, in one pass; none where it is not decimal or too large.
fn decimal_at(src: &[u8], at: usize) -> Option<u64>
    requires { marks_hex (word (drop at src.now)) ≡ false }
    ensures { IfSome result (λ v. value_at src.now at ≡ fitted v) }
{
    let mut value: u64 = 0;
    for i in at..src.len() {
        let b = src[i];
        if is_digit(b) {
            value = value.checked_mul(10)?.checked_add(u64::from(b - b'0'))?;
        } else if is_word_byte(b) {
            return None;
        } else {
            return Some(value);
        }
    }
    Some(value)
}

// The value of the number that starts at a place; none where it is 2^64 or more.
pub fn value_at(src: &[u8], at: usize) -> Option<u64>
    ensures { result ≡ value_at src.now at }
{
    if src.len() <= at {
        return Some(0);
    }
    if byte_at(src, at + 1) != b'x' {
        if let Some(value) = decimal_at(src, at) {
            return Some(value);
        }
    }
    any_value_at(src, at)
}

// How many digits follow the `0x` of the number that starts at a place.
pub fn digits_at(src: &[u8], at: usize) -> usize
    ensures { result ≡ digits_at src.now at }
{
    (word_end(src, at) - at).saturating_sub(2)
}
