// The elements of a phrase, and what each asks of a token. Below the kinds here, which start above all classes, an
// element is a token of that class.
// Stays: an element is a number, since `suits` and `in_range` answer for every number, and most elements are classes.
ghost use Rattle.std.specs.Prelude.{◌≡◌, ◌||◌};
ghost use Rattle.values.specs.Numbers.{value_at};
ghost use Rattle.ll1.specs.ParseTable.{member};
ghost use Rattle.grammar.specs.Ranges.{within, keeps};
ghost use Rattle.elements.specs.Kinds.{numbers, flag_classes, numeric_classes, starts_of, element_range};

use crate::flags::{display, size};
use lex::Token;
use lexemes::classes::*;

// A number of 1 to 65,535: of a form, a goto, a written question or a questionref.
pub const ID: u8 = 128;

// A number of 0 to 65,535: of a string or a label.
pub const SMALL: u8 = 129;

// Any other number, below 2^64.
pub const LARGE: u8 = 130;

// A numeric's minimum, maximum, step or default. Whether it fits the numeric's size is told when all of these are read.
pub const NUMERIC_VALUE: u8 = 131;

// An option's flags: the number 0, or DEFAULT.
pub const OPTION_FLAGS: u8 = 132;

// What a questionref names: a name, or a number of 1 to 65,535.
pub const REFERENCE: u8 = 133;

// TRUE or FALSE.
pub const TRUTH: u8 = 134;

// FL: one or more flag words with `|` between.
pub const FLAG_LIST: u8 = 135;

// FL of a numeric.
pub const NUMERIC_FLAGS: u8 = 136;

// A hex number of at most 8, 4 or 2 digits.
pub const H8: u8 = 137;

pub const H4: u8 = 138;

pub const H2: u8 = 139;

// The next four elements may be absent; they are there where the next token is the first of them.
pub const MAYBE: u8 = 140;

// How many elements MAYBE speaks of.
pub const GROUP: usize = 4;

fn is_number(class: u8) -> bool
    ensures { result ≡ member class numbers }
{
    matches!(class, DECIMAL | HEX)
}

fn is_flag(class: u8) -> bool
    ensures { result ≡ member class flag_classes }
{
    matches!(class, READ_ONLY | INTERACTIVE | RESET_REQUIRED)
}

// A word of a numeric's FL.
fn is_numeric_flag(class: u8) -> bool
    ensures { result ≡ member class numeric_classes }
{
    is_flag(class) | size(class).is_some() | display(class).is_some()
}

// A token of the class can be, or start, the element.
#[tactic(auto, unfolding(crate::specs::Kinds::starts_of))]
pub fn suits(want: u8, class: u8) -> bool
    ensures { result ≡ member class (starts_of want) }
{
    if want < ID {
        return class == want;
    }
    if want < OPTION_FLAGS {
        return is_number(class);
    }
    match want {
        OPTION_FLAGS => is_number(class) | (class == DEFAULT),
        REFERENCE => (class == NAME) | is_number(class),
        TRUTH => (class == TRUE) | (class == FALSE),
        FLAG_LIST => is_flag(class),
        NUMERIC_FLAGS => is_numeric_flag(class),
        _ => class == HEX,
    }
}

// The value of the number at a place lies between two numbers.
fn is_between(src: &[u8], at: usize, low: u64, high: u64) -> bool
    ensures { result ≡ within low high (value_at src.now at) }
{
    values::value_at(src, at).is_some_and(|n| low <= n && n <= high)
}

// A word stands in the number's place, or the number lies between two others.
fn word_or_between(src: &[u8], at: usize, word: bool, low: u64, high: u64) -> bool
    ensures { result ≡ (word || within low high (value_at src.now at)) }
{
    word || is_between(src, at, low, high)
}

// The token, which suits the element, keeps the element's range.
#[tactic(auto, unfolding(crate::specs::Kinds::element_range, grammar::specs::Ranges::range_of, grammar::specs::Ranges::keeps))]
pub fn in_range(src: &[u8], token: Token, want: u8) -> bool
    ensures { result ≡ keeps src.now (element_range want token.class) token.start }
{
    let at = token.start;
    match want {
        ID => is_between(src, at, 1, 65535),
        SMALL => is_between(src, at, 0, 65535),
        LARGE => is_between(src, at, 0, 18446744073709551615),
        OPTION_FLAGS => word_or_between(src, at, token.class == DEFAULT, 0, 0),
        REFERENCE => word_or_between(src, at, token.class == NAME, 1, 65535),
        H8 => values::digits_at(src, at) <= 8,
        H4 => values::digits_at(src, at) <= 4,
        H2 => values::digits_at(src, at) <= 2,
        _ => true,
    }
}
