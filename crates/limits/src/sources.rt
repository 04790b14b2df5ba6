// The sources of the specimens: a form set with one form, and in it so many parentheses round a number, conditions each
// within the one before, rules, or blanks. Each condition and each rule has one LF within it; nothing else has any.
ghost use Rattle.std.specs.Prelude.{◌≤◌, length, IfSome};

use trials::put::put;

// What a source has between its first and its last words.
#[derive(Clone, Copy, Debug, PartialEq, Eq)]
pub enum Kind {
    Parentheses,
    Conditions,
    Rules,
    Blanks,
}

// What stands round every made text: a form set with one form, number 1.
const HEAD: [u8; 140] = *b"formset guid={0x1,0x2,0x3,{0x4,0x5,0x6,0x7,0x8,0x9,0xA,0xB}},\
title=STRING_TOKEN(2),help=STRING_TOKEN(3),form formid=1,title=STRING_TOKEN(4);";

const TAIL: [u8; 19] = *b"endform;endformset;";

// The bytes of both.
pub const FRAME: usize = 159;

// Where the form and the text between them start.
pub const FORM_START: u64 = 104;

pub const START: u64 = 140;

// The bytes of `rule A,`, of a condition and of a rule.
pub const RULE_OPENING: u64 = 7;

pub const CONDITION: u64 = 13;

pub const RULE: u64 = 20;

// Where the 33rd parenthesis, the 17th condition and the 256th rule start.
pub const PARENTHESIS_33: u64 = START + RULE_OPENING + 32;

pub const CONDITION_17: u64 = START + 16 * CONDITION;

pub const RULE_256: u64 = START + 255 * RULE;

// The columns of these (W-201): the parenthesis is on the first line; a condition follows the `1;` of the one before, and
// a rule the `endrule;` of the one before.
pub const COLUMN_33: u64 = PARENTHESIS_33 + 1;

pub const COLUMN_17: u64 = 3;

pub const COLUMN_256: u64 = 9;

// Writes a text so many times, where there is room.
fn put_times(src: &mut [u8], at: usize, text: &[u8], times: usize) -> Option<usize> {
    let mut end = at;
    for _ in 0..times {
        end = put(src, end, text)?;
    }
    Some(end)
}

// Writes an opening so many times, what stands within, and a closing as often.
fn put_nested(
    src: &mut [u8],
    at: usize,
    depth: usize,
    opening: &[u8],
    within: &[u8],
    closing: &[u8],
) -> Option<usize> {
    let opened = put_times(src, at, opening, depth)?;
    let filled = put(src, opened, within)?;
    put_times(src, filled, closing, depth)
}

// A rule whose number stands in so many parentheses.
fn put_parentheses(depth: usize, src: &mut [u8], at: usize) -> Option<usize> {
    let rule = put(src, at, b"rule A,")?;
    let end = put_nested(src, rule, depth, b"(", b"1", b")")?;
    put(src, end, b" endrule;")
}

fn digit(n: usize) -> u8 {
    b'0' + (n % 10) as u8
}

fn put_rule(k: usize, src: &mut [u8], at: usize) -> Option<usize> {
    let mut text = *b"rule A000,1\nendrule;";
    text[6] = digit(k / 100);
    text[7] = digit(k / 10);
    text[8] = digit(k);
    put(src, at, &text)
}

// So many rules, A000 and on.
fn put_rules(count: usize, src: &mut [u8], at: usize) -> Option<usize> {
    let mut end = at;
    for k in 0..count {
        end = put_rule(k, src, end)?;
    }
    Some(end)
}

fn put_body(kind: Kind, size: usize, src: &mut [u8], at: usize) -> Option<usize> {
    match kind {
        Kind::Parentheses => put_parentheses(size, src, at),
        Kind::Conditions => put_nested(src, at, size, b"suppressif\n1;", b"", b"endif;"),
        Kind::Rules => put_rules(size, src, at),
        Kind::Blanks => put_times(src, at, b" ", size),
    }
}

// Writes a source, where there is room, and gives its length.
pub fn put_source(kind: Kind, size: usize, src: &mut [u8]) -> Option<usize>
    ensures { IfSome result (λ n. n ≤ length src.new) }
{
    let start = put(src, 0, &HEAD)?;
    let end = put_body(kind, size, src, start)?;
    put(src, end, &TAIL)
}
