// The rows of the made sources: the form set, the form and, for each statement in it, the statement and its number 1.
ghost use Rattle.std.specs.Prelude.{◌≤◌};

use crate::sources::{CONDITION, FORM_START, Kind, RULE, RULE_OPENING, START};
use rows::columns::ROW;
use rows::{codes, columns, put_row};

// The two halves of the GUID.
const GUID_HIGH: u64 = 0x0000000100020003;

const GUID_LOW: u64 = 0x0405060708090A0B;

// A statement: its code, its parent's row, its own number, its place, the place plus one of its name, and the place of
// the number in it.
#[derive(Clone, Copy, Debug, PartialEq, Eq)]
struct Statement {
    code: u64,
    parent: u64,
    own: u64,
    place: u64,
    name: u64,
    number: u64,
}

// Statement k of a source: a rule whose number stands in parentheses, a condition in the one before, or a rule.
fn statement_of(kind: Kind, size: u64, k: u64) -> Statement
    requires { (size ≤ 100000) × (k ≤ 100000) }
{
    match kind {
        Kind::Parentheses => Statement {
            code: codes::RULE,
            parent: 1,
            own: 1,
            place: START,
            name: START + 6,
            number: START + RULE_OPENING + size,
        },
        Kind::Conditions => Statement {
            code: codes::SUPPRESS_IF,
            parent: if k == 0 { 1 } else { 2 * k },
            own: 0,
            place: START + CONDITION * k,
            name: 0,
            number: START + CONDITION * k + 11,
        },
        Kind::Rules | Kind::Blanks => Statement {
            code: codes::RULE,
            parent: 1,
            own: k + 1,
            place: START + RULE * k,
            name: START + RULE * k + 6,
            number: START + RULE * k + 10,
        },
    }
}

// How many statements a source has.
fn count(kind: Kind, size: usize) -> usize
    requires { size ≤ 100000 }
    ensures { result ≤ 100000 }
{
    match kind {
        Kind::Parentheses => 1,
        Kind::Conditions | Kind::Rules => size,
        Kind::Blanks => 0,
    }
}

fn put_frame(cells: &mut [u64]) {
    let mut form_set = [0u64; ROW];
    form_set[columns::CODE] = codes::FORM_SET;
    form_set[columns::FIRST] = 2;
    form_set[columns::SECOND] = 3;
    form_set[columns::A] = GUID_HIGH;
    form_set[columns::B] = GUID_LOW;
    put_row(cells, 0, form_set);
    let mut form = [0u64; ROW];
    form[columns::CODE] = codes::FORM;
    form[columns::OWN] = 1;
    form[columns::FIRST] = 4;
    form[columns::PLACE] = FORM_START;
    put_row(cells, 1, form);
}

// Writes the rows of a statement that has so many before it, and of its number.
fn put_statement(cells: &mut [u64], k: usize, s: Statement)
    requires { k ≤ 100000 }
{
    let at = 2 + 2 * k;
    let mut row = [0u64; ROW];
    row[columns::CODE] = s.code;
    row[columns::PARENT] = s.parent;
    row[columns::OWN] = s.own;
    row[columns::NAME] = s.name;
    row[columns::PLACE] = s.place;
    put_row(cells, at, row);
    let mut number = [0u64; ROW];
    number[columns::CODE] = codes::NUMBER;
    number[columns::PARENT] = at as u64;
    number[columns::A] = 1;
    number[columns::PLACE] = s.number;
    put_row(cells, at + 1, number);
}

// Writes the rows of a source.
pub fn put_rows(kind: Kind, size: usize, cells: &mut [u64])
    requires { size ≤ 100000 }
{
    put_frame(cells);
    for k in 0..count(kind, size) {
        put_statement(cells, k, statement_of(kind, size as u64, k as u64));
    }
}
