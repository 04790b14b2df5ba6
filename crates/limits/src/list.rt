// The list of the specimens, two by two: the last that is kept and the first that is refused; at the end two for which
// the table is one row short.
ghost use Rattle.std.specs.Prelude.{◌≡◌, ◌≤◌};

use crate::sources::{
    COLUMN_17, COLUMN_33, COLUMN_256, CONDITION_17, FRAME, Kind, PARENTHESIS_33, RULE_256,
};
use rows::columns::ROW;
use specimen::{Expected, Specimen};

// The kind of a source, how many of that it has, how many rows are lent, and what is expected.
#[derive(Clone, Copy, Debug, PartialEq, Eq)]
pub struct Made {
    pub kind: Kind,
    pub size: usize,
    pub lent: usize,
    pub expected: Expected,
}

// What each pair is.
pub const PAIRS: [&str; 5] = [
    "32 and 33 parentheses",
    "16 and 17 conditions",
    "255 and 256 rules",
    "65536 and 65537 bytes",
    "a table one row short",
];

// Free numbers of a form set without questions.
const FREE: u64 = 65535;

// Where all that is expected is 0.
const NOTHING: Expected = Expected {
    number: 0,
    place: 0,
    rows: 0,
    free: 0,
    line: 0,
    column: 0,
};

// A source with so many rows is accepted.
fn accepted(rows: u64) -> Expected {
    Expected {
        rows,
        free: FREE,
        ..NOTHING
    }
}

// A source is refused at a place.
fn refused(number: u64, place: u64, line: u64, column: u64) -> Expected {
    Expected {
        number,
        place,
        line,
        column,
        ..NOTHING
    }
}

// A table has too few rows for a source.
fn short(rows: u64) -> Expected {
    Expected {
        number: 6,
        rows,
        ..NOTHING
    }
}

fn make(kind: Kind, size: usize, lent: usize, expected: Expected) -> Made
    ensures size { result.size ≡ size }
    ensures lent { result.lent ≡ lent }
{
    Made {
        kind,
        size,
        lent,
        expected,
    }
}

// Specimen k of the list.
pub fn listed(k: usize) -> Made
    ensures size { result.size ≤ 100000 }
    ensures lent { result.lent ≤ 1000 }
{
    match k {
        // kind, size, rows lent; what is expected
        0 => make(Kind::Parentheses, 32, 8, accepted(4)),
        1 => make(
            Kind::Parentheses,
            33,
            8,
            refused(4, PARENTHESIS_33, 1, COLUMN_33),
        ),
        2 => make(Kind::Conditions, 16, 64, accepted(34)),
        3 => make(
            Kind::Conditions,
            17,
            64,
            refused(4, CONDITION_17, 17, COLUMN_17),
        ),
        4 => make(Kind::Rules, 255, 512, accepted(512)),
        5 => make(
            Kind::Rules,
            256,
            514,
            refused(10, RULE_256, 256, COLUMN_256),
        ),
        6 => make(Kind::Blanks, 65536 - FRAME, 4, accepted(2)),
        7 => make(Kind::Blanks, 65537 - FRAME, 4, refused(1, 0, 0, 0)),
        8 => make(Kind::Rules, 255, 511, short(512)),
        _ => make(Kind::Rules, 256, 513, short(514)),
    }
}

pub fn specimen_of(k: usize, made: Made) -> Specimen
    requires { made.lent ≤ 1000 }
{
    Specimen {
        id: k as u64,
        lent: made.lent * ROW,
        expected: made.expected,
    }
}
