// A specimen of reading: a source, how many numbers are lent, and what is expected. It is read and compared whole, and
// again with tables too small, just large enough, and none.
#![tactic(auto)]

mod compare;
pub mod counts;
mod tables;

use rows::columns::ROW;
use std::fmt;
use std::fmt::Display;
pub use tables::{Ran, run};

// The number, place, row count and free count that are expected, and the line and column beside the place (W-201).
#[derive(Clone, Copy, Debug, PartialEq, Eq)]
pub struct Expected {
    pub number: u64,
    pub place: u64,
    pub rows: u64,
    pub free: u64,
    pub line: u64,
    pub column: u64,
}

// Its number among others, how many numbers are lent, and what is expected.
#[derive(Clone, Copy, Debug, PartialEq, Eq)]
pub struct Specimen {
    pub id: u64,
    pub lent: usize,
    pub expected: Expected,
}

impl Display for Specimen {
    fn fmt<W: fmt::Write>(&self, f: &mut fmt::Formatter<W>) -> fmt::Result {
        write!(f, "case {} with {} lent", self.id, self.lent)
    }
}

// Where all that is expected is 0.
const NOTHING: Expected = Expected {
    number: 0,
    place: 0,
    rows: 0,
    free: 0,
    line: 0,
    column: 0,
};

// The rows and the numbers of the largest table that is lent.
pub const ROWS: usize = 2048;

pub const NUMBERS: usize = ROWS * ROW;

// The number of a table that is too short.
const SHORT: u64 = 6;

// The number of a second size or display word, which is told before the rows are counted (W-204).
const SECOND_WORD: u64 = 16;
