// Running a specimen, and running its source again with other tables.
ghost use Rattle.std.specs.Prelude.{◌≡◌, ◌<◌, IfOk, IfSome};
ghost use Rattle.specimen.specs.Agreement.{cells_of, Agrees};

use crate::compare::agrees;
use crate::{Expected, NOTHING, ROWS, SECOND_WORD, SHORT, Specimen};
use read::Refusal;
use rows::columns::ROW;
use std::io;
use std::ops::Add;
use trials::tally::Tally;

// How a specimen went: as it stands, with a number too few for its rows, with just these rows, and with no table.
#[derive(Clone, Copy, Debug, Default, PartialEq, Eq)]
pub struct Ran {
    pub first: Tally,
    pub short: Tally,
    pub enough: Tally,
    pub bare: Tally,
}

impl Add for Ran {
    type Output = Ran;

    fn add(self, other: Ran) -> Ran {
        Ran {
            first: self.first + other.first,
            short: self.short + other.short,
            enough: self.enough + other.enough,
            bare: self.bare + other.bare,
        }
    }
}

// The rows that a source needs, as reading tells where none is lent; 0 if it tells none.
fn told_need(src: &[u8]) -> usize {
    match read::read(src, &mut []) {
        Err(Refusal::TooFewRows(need)) => need,
        _ => 0,
    }
}

// The rows that a source needs: what is expected or, for a refusal after the rows are counted, what reading tells.
// None where it needs none, or there is no space for such a table.
fn need_of(expected: Expected, src: &[u8]) -> Option<usize>
    ensures { IfSome result (λ need. (0 < need) × (need < 2048)) }
{
    let need = if expected.number <= SHORT {
        expected.rows as usize
    } else {
        told_need(src)
    };
    if 0 < need && need < ROWS {
        Some(need)
    } else {
        None
    }
}

// How the source of a specimen goes with so many numbers lent.
fn run_with(
    rt: &impl Print,
    s: Specimen,
    lent: usize,
    expected: Expected,
    src: &[u8],
    cells: &[u64],
) -> io::Result<Tally> {
    let agreed = agrees(
        rt,
        Specimen {
            lent,
            expected,
            ..s
        },
        src,
        cells,
    )?;
    Ok(Tally::one(agreed))
}

// With a number too few for the rows needed.
fn run_short(
    rt: &impl Print,
    s: Specimen,
    need: Option<usize>,
    src: &[u8],
    cells: &[u64],
) -> io::Result<Tally>
    requires { IfSome need (λ rows. (0 < rows) × (rows < 2048)) }
{
    let Some(need) = need else {
        return Ok(Tally::default());
    };
    let expected = Expected {
        number: SHORT,
        rows: need as u64,
        ..NOTHING
    };
    run_with(rt, s, need * ROW - 1, expected, src, cells)
}

// With the rows needed, and most of a row left over.
fn run_enough(
    rt: &impl Print,
    s: Specimen,
    need: Option<usize>,
    src: &[u8],
    cells: &[u64],
) -> io::Result<Tally>
    requires { IfSome need (λ rows. (0 < rows) × (rows < 2048)) }
{
    match need {
        Some(need) if s.expected.number != SHORT => {
            run_with(rt, s, need * ROW + (ROW - 1), s.expected, src, cells)
        }
        _ => Ok(Tally::default()),
    }
}

// With no table, where the refusal is one before the rows are counted.
fn run_bare(rt: &impl Print, s: Specimen, src: &[u8], cells: &[u64]) -> io::Result<Tally> {
    match s.expected.number {
        1..SHORT | SECOND_WORD => run_with(rt, s, 0, s.expected, src, cells),
        _ => Ok(Tally::default()),
    }
}

// Runs a specimen. The cells start with those that are expected.
pub fn run(rt: &impl Print, s: Specimen, src: &[u8], cells: &[u64]) -> io::Result<Ran>
    ensures { IfOk result (λ ran. ran.first.agreed ≡ 1 → Agrees src.now s.lent s.expected (cells_of s.expected cells.now)) }
{
    let need = need_of(s.expected, src);
    let first = Tally::one(agrees(rt, s, src, cells)?);
    let short = run_short(rt, s, need, src, cells)?;
    let enough = run_enough(rt, s, need, src, cells)?;
    let bare = run_bare(rt, s, src, cells)?;
    Ok(Ran {
        first,
        short,
        enough,
        bare,
    })
}
