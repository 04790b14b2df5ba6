// Reading a source into a table, and comparing all that comes back with what is expected.
ghost use Rattle.std.specs.Prelude.{◌≡◌, true, length, IfOk};
ghost use Rattle.read.specs.Answers.{told};
ghost use Rattle.answers.specs.WholeAnswer.{quick_check, read_table};
ghost use Rattle.trials.specs.Differences.{padded};
ghost use Rattle.specimen.specs.Agreement.{reply_of, quick_of, cells_of, Agrees};

use crate::{Expected, NOTHING, NUMBERS, SECOND_WORD, SHORT, Specimen};
use read::{Accepted, Refusal};
use rows::columns::ROW;
use std::io;
use trials::differ::{first_difference, number_at};
use trials::fill::UNCLEARED_NUMBER;

// What the quick check counts places below.
const PLACES: u64 = 4294967296;

// The values of an answer.
fn values(answer: Result<Accepted, Refusal>) -> Expected
    ensures { reply_of result ≡ told answer }
{
    match answer {
        Ok(accepted) => Expected {
            rows: accepted.rows as u64,
            free: accepted.free,
            ..NOTHING
        },
        Err(
            Refusal::At {
                reason,
                place,
                line,
                column,
            },
        ) => Expected {
            number: u64::from(reason),
            place: place as u64,
            line: line as u64,
            column: column as u64,
            ..NOTHING
        },
        Err(Refusal::TooFewRows(need)) => Expected {
            number: SHORT,
            rows: need as u64,
            ..NOTHING
        },
    }
}

// What the quick check answers where this is expected of reading.
fn quick(expected: Expected) -> u64
    ensures { result ≡ quick_of expected }
{
    match expected.number {
        0..SHORT | SECOND_WORD => expected.number * PLACES + expected.place % PLACES,
        _ => 0,
    }
}

// The cells that are expected, of those that start with them.
fn expected_cells(expected: Expected, cells: &[u64]) -> &[u64]
    ensures { result.now ≡ cells_of expected cells.now }
{
    let rows = expected.rows as usize;
    if expected.number != 0 {
        return &cells[0..0];
    }
    if cells.len() / ROW < rows {
        return cells;
    }
    let n = rows * ROW;
    &cells[0..n]
}

// Whether two values are the same; a difference is printed.
fn is_same(rt: &impl Print, s: Specimen, what: &str, came: u64, expected: u64) -> io::Result<bool>
    ensures { IfOk result (λ same. same ≡ true → came ≡ expected) }
{
    if came != expected {
        println!(rt; "{s}: {what} {came}, expected {expected}")?;
    }
    Ok(came == expected)
}

// Whether the six values are the expected ones.
fn is_answer(rt: &impl Print, s: Specimen, came: Expected) -> io::Result<bool>
    ensures { IfOk result (λ same. same ≡ true → reply_of came ≡ reply_of s.expected) }
{
    let expected = s.expected;
    let number = is_same(rt, s, "number", came.number, expected.number)?;
    let place = is_same(rt, s, "place", came.place, expected.place)?;
    let rows = is_same(rt, s, "row count", came.rows, expected.rows)?;
    let free = is_same(rt, s, "free count", came.free, expected.free)?;
    let line = is_same(rt, s, "line", came.line, expected.line)?;
    let column = is_same(rt, s, "column", came.column, expected.column)?;
    Ok(number & place & rows & free & line & column)
}

// Whether the table holds these numbers and then zeros; the first difference is printed.
fn is_table(rt: &impl Print, s: Specimen, table: &[u64], cells: &[u64]) -> io::Result<bool>
    ensures { IfOk result (λ same. same ≡ true → table.now ≡ padded cells.now (length table.now)) }
{
    if table.len() < cells.len() {
        return is_same(
            rt,
            s,
            "numbers of the table",
            table.len() as u64,
            cells.len() as u64,
        );
    }
    let Some(k) = first_difference(table, cells) else {
        return Ok(true);
    };
    println!(rt;
        "{s}: table at {k} {}, expected {}",
        table[k],
        number_at(cells, k)
    )?;
    Ok(false)
}

// Whether the quick check answers what is expected.
fn is_quick(rt: &impl Print, s: Specimen, src: &[u8]) -> io::Result<bool>
    ensures { IfOk result (λ same. same ≡ true → quick_check src.now ≡ quick_of s.expected) }
{
    is_same(
        rt,
        s,
        "quick check",
        read::quick_check(src),
        quick(s.expected),
    )
}

// Whether reading a source into the table gives what is expected.
fn is_read(
    rt: &impl Print,
    s: Specimen,
    src: &[u8],
    table: &mut [u64],
    cells: &[u64],
) -> io::Result<bool>
    ensures ok { IfOk result (λ same. same ≡ true → Agrees src.now (length table.old) s.expected cells.now) }

    // Printing changes nothing that is lent: the table is as reading leaves it.
    ensures table_after { table.new ≡ read_table src.now (length table.old) }
{
    table.fill(UNCLEARED_NUMBER);
    let answer = read::read(src, table);
    let is_told = is_answer(rt, s, values(answer))?;
    let is_laid = is_table(rt, s, table, cells)?;
    let is_checked = is_quick(rt, s, src)?;
    Ok(is_told & is_laid & is_checked)
}

// The same, with as many numbers of the space for the table as are to be lent.
fn is_read_in(
    rt: &impl Print,
    s: Specimen,
    src: &[u8],
    space: &mut [u64],
    cells: &[u64],
) -> io::Result<bool>
    ensures ok { IfOk result (λ same. same ≡ true → Agrees src.now s.lent s.expected cells.now) }

    // An error is one of printing, and leaves the space as it is without one.
    ensures space_after { length space.new ≡ length space.old }
{
    let n = s.lent;
    if space.len() < n {
        return is_same(rt, s, "numbers to lend", space.len() as u64, n as u64);
    }
    is_read(rt, s, src, &mut space[0..n], cells)
}

// Whether a specimen agrees. The cells start with those that are expected.
pub fn agrees(rt: &impl Print, s: Specimen, src: &[u8], cells: &[u64]) -> io::Result<bool>
    ensures { IfOk result (λ same. same ≡ true → Agrees src.now s.lent s.expected (cells_of s.expected cells.now)) }
{
    let mut space = [0u64; NUMBERS];
    let expected = expected_cells(s.expected, cells);
    is_read_in(rt, s, src, &mut space, expected)
}
