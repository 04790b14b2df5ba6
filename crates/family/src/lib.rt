// A whole family of sources in one call (document 02, W-206).
#![tactic(auto)]

ghost use Rattle.std.specs.Prelude.{◌≡◌, ◌++◌, ◌+◌, ◌-◌, ◌*◌, min, length};
ghost use Rattle.rows.specs.Columns.{ROW};
ghost use Rattle.rows.specs.Table.{whole_rows};
ghost use Rattle.rows.specs.Rows.{rows_from, laid};
ghost use Rattle.read.specs.Answers as reading;
ghost use Rattle.lent.specs.Numbers.{in_lent, reply_numbers};
ghost use Rattle.replies.specs.Replies.{Reply, read_reply};
ghost use Rattle.family.specs.Answers.{not_read_told, told};
ghost use Rattle.family.specs.Family.{bad_ends, is_bad, rows_taken, rows_with, readings, family_reply, family_table, family_answers};
ghost use Rattle.family.specs.Steps.{Free, Blank, Written};

use lent::{Numbers, put_answer};
use read::{Accepted, Refusal, read_over};
use refusals::Reason;
use rows::columns::ROW;
use rows::whole_rows;

// How many sources a family has at most, and how many bytes they have together.
const MOST: usize = 64;

const LONGEST: usize = 65536;

// How many words an answer has.
const WORDS: usize = 6;

// A family that is not read.
#[derive(Clone, Copy, Debug, PartialEq, Eq)]
pub struct BadFamily;

impl Numbers for BadFamily {
    ghost told = { not_read_told };

    fn numbers(&self) -> [u64; 7] {
        [Reason::BadFamily.into(), 0, 0, 0, 0, 0, 0]
    }
}

// Whether an end is below the one before it, or the last (0 if there is none) is not the length.
fn bad_ends(ends: &[u64], length: usize) -> bool
    ensures { result ≡ bad_ends 0 ends.now length }
{
    let mut last = 0;
    for &end in ends {
        if end < last {
            return true;
        }
        last = end;
    }
    last != length as u64
}

// Whether the family is not read.
fn is_bad(buffer: &[u8], ends: &[u64], answers: &[u64]) -> bool
    ensures { result ≡ is_bad buffer.now ends.now (length answers.now) }
{
    (MOST < ends.len())
        | bad_ends(ends, buffer.len())
        | (LONGEST < buffer.len())
        | (answers.len() / WORDS < ends.len())
}

// Writes a source's answer: how many rows it uses.
fn put_taken(out: &mut [u64], answer: Result<Accepted, Refusal>) -> usize
    ensures value { result ≡ rows_taken (reading.told answer) }
    ensures out_after { out.new ≡ in_lent (length out.old) (reply_numbers (reading.told answer)) }
{
    put_answer(out, &answer);
    answer.map_or(0, |accepted| accepted.rows)
}

// Reads a source behind the rows of a table, so many and then zeros, and writes its answer: how many rows there then are.
// A source has no more rows than bytes, so that no more of the rows that are left are lent to it.
fn read_next(src: &[u8], table: &mut [u64], rows: usize, out: &mut [u64]) -> usize
    requires { Free table.old rows }
    ensures value { result ≡ rows + length (rows_with src.now (whole_rows table.old - rows)) }
    ensures table_after { table.new
        ≡ laid
        (rows_from table.old 0 rows ++ rows_with src.now (whole_rows table.old - rows))
        (length table.old) }
    ensures out_after { out.new
        ≡ in_lent (length out.old) (reply_numbers (read_reply src.now ((whole_rows table.old - rows) * ROW))) }
{
    let from = rows * ROW;
    let to = from + src.len().min(whole_rows(table) - rows) * ROW;
    let answer = read_over(src, &mut table[from..to]);
    rows + put_taken(out, answer)
}

// Reads source after source, each with the rows that are left: how many rows there then are.
fn read_all(buffer: &[u8], ends: &[u64], table: &mut [u64], answers: &mut [u64]) -> usize
    requires { Blank buffer.now ends.now table.old answers.old }
    ensures { Written (readings buffer.now ends.now (length table.old))
        (length table.old) (length answers.old) result table.new answers.new }
{
    let mut start = 0;
    let mut rows = 0;
    for k in 0..ends.len() {
        let end = ends[k] as usize;
        let from = k * WORDS;
        let to = from + WORDS;
        rows = read_next(&buffer[start..end], table, rows, &mut answers[from..to]);
        start = end;
    }
    rows
}

// Reads the sources of a family, joined in one buffer and parted by their ends, into one table, with six words for each.
pub fn read_family(
    buffer: &[u8],
    ends: &[u64],
    table: &mut [u64],
    answers: &mut [u64],
) -> Result<Accepted, BadFamily>
    ensures result_value { told result ≡ family_reply buffer.now ends.now (length table.old) (length answers.old) }
    ensures table_after { table.new ≡ family_table buffer.now ends.now (length table.old) (length answers.old) }
    ensures answers_after { answers.new
        ≡ family_answers buffer.now ends.now (length table.old) (length answers.old) }
{
    rows::clear(table, 0);
    rows::clear(answers, 0);
    if is_bad(buffer, ends, answers) {
        return Err(BadFamily);
    }
    let rows = read_all(buffer, ends, table, answers);
    Ok(Accepted { rows, free: 0 })
}
