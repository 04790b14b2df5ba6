// Reading a source into a lent table, and the quick check (document 01, Refusal numbers; document 02, W-201 and W-204).
#![tactic(auto)]

mod accept;
mod checks;
mod faults;

ghost use Rattle.std.specs.Prelude.{◌≡◌, length, Err};
ghost use Rattle.rows.specs.Table.{cleared};
ghost use Rattle.answers.specs.WholeAnswer.{read_table, quick_check};
ghost use Rattle.replies.specs.Replies.{read_replied, read_reply};
ghost use Rattle.read.specs.Answers.{refused, refusal_told, told, InFull};
ghost use Rattle.read.specs.Faults.{fault_at};
ghost use Rattle.read.specs.Over.{read_over};

use crate::accept::finish;
use crate::checks::survey;
use refusals::Reason;
use rows::whole_rows;
use walk::Fault;

// What an accepted source has: so many rows, and so many numbers that no question bears.
#[derive(Clone, Copy, Debug, PartialEq, Eq)]
pub struct Accepted {
    pub rows: usize,
    pub free: u64,
}

// Why a source is refused: the reason, its place, and that place's line and column (0 and 0 at a source that is too long,
// whose place is always 0); or, where fewer whole rows are lent than the source needs, the need.
#[derive(Clone, Copy, Debug, PartialEq, Eq)]
pub enum Refusal {
    At {
        reason: Reason,
        place: usize,
        line: usize,
        column: usize,
    },
    TooFewRows(usize),
}

// What the quick check counts places below.
const PLACES: u64 = 4294967296;

// Stages 1 to 5 with 16 alone: the refusal's number times 2^32 plus its place, or 0.
pub fn quick_check(src: &[u8]) -> u64
    ensures { result ≡ quick_check src.now }
{
    match survey(src, &mut []) {
        Ok(_) => 0,
        Err(fault) => u64::from(fault.reason) * PLACES + fault.place as u64 % PLACES,
    }
}

// A refusal that leaves the table all zeros.
fn refuse<T>(table: &mut [u64], reason: Reason, place: usize) -> Result<T, Fault>
    ensures { (result ≡ Err (fault_at reason place)) × (table.new ≡ cleared table.old 0) }
{
    rows::clear(table, 0);
    Err(Fault { reason, place })
}

// The refusal of a fault: line and column are counted where it has a place.
fn refusal_of(src: &[u8], fault: Fault) -> Refusal
    ensures { refusal_told result ≡ read_replied src.now (refused fault) }
{
    let p = replies::position_of(src, fault.reason.into(), fault.place);
    Refusal::At {
        reason: fault.reason,
        place: fault.place,
        line: p.line,
        column: p.column,
    }
}

// What the stages find, in full.
fn in_full<T>(src: &[u8], outcome: Result<T, Fault>) -> Result<T, Refusal>
    ensures { InFull src.now outcome result }
{
    outcome.map_err(|fault| refusal_of(src, fault))
}

// Reads a source over the first rows of a table, and leaves what lies past them; where it is refused, the table is all zeros.
pub fn read_over(src: &[u8], table: &mut [u64]) -> Result<Accepted, Refusal>
    ensures result_value { told result ≡ read_reply src.now (length table.old) }
    ensures table_after { table.new ≡ read_over src.now table.old }
{
    let count = in_full(src, survey(src, table))?;
    if whole_rows(table) < count {
        rows::clear(table, 0);
        return Err(Refusal::TooFewRows(count));
    }
    in_full(src, finish(src, table, count))
}

// Reads a source into a table.
pub fn read(src: &[u8], table: &mut [u64]) -> Result<Accepted, Refusal>
    ensures result_value { told result ≡ read_reply src.now (length table.old) }
    ensures table_after { table.new ≡ read_table src.now (length table.old) }
{
    let accepted = read_over(src, table)?;
    rows::clear_past(table, accepted.rows);
    Ok(accepted)
}
