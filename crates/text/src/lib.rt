// The resolved text of a source (document 01, Resolved text; document 02, W-201).
#![tactic(auto)]

mod expressions;
mod items;

ghost use Rattle.std.specs.Prelude.{◌≡◌, length};
ghost use Rattle.answers.specs.Resolution.{room, resolved_table, resolved_output};
ghost use Rattle.replies.specs.Replies.{resolve_reply};
ghost use Rattle.text.specs.Answers.{resolved_told, refusal_told, told, RowsPrinted};
ghost use Rattle.text.specs.declared.Refusal.TheVariants.{Reading};

use crate::items::put_text;
use lent::Numbers;
use read::Accepted;
use refusals::Reason;
use spellings::output::Output;

// The longest text.
const LONGEST: usize = 65536;

// What resolving answers: rows, free numbers, and the bytes of the text.
#[derive(Clone, Copy, Debug, PartialEq, Eq)]
pub struct Resolved {
    pub rows: usize,
    pub free: u64,
    pub bytes: usize,
}

// Why it refuses: reading does; or the bytes needed, where the output or the longest text is shorter (No. 13).
#[derive(Clone, Copy, Debug, PartialEq, Eq)]
pub enum Refusal {
    Reading(read::Refusal),
    TooLong(usize),
}

impl From<read::Refusal> for Refusal {
    ghost from_gives = { λ refusal r. r ≡ Reading refusal };

    fn from(refusal: read::Refusal) -> Refusal {
        Refusal::Reading(refusal)
    }
}

impl Numbers for Resolved {
    ghost told = { resolved_told };

    fn numbers(&self) -> [u64; 7] {
        [0, 0, self.rows as u64, self.free, 0, 0, self.bytes as u64]
    }
}

impl Numbers for Refusal {
    ghost told = { refusal_told };

    fn numbers(&self) -> [u64; 7] {
        match self {
            Refusal::Reading(refusal) => refusal.numbers(),
            Refusal::TooLong(need) => [Reason::TextTooLong.into(), 0, *need as u64, 0, 0, 0, 0],
        }
    }
}

// The longest text for so many bytes lent.
fn room(lent: usize) -> usize
    ensures { result ≡ room lent }
{
    lent.min(LONGEST)
}

// The answer for so many finished rows in the table.
fn print_rows(table: &mut [u64], out: &mut [u8], accepted: Accepted) -> Result<Resolved, Refusal>
    ensures { RowsPrinted table.old accepted.rows accepted.free out.old result table.new out.new }
{
    let Accepted { rows, free } = accepted;
    let mut text = Output { bytes: out, at: 0 };
    put_text(&mut text, table, rows);
    let bytes = text.at;
    if room(out.len()) < bytes {
        rows::clear(table, 0);
        rows::clear(out, 0);
        return Err(Refusal::TooLong(bytes));
    }
    rows::clear(out, bytes);
    Ok(Resolved { rows, free, bytes })
}

// Reads a source into a table and prints its text into an output.
pub fn resolve(src: &[u8], table: &mut [u64], out: &mut [u8]) -> Result<Resolved, Refusal>
    ensures result_value { told result ≡ resolve_reply src.now (length table.old) (length out.old) }
    ensures table_after { table.new ≡ resolved_table src.now (length table.old) (length out.old) }
    ensures out_after { out.new ≡ resolved_output src.now (length table.old) (length out.old) }
{
    match read::read(src, table) {
        Ok(accepted) => print_rows(table, out, accepted),
        Err(refusal) => {
            rows::clear(out, 0);
            Err(refusal.into())
        }
    }
}
