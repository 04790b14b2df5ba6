// Which items of a source are hidden or grey, by saved answers (document 02, W-202).
#![tactic(auto)]

ghost use Rattle.std.specs.Prelude.{◌≡◌, length, Err};
ghost use Rattle.replies.specs.Replies.{Reply};
ghost use Rattle.rows.specs.Table.{cleared};
ghost use Rattle.show.specs.Answers.{refusal_told, told};
ghost use Rattle.show.specs.Show.{show_reply, show_table, show_output};
ghost use Rattle.show.specs.ShownRows.{unplaced, rows_answer, rows_table, rows_output};
ghost use Rattle.show.specs.declared.Refusal.TheVariants.{Reading};

use lent::Numbers;
use question_kinds::{Kinds, mark_rows};
use read::Accepted;
use refusals::Reason;
use saved_answers::{Answers, good_answers};
use table_screen::show_table;

// Why showing refuses: reading does; an answer, so many before it, is out of order or for no question; or the output has
// fewer bytes than the table has rows.
#[derive(Clone, Copy, Debug, PartialEq, Eq)]
pub enum Refusal {
    Reading(read::Refusal),
    BadAnswer(usize),
    TooFewBytes,
}

impl From<read::Refusal> for Refusal {
    ghost from_gives = { λ refusal r. r ≡ Reading refusal };

    fn from(refusal: read::Refusal) -> Refusal {
        Refusal::Reading(refusal)
    }
}

impl Numbers for Refusal {
    ghost told = { refusal_told };

    fn numbers(&self) -> [u64; 7] {
        match self {
            Refusal::Reading(refusal) => refusal.numbers(),
            Refusal::BadAnswer(place) => [Reason::BadAnswer.into(), *place as u64, 0, 0, 0, 0, 0],
            Refusal::TooFewBytes => [Reason::TooFewBytes.into(), 0, 0, 0, 0, 0, 0],
        }
    }
}

// A refusal after reading, with all that is lent for results set to 0.
fn refuse(table: &mut [u64], out: &mut [u8], refusal: Refusal) -> Result<Accepted, Refusal>
    ensures result_value { result ≡ Err refusal }
    ensures table_after { table.new ≡ cleared table.old 0 }
    ensures out_after { out.new ≡ cleared out.old 0 }
{
    rows::clear(table, 0);
    rows::clear(out, 0);
    Err(refusal)
}

// The answer for the finished rows of an accepted source in the table, and their bytes.
fn show_rows(
    answers: &[u64],
    table: &mut [u64],
    out: &mut [u8],
    accepted: Accepted,
) -> Result<Accepted, Refusal>
    ensures result_value { told result
        ≡ unplaced (rows_answer answers.now table.old accepted.rows accepted.free (length out.old)) }
    ensures table_after { table.new ≡ rows_table answers.now table.old accepted.rows accepted.free (length out.old) }
    ensures out_after { out.new ≡ rows_output answers.now table.old accepted.rows accepted.free (length out.old) }
{
    let rows = accepted.rows;
    let mut kinds = Kinds {
        gotos: numbers::empty(),
        checkboxes: numbers::empty(),
        questions: numbers::empty(),
    };
    mark_rows(table, rows, &mut kinds);
    let good = good_answers(answers, &kinds.questions);
    if 2 * good != answers.len() {
        return refuse(table, out, Refusal::BadAnswer(good));
    }
    if out.len() < rows {
        return refuse(table, out, Refusal::TooFewBytes);
    }
    let given = Answers {
        saved: answers,
        gotos: &kinds.gotos,
        checkboxes: &kinds.checkboxes,
    };
    show_table(&mut out[..rows], table, given);
    rows::clear(out, rows);
    Ok(accepted)
}

// Reads a source into a table, and says of each row by the answers whether it is an item that is hidden or grey.
pub fn show(
    src: &[u8],
    answers: &[u64],
    table: &mut [u64],
    out: &mut [u8],
) -> Result<Accepted, Refusal>
    ensures result_value { told result ≡ show_reply src.now answers.now (length table.old) (length out.old) }
    ensures table_after { table.new ≡ show_table src.now answers.now (length table.old) (length out.old) }
    ensures out_after { out.new ≡ show_output src.now answers.now (length table.old) (length out.old) }
{
    match read::read(src, table) {
        Ok(accepted) => show_rows(answers, table, out, accepted),
        Err(refusal) => {
            rows::clear(out, 0);
            Err(refusal.into())
        }
    }
}
