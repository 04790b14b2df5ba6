// The form that a row stands in (document 02, W-203).
ghost use Rattle.std.specs.Prelude.{◌≡◌};
ghost use Rattle.answers.specs.Drafts.{drafts_from};
ghost use Rattle.answers.specs.Stages.{cell, is, row_among, form_round};
ghost use Rattle.rows.specs.Codes as code;
ghost use Rattle.rows.specs.Columns as column;
ghost use Rattle.drafts.specs.Faults.{draft_at};

use rows::columns::{CODE, PARENT};
use rows::{cell, codes};

// How many conditions are open at once at most.
const CONDITIONS: usize = 16;

// The row is a form, one of the first `count`.
fn is_form(table: &[u64], count: usize, row: usize) -> bool
    ensures { result ≡ is code.FORM (row_among (drafts_from table.now 0 count) row) }
{
    row < count && cell(table, row, CODE) == codes::FORM
}

// The parent of a row of the first `count`; past them the form set, row 0, as where no cell is.
pub fn parent(table: &[u64], count: usize, row: usize) -> usize
    ensures { result ≡ cell column.PARENT (row_among (drafts_from table.now 0 count) row) }
{
    if row < count {
        cell(table, row, PARENT) as usize
    } else {
        0
    }
}

// The form round what a rule or condition holds: from its parent up, past as many conditions as may be open.
pub fn form_round(table: &[u64], count: usize, row: usize) -> usize
    ensures { result ≡ form_round (drafts_from table.now 0 count) (draft_at table.now row) }
{
    let mut at = cell(table, row, PARENT) as usize;
    for _ in 0..CONDITIONS {
        if is_form(table, count, at) {
            return at;
        }
        at = parent(table, count, at);
    }
    at
}
