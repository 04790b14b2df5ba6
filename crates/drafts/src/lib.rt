// Draft rows as a table holds them while a source is read: the marks of a row. What later stages may count on of such rows is in specs/.
#![tactic(auto, unfolding(answers::specs::Drafts::decoded))]

ghost use Rattle.std.specs.Prelude.{◌≡◌};
ghost use Rattle.rows.specs.Marks.{marked};
ghost use Rattle.drafts.specs.Faults.{draft_at};

use rows::cell;
use rows::columns::{FIRST, FLAGS, SECOND};
use rows::draft::mark;

// The place that a mark tells.
pub fn place_of(mark: u64) -> Option<usize>
    ensures { marked result ≡ mark }
{
    mark.checked_sub(1).map(|at| at as usize)
}

// Of a form's number, of the number that a question writes, or of what a reference names.
pub fn own_mark(table: &[u64], row: usize) -> Option<usize>
    ensures { marked result ≡ (draft_at table.now row).own_at }
{
    place_of(mark(cell(table, row, FIRST)))
}

// Of a goto's form number, of a numeric's maximum, or of an option's value.
pub fn limit_mark(table: &[u64], row: usize) -> Option<usize>
    ensures { marked result ≡ (draft_at table.now row).limit_at }
{
    place_of(mark(cell(table, row, SECOND)))
}

// Of a numeric's default, or of an option's word DEFAULT.
pub fn default_mark(table: &[u64], row: usize) -> Option<usize>
    ensures { marked result ≡ (draft_at table.now row).default_at }
{
    place_of(mark(cell(table, row, FLAGS)))
}
