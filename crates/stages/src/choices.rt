// 12: limits, defaults and options.
ghost use Rattle.std.specs.Prelude.{◌≡◌, ◌&&◌, [], ◌+◌, ◌-◌, ◌<◌, ◌≤◌, length};
ghost use Rattle.answers.specs.Stages.{any, below};
ghost use Rattle.answers.specs.Drafts.{drafts_from};
ghost use Rattle.rows.specs.Columns as column;
ghost use Rattle.rows.specs.Marks.{marked};
ghost use Rattle.rows.specs.Table.{whole_rows, cell_at};
ghost use Rattle.drafts.specs.Faults.{draft_at, first_fault};
ghost use Rattle.stages.specs.Choices.{limits_fault, leading, is_default, option_fault, choice_fault};

use drafts::{default_mark, limit_mark};
use rows::columns::{A, B, CODE, D, ROW, SIZE};
use rows::displays::INT_DEC;
use rows::{cell, codes, whole_rows};

// x is below y, as two numbers of the numeric in this row: in the order of its size and display.
fn below(table: &[u64], row: usize, x: u64, y: u64) -> bool
    ensures { result ≡ below (draft_at table.now row) x y }
{
    let size_and_display = cell(table, row, SIZE);
    sizes::below(size_and_display / 4, size_and_display % 4 == INT_DEC, x, y)
}

// A numeric's maximum below its minimum, or its default outside them.
fn bad_limits(table: &[u64], row: usize) -> Option<usize>
    ensures { marked result ≡ limits_fault (draft_at table.now row) }
{
    let least = cell(table, row, A);
    let most = cell(table, row, B);
    let d = cell(table, row, D);
    if below(table, row, most, least) {
        limit_mark(table, row)
    } else if below(table, row, d, least) || below(table, row, most, d) {
        default_mark(table, row)
    } else {
        None
    }
}

// The row past the options that start at a row.
fn options_end(table: &[u64], first: usize, count: usize) -> usize
    requires { first ≤ count }
    ensures { result ≡ first + length (leading (drafts_from table.now first (count - first))) }
{
    for row in first..count {
        if cell(table, row, CODE) != codes::OPTION {
            return row;
        }
    }
    count
}

// An option has the word DEFAULT.
fn has_default(table: &[u64], row: usize) -> bool
    ensures { result ≡ is_default (draft_at table.now row) }
{
    default_mark(table, row).is_some()
}

// An option with DEFAULT, after another one of the same oneof.
fn repeats_default(table: &[u64], first: usize, row: usize) -> bool
    ensures { result ≡ (is_default (draft_at table.now row) && any is_default (drafts_from table.now first (row - first))) }
{
    has_default(table, row) && (first..row).any(|earlier| has_default(table, earlier))
}

// The value of the option in a whole row.
fn option_value(table: &[u64], row: usize) -> u64
    requires { row < whole_rows table.now }
    ensures { result ≡ cell_at table.now row column.A }
{
    table[row * ROW + A]
}

// The first fault of the options in rows `first` to `end`: a value or a DEFAULT that an earlier one has.
fn bad_option(table: &[u64], first: usize, end: usize) -> Option<usize>
    ensures { marked result ≡ option_fault [] (drafts_from table.now first (end - first)) }
{
    // Stays: nested loops left by a label; what the project names for the search for a repeated value (a rule of the project).
    let mut fault = None;
    // Rows past the whole ones are at no fault, so a value is read without asking whether its row is whole.
    let stop = end.min(whole_rows(table));
    'search: for row in first..stop {
        let value = option_value(table, row);
        for earlier in first..row {
            if option_value(table, earlier) == value {
                fault = limit_mark(table, row);
                break 'search;
            }
        }
        if repeats_default(table, first, row) {
            fault = default_mark(table, row);
            break 'search;
        }
    }
    fault
}

// The fault of a numeric, or of a oneof's options.
fn fault_in(table: &[u64], row: usize, count: usize) -> Option<usize>
    requires { row < count }
    ensures { marked result ≡ choice_fault (draft_at table.now row) (drafts_from table.now (row + 1) (count - (row + 1))) }
{
    match cell(table, row, CODE) {
        codes::NUMERIC => bad_limits(table, row),
        codes::ONE_OF => bad_option(table, row + 1, options_end(table, row + 1, count)),
        _ => None,
    }
}

// The first fault of a numeric or a oneof.
pub fn bad_choice(table: &[u64], count: usize) -> Option<usize>
    ensures { marked result ≡ first_fault choice_fault (drafts_from table.now 0 count) }
{
    (0..count).find_map(|row| fault_in(table, row, count))
}
