// From draft rows to finished rows (document 01, Rows).
#![tactic(auto)]

ghost use Rattle.std.specs.Prelude.{◌≡◌, ◌||◌, eqb, map};
ghost use Rattle.rows.specs.Codes as codes;
ghost use Rattle.numbers.specs.Numbers.{given_map};
ghost use Rattle.rows.specs.Table.{row_at, with_row};
ghost use Rattle.rows.specs.Rows.{rows_from, put};
ghost use Rattle.finish.specs.Finish.{owns_in, halved, stripped, number_found, table_numbered, table_resolved, table_settled};

use drafts::own_mark;
use names::find;
use numbers::Map;
use rows::codes::is_question;
use rows::columns::{A, CODE, FIRST, FLAGS, OWN, SECOND};
use rows::draft::low;
use rows::{cell, codes, set_cell};

// Gives the questions that write no number, in order, the smallest numbers that are not used, and uses these.
fn number_rows(table: &mut [u64], count: usize, used: &mut Map)
    ensures table_after { table.new ≡ table_numbered used.old table.old count }
    ensures used_after { used.new ≡ given_map used.old 1 (owns_in (rows_from table.old 0 count)) }
{
    let mut at = 1;
    for row in 0..count {
        if is_question(cell(table, row, CODE)) && cell(table, row, OWN) == 0 {
            let Some(n) = numbers::next_free(used, at) else {
                return;
            };
            set_cell(table, row, OWN, n);
            numbers::mark(used, n);
            at = n + 1;
        }
    }
}

// Whether a row of this code is a reference.
fn is_reference(code: u64) -> bool
    ensures { result ≡ (eqb code codes.QUESTION_REF || eqb code codes.RULE_REF) }
{
    matches!(code, codes::QUESTION_REF | codes::RULE_REF)
}

// The number that the reference in a row finds: a written one, or that of the question or rule of the name; 0 for none.
fn number_found(src: &[u8], table: &[u64], row: usize, index: &[u64]) -> u64
    ensures { result ≡ number_found src.now index.now table.now (row_at table.now row) }
{
    let n = cell(table, row, A);
    if n != 0 {
        return n;
    }
    let rule = cell(table, row, CODE) == codes::RULE_REF;
    match find(src, index, own_mark(table, row), rule) {
        Some(at) => cell(table, at, OWN),
        None => 0,
    }
}

// Writes the number that each reference finds.
fn resolve_references(src: &[u8], table: &mut [u64], count: usize, index: &[u64])
    ensures { table.new ≡ table_resolved src.now index.now table.old count }
{
    for row in 0..count {
        if is_reference(cell(table, row, CODE)) {
            let n = number_found(src, table, row, index);
            set_cell(table, row, A, n);
        }
    }
}

// Stays: five parameters; two are changed and three only read (`settle(Lent { src, table, .. })` names as many).
// Settles the draft rows: questions get their numbers, and then references those that they find. The marks stay.
pub fn settle(src: &[u8], table: &mut [u64], count: usize, index: &[u64], used: &mut Map)
    ensures table_after { table.new ≡ table_settled src.now index.now used.old table.old count }
    ensures used_after { used.new ≡ given_map used.old 1 (owns_in (rows_from table.old 0 count)) }
{
    number_rows(table, count, used);
    resolve_references(src, table, count, index);
}

// Keeps the lower half of a cell.
fn strip_cell(table: &mut [u64], row: usize, column: usize)
    ensures { table.new ≡ with_row table.old row (halved column (row_at table.old row)) }
{
    let kept = low(cell(table, row, column));
    set_cell(table, row, column, kept);
}

// Takes the marks out of a draft row.
fn strip_row(table: &mut [u64], row: usize)
    ensures { table.new ≡ with_row table.old row (stripped (row_at table.old row)) }
{
    strip_cell(table, row, FIRST);
    strip_cell(table, row, SECOND);
    strip_cell(table, row, FLAGS);
}

// Takes the marks out of the draft rows.
pub fn strip(table: &mut [u64], count: usize)
    ensures { table.new ≡ put table.old 0 (map stripped (rows_from table.old 0 count)) }
{
    for row in 0..count {
        strip_row(table, row);
    }
}
