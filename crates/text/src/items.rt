// Statements from their rows: each with its expression, the statements in it and its end.
ghost use Rattle.std.specs.Prelude.{◌<◌};
ghost use Rattle.text.specs.Printing.{Opened, ItemsPrinted, TextPrinted};

use crate::expressions::put_expression;
use laid::expression_end;
use rows::columns::{CODE, PARENT};
use rows::{cell, codes};
use spellings::output::Output;
use statements::{put_closing, put_expression_end, put_opening};

// A statement up to those in it; the row of the first of these.
fn put_statement(out: &mut Output<'_>, table: &[u64], count: usize, row: usize) -> usize
    requires { row < count }
    ensures { Opened table.now count row out.old out.new result }
{
    put_opening(out, table, row);
    let end = expression_end(table, row + 1, count);
    if end == row + 1 {
        return end;
    }
    put_expression(out, table, end);
    put_expression_end(out, cell(table, row, CODE));
    end
}

// The statements from a row on that stand in the row `parent`; the row after them.
fn put_within(
    out: &mut Output<'_>,
    table: &[u64],
    count: usize,
    first: usize,
    parent: usize,
) -> usize
    ensures { ItemsPrinted table.now count parent first out.old out.new result }
{
    let mut row = first;
    while row < count {
        if cell(table, row, PARENT) != parent as u64 {
            return row;
        }
        let within = put_statement(out, table, count, row);
        let next = put_within(out, table, count, within, row);
        put_closing(out, cell(table, row, CODE));
        row = next;
    }
    row
}

// The text of a table's first rows.
pub fn put_text(out: &mut Output<'_>, table: &[u64], count: usize)
    ensures { TextPrinted table.now count out.old out.new }
{
    put_opening(out, table, 0);
    put_within(out, table, count, 1, 0);
    put_closing(out, codes::FORM_SET)
}
