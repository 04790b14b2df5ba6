// Expressions from their rows, with the fewest parentheses. The rows stand operands before operator, so that from the
// last one back they are the operator, its right operand and then its left one: an expression is printed from its end.
ghost use Rattle.std.specs.Prelude.{◌≡◌, ◌≤◌};
ghost use Rattle.rows.specs.Columns.{CODE};
ghost use Rattle.rows.specs.Table.{row_at, cell_at};
ghost use Rattle.fields.specs.Operators.{LEVELS, code_class};
ghost use Rattle.spellings.specs.Printed.{Printed, PrintedBefore};
ghost use Rattle.text.specs.Operators.{atom_words};
ghost use Rattle.text.specs.Before.{ExpressionBefore, ExpressionCounted, ExpressionPrinted};

use fields::operators::{LEVELS, class_of, level_of};
use lexemes::classes::*;
use rows::columns::CODE;
use rows::{cell, codes};
use spellings::output::Output;
use statements::put_operand;

// An operand that is no operator's: a constant's word, a number or a reference, by the class of its row's code.
fn put_atom(out: &mut Output<'_>, table: &[u64], row: usize, class: u8)
    requires { class ≡ code_class (cell_at table.now row CODE) }
    ensures { Printed out.old (atom_words (row_at table.now row)) out.new }
{
    if class < NAME {
        return out.word(class);
    }
    put_operand(out, table, row)
}

// The same before what is written.
fn put_atom_before(out: &mut Output<'_>, table: &[u64], row: usize, class: u8)
    requires { class ≡ code_class (cell_at table.now row CODE) }
    ensures { PrintedBefore out.old (atom_words (row_at table.now row)) out.new }
{
    let mut counted = Output {
        bytes: &mut [],
        at: 0,
    };
    put_atom(&mut counted, table, row, class);
    let start = out.at.saturating_sub(counted.at);
    out.at = start;
    put_atom(out, table, row, class);
    out.at = start;
}

// The expression whose row is the last one before the row `end`, where parentheses stand round an operator of a level
// looser than `least`; its first row. Left operands are printed in the loop.
fn put_before(out: &mut Output<'_>, table: &[u64], end: usize, least: u8) -> usize
    requires { least ≤ LEVELS }
    ensures { ExpressionBefore table.now end least out.old out.new result }
{
    let mut end = end;
    let mut least = least;
    loop {
        if end == 0 {
            return end;
        }
        let row = end - 1;
        let code = cell(table, row, CODE);
        let class = class_of(code);
        let level = level_of(class);
        if code == codes::NOT {
            let first = put_before(out, table, row, LEVELS);
            out.word_before(NOT);
            return first;
        }
        if LEVELS <= level {
            put_atom_before(out, table, row, class);
            return row;
        }
        if level < least {
            out.word_before(CLOSE_PAREN);
            let first = put_before(out, table, end, 0);
            out.word_before(OPEN_PAREN);
            return first;
        }
        end = put_before(out, table, row, level + 1);
        out.word_before(class);
        least = level;
    }
}

// How many bytes the expression before a row takes.
fn expression_length(table: &[u64], end: usize) -> usize
    ensures { ExpressionCounted table.now end result }
{
    let mut counted = Output {
        bytes: &mut [],
        at: usize::MAX,
    };
    put_before(&mut counted, table, end, 0);
    usize::MAX.saturating_sub(counted.at)
}

// The expression whose last row stands before the row `end`.
pub fn put_expression(out: &mut Output<'_>, table: &[u64], end: usize)
    ensures { ExpressionPrinted table.now end out.old out.new }
{
    let last = out.at.saturating_add(expression_length(table, end));
    out.at = last;
    put_before(out, table, end, 0);
    out.at = last;
}
