// The phrases of statements by the code of their row: how each opens and how it ends (document 01, Resolved text).
#![tactic(auto)]

ghost use Rattle.std.specs.Prelude.{◌≡◌, true, [], get_or};
ghost use Rattle.rows.specs.Columns.{CODE};
ghost use Rattle.rows.specs.Codes.{is_question};
ghost use Rattle.rows.specs.Table.{row_at};
ghost use Rattle.answers.specs.Text.{form_set, opening};
ghost use Rattle.spellings.specs.Printed.{Printed};
ghost use Rattle.print.specs.Phrase.{phrase_words};
ghost use Rattle.statements.specs.Statements.{condition_words, closing, expression_end, operand_words};

use elements::kinds::LARGE;
use elements::patterns;
use lexemes::classes::*;
use print::phrase::put_phrase;
use print::shown::put_element;
use print::sources;
use rows::columns::{A, CODE};
use rows::{cell, codes};
use spellings::output::Output;

fn put_form_set(out: &mut Output<'_>, table: &[u64], row: usize)
    ensures { Printed out.old (form_set (row_at table.now row)) out.new }
{
    put_phrase(
        out,
        &patterns::FORM_SET_OPEN,
        &sources::FORM_SET_OPEN,
        table,
        row,
    );
    put_phrase(
        out,
        &patterns::FORM_SET_BRACED,
        &sources::FORM_SET_BRACED,
        table,
        row,
    )
}

// A question.
fn put_question(out: &mut Output<'_>, table: &[u64], row: usize, code: u64)
    requires { (code ≡ get_or (row_at table.now row) CODE 0) × (is_question code ≡ true) }
    ensures { Printed out.old (opening (row_at table.now row)) out.new }
{
    match code {
        codes::GOTO => put_phrase(out, &patterns::GOTO, &sources::GOTO, table, row),
        codes::CHECKBOX => put_phrase(out, &patterns::CHECKBOX, &sources::CHECKBOX, table, row),
        codes::NUMERIC => put_phrase(out, &patterns::NUMERIC, &sources::NUMERIC, table, row),
        _ => put_phrase(out, &patterns::ONE_OF_OPEN, &sources::ONE_OF, table, row),
    }
}

// A condition's word; of any other row nothing.
fn put_condition(out: &mut Output<'_>, code: u64)
    ensures { Printed out.old (condition_words code) out.new }
{
    match code {
        codes::SUPPRESS_IF => out.word(KW_SUPPRESSIF),
        codes::GRAY_OUT_IF => out.word(KW_GRAYOUTIF),
        codes::DISABLE_IF => out.word(KW_DISABLEIF),
        _ => {}
    }
}

// The statement that a row stands for, up to what stands in it.
pub fn put_opening(out: &mut Output<'_>, table: &[u64], row: usize)
    ensures { Printed out.old (opening (row_at table.now row)) out.new }
{
    let code = cell(table, row, CODE);
    if rows::codes::is_question(code) {
        return put_question(out, table, row, code);
    }
    match code {
        codes::FORM_SET => put_form_set(out, table, row),
        codes::FORM => put_phrase(out, &patterns::FORM_OPEN, &sources::FORM, table, row),
        codes::RULE => put_phrase(out, &patterns::RULE_OPEN, &sources::RULE, table, row),
        codes::SUBTITLE => put_phrase(out, &patterns::SUBTITLE, &sources::SUBTITLE, table, row),
        codes::TEXT => put_phrase(out, &patterns::TEXT, &sources::TEXT, table, row),
        codes::LABEL => put_phrase(out, &patterns::LABEL, &sources::LABEL, table, row),
        codes::OPTION => put_phrase(out, &patterns::OPTION, &sources::OPTION, table, row),
        _ => put_condition(out, code),
    }
}

fn put_plain(out: &mut Output<'_>, pattern: &[u8])
    ensures { Printed out.old (phrase_words pattern.now [] (row_at [] 0)) out.new }
{
    put_phrase(out, pattern, &sources::NOTHING, &[], 0)
}

// The end of a row's expression: `endrule ;` of a rule, `;` of a condition.
pub fn put_expression_end(out: &mut Output<'_>, code: u64)
    ensures { Printed out.old (expression_end code) out.new }
{
    if code == codes::RULE {
        return put_plain(out, &patterns::RULE_CLOSE);
    }
    put_plain(out, &patterns::EXPRESSION_CLOSE)
}

// The end of a statement that others stand in; of any other nothing.
pub fn put_closing(out: &mut Output<'_>, code: u64)
    ensures { Printed out.old (closing code) out.new }
{
    match code {
        codes::FORM_SET => put_plain(out, &patterns::FORM_SET_CLOSE),
        codes::FORM => put_plain(out, &patterns::FORM_CLOSE),
        codes::ONE_OF => put_plain(out, &patterns::ONE_OF_CLOSE),
        codes::SUPPRESS_IF | codes::GRAY_OUT_IF | codes::DISABLE_IF => {
            put_plain(out, &patterns::CONDITION_CLOSE)
        }
        _ => {}
    }
}

// A number, or a reference by the number found.
pub fn put_operand(out: &mut Output<'_>, table: &[u64], row: usize)
    ensures { Printed out.old (operand_words (row_at table.now row)) out.new }
{
    match cell(table, row, CODE) {
        codes::QUESTION_REF => put_phrase(
            out,
            &patterns::QUESTION_REF,
            &sources::OPERAND,
            table,
            row,
        ),
        codes::RULE_REF => put_phrase(out, &patterns::RULE_REF, &sources::OPERAND, table, row),
        _ => put_element(out, LARGE, cell(table, row, A)),
    }
}
