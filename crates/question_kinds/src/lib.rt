// The numbers of questions in the rows of a table, by kind (document 02, W-202): those of gotos, of checkboxes, and of
// all questions.
#![tactic(auto)]

ghost use Rattle.std.specs.Prelude.{◌≡◌, cond};
ghost use Rattle.numbers.specs.Numbers.{with_used, with_all_used};
ghost use Rattle.rows.specs.Codes.{is_question};
ghost use Rattle.question_kinds.specs.Kinds.{is_goto, is_checkbox, own_at, table_owns};

use numbers::{Map, mark};
use rows::columns::{CODE, OWN};
use rows::{cell, codes};

// Marks n as used, if it is wanted.
fn mark_if(map: &mut Map, n: u64, wanted: bool)
    ensures { map.new ≡ cond wanted (with_used map.old n) map.old }
{
    if wanted {
        mark(map, n);
    }
}

// The numbers of questions: those of gotos, of checkboxes, and of all.
#[derive(Clone, Copy)]
pub struct Kinds {
    pub gotos: Map,
    pub checkboxes: Map,
    pub questions: Map,
}

// Marks the number of the question in a row, in the maps of its kind.
fn mark_row(table: &[u64], row: usize, kinds: &mut Kinds)
    ensures gotos_after { kinds.new.gotos ≡ with_all_used kinds.old.gotos (own_at is_goto table.now row) }
    ensures checkboxes_after { kinds.new.checkboxes ≡ with_all_used kinds.old.checkboxes (own_at is_checkbox table.now row) }
    ensures questions_after { kinds.new.questions ≡ with_all_used kinds.old.questions (own_at is_question table.now row) }
{
    let code = cell(table, row, CODE);
    let own = cell(table, row, OWN);
    mark_if(&mut kinds.gotos, own, code == codes::GOTO);
    mark_if(&mut kinds.checkboxes, own, code == codes::CHECKBOX);
    mark_if(&mut kinds.questions, own, codes::is_question(code));
}

// Marks the numbers of the questions in the first `count` rows.
pub fn mark_rows(table: &[u64], count: usize, kinds: &mut Kinds)
    ensures gotos_after { kinds.new.gotos ≡ with_all_used kinds.old.gotos (table_owns is_goto table.now count) }
    ensures checkboxes_after { kinds.new.checkboxes ≡ with_all_used kinds.old.checkboxes (table_owns is_checkbox table.now count) }
    ensures questions_after { kinds.new.questions ≡ with_all_used kinds.old.questions (table_owns is_question table.now count) }
{
    for row in 0..count {
        mark_row(table, row, kinds);
    }
}
