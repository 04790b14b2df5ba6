// 11: gotos and references (document 01; a rule by its form: document 02, W-203).
ghost use Rattle.std.specs.Prelude.{◌≡◌};
ghost use Rattle.numbers.specs.Numbers.{used};
ghost use Rattle.rows.specs.Columns as column;
ghost use Rattle.answers.specs.Drafts.{drafts_from};
ghost use Rattle.answers.specs.Stages.{cell};
ghost use Rattle.rows.specs.Marks.{marked};
ghost use Rattle.drafts.specs.Faults.{draft_at, alone, first_fault};
ghost use Rattle.stages.specs.References.{finds_question, finds_rule, reference_fault};

use crate::forms::{form_round, parent};
use drafts::{limit_mark, own_mark};
use names::find;
use numbers::Map;
use rows::columns::{A, CODE};
use rows::{cell, codes};

// What rows refer to: the source and its rows, the index of their names, and the maps of the numbers of forms and of those
// that questions write.
#[derive(Clone, Copy)]
struct Found<'a> {
    src: &'a [u8],
    table: &'a [u64],
    count: usize,
    index: &'a [u64],
    forms: &'a Map,
    used: &'a Map,
}

impl Found<'_> {
    // The goto in a row finds a form.
    fn form(&self, row: usize) -> bool
        ensures { result ≡ used self.now.forms.now (cell column.A (draft_at self.now.table.now row)) }
    {
        numbers::has(self.forms, cell(self.table, row, A))
    }

    // The questionref in a row finds a question: by a written number, or by a name.
    fn question(&self, row: usize) -> bool
        ensures { result ≡ finds_question self.now.src.now self.now.index.now self.now.used.now (draft_at self.now.table.now row) }
    {
        let n = cell(self.table, row, A);
        if n == 0 {
            find(self.src, self.index, own_mark(self.table, row), false).is_some()
        } else {
            numbers::has(self.used, n)
        }
    }

    // The ruleref in a row finds a rule: by its name, in the form that it stands in.
    fn rule(&self, row: usize) -> bool
        ensures { let it = self.now in result ≡ finds_rule it.src.now it.index.now (drafts_from it.table.now 0 it.count) (draft_at it.table.now row) }
    {
        match find(self.src, self.index, own_mark(self.table, row), true) {
            Some(at) => parent(self.table, self.count, at)
                == form_round(self.table, self.count, row),
            None => false,
        }
    }

    // The place of what a row names in vain.
    fn missing(&self, row: usize) -> Option<usize>
        ensures { let it = self.now in marked result ≡ reference_fault it.src.now it.index.now it.forms.now it.used.now (drafts_from it.table.now 0 it.count) (draft_at it.table.now row) }
    {
        match cell(self.table, row, CODE) {
            codes::GOTO if !self.form(row) => limit_mark(self.table, row),
            codes::QUESTION_REF if !self.question(row) => own_mark(self.table, row),
            codes::RULE_REF if !self.rule(row) => own_mark(self.table, row),
            _ => None,
        }
    }
}

// 11: a goto, questionref or ruleref that finds nothing.
// Stays: six parameters; the one caller owns them one by one (`unfound(&Found { src, table, .. })` names as many).
pub fn unfound(
    src: &[u8],
    table: &[u64],
    count: usize,
    index: &[u64],
    forms: &Map,
    used: &Map,
) -> Option<usize>
    ensures { marked result ≡ first_fault (alone (reference_fault src.now index.now forms.now used.now (drafts_from table.now 0 count))) (drafts_from table.now 0 count) }
{
    let found = Found {
        src,
        table,
        count,
        index,
        forms,
        used,
    };
    (0..count).find_map(|row| found.missing(row))
}
