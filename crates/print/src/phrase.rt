// The printer of a phrase from a row: the phrases are those that are read (crate phrases).
ghost use Rattle.std.specs.Prelude.{◌≡◌, ◌<◌, length, get_or};
ghost use Rattle.rows.specs.Table.{row_at};
ghost use Rattle.elements.specs.Kinds.{MAYBE};
ghost use Rattle.spellings.specs.Printed.{Printed};
ghost use Rattle.print.specs.Phrase.{one_more, element_of, phrase_words};
ghost use Rattle.print.specs.Steps.{Stepped, Entered};

use crate::shown::{put_element, put_numeric_flags, shows};
use crate::sources::value_from;
use elements::kinds::{GROUP, MAYBE, NUMERIC_FLAGS};
use lexemes::classes::NAME;
use rows::cell;
use rows::columns::{CODE, FLAGS, SIZE};
use spellings::output::Output;

// Where the printer of a phrase stands: the next element, how many of those that have values it has passed.
#[derive(Clone, Copy, Debug, PartialEq, Eq)]
pub struct Progress {
    pub next: usize,
    pub passed: usize,
}

// No phrase has as many values.
const LAST: usize = 256;

// One more.
fn after_one(n: usize) -> usize
    ensures { result ≡ one_more n }
{
    if n < LAST { n + 1 } else { n }
}

// A phrase of a row: its elements, and where their values come from.
#[derive(Clone, Copy)]
struct Phrase<'a> {
    pattern: &'a [u8],
    sources: &'a [u8],
    table: &'a [u64],
    row: usize,
}

impl Phrase<'_> {
    // The four elements after MAYBE are printed, or left out with their value.
    fn enter_group(&self, p: Progress) -> Progress
        requires { (p.next < length self.now.pattern.now) × (get_or self.now.pattern.now p.next 0 ≡ MAYBE) }
        ensures { Entered (row_at self.now.table.now self.now.row) self.now.pattern.now p result }
    {
        let next = p.next + 1;
        let first = self.pattern.get(next).copied().unwrap_or(0);
        if shows(
            first,
            cell(self.table, self.row, CODE),
            cell(self.table, self.row, FLAGS),
        ) {
            return Progress { next, ..p };
        }
        Progress {
            next: next + GROUP,
            passed: after_one(p.passed),
        }
    }

    // An element that is no sign and no reserved word, of the value from a source; a numeric's FL is of two columns.
    fn put_from_row(&self, out: &mut Output<'_>, want: u8, source: u8)
        ensures { Printed out.old (element_of (row_at self.now.table.now self.now.row) want source) out.new }
    {
        if want == NUMERIC_FLAGS {
            return put_numeric_flags(
                out,
                cell(self.table, self.row, FLAGS),
                cell(self.table, self.row, SIZE),
            );
        }
        put_element(out, want, value_from(self.table, self.row, source))
    }

    // The next element of a phrase.
    fn step(&self, out: &mut Output<'_>, p: Progress) -> Progress
        requires { p.next < length self.now.pattern.now }
        ensures { Stepped self.now.sources.now (row_at self.now.table.now self.now.row) self.now.pattern.now out.old p out.new result }
    {
        let want = self.pattern[p.next];
        if want < NAME {
            out.word(want);
            return Progress {
                next: p.next + 1,
                ..p
            };
        }
        if want == MAYBE {
            return self.enter_group(p);
        }
        let source = self.sources.get(p.passed).copied().unwrap_or(0);
        self.put_from_row(out, want, source);
        Progress {
            next: p.next + 1,
            passed: after_one(p.passed),
        }
    }
}

// Prints a phrase from a row; `sources` are those of its elements' values.
pub fn put_phrase(out: &mut Output<'_>, pattern: &[u8], sources: &[u8], table: &[u64], row: usize)
    ensures { Printed out.old (phrase_words pattern.now sources.now (row_at table.now row)) out.new }
{
    let phrase = Phrase {
        pattern,
        sources,
        table,
        row,
    };
    let mut p = Progress { next: 0, passed: 0 };
    while p.next < pattern.len() {
        p = phrase.step(out, p);
    }
}
