// One walk over a source by the grammar, stages 3, 4, 16 and 5: it writes draft rows as far as whole rows fit, counts all,
// notes the first fault of 16 and of 5, and stops at the first token that the grammar or a depth refuses.
// Stays: src, table and parent are parameters; in a struct behind &mut self each contract would say `self.new.src ≡ self.old.src` too.
#![tactic(auto)]

mod expressions;
mod forms;
mod items;
mod starts;
mod steps;

ghost use Rattle.std.specs.Prelude.{◌≡◌, length};
ghost use Rattle.walk.specs.Standing.{standing};
ghost use Rattle.walk.specs.Walked.{WalksSource};
ghost use Rattle.walk.specs.Whole.{outcome, Walks, ended};

use crate::forms::{form_list, open_form_set};
use crate::steps::close;
use elements::noted::Noted;
use elements::phrase;
use lex::Token;
use lexemes::classes::END;
use refusals::Reason;

// Where a walk stands: the token, how many rows and how many rules there are so far, and the faults that are noted.
#[derive(Clone, Copy)]
pub struct State {
    pub token: Token,
    pub rows: usize,
    pub rules: usize,
    pub noted: Noted,
}

// Why a walk ends early, and at which token: it does not fit, or it opens a depth too many.
#[derive(Clone, Copy)]
pub struct Halt {
    pub reason: Reason,
    pub token: Token,
}

// What a walk over a whole source finds: how many rows and how many rules there are, and the faults that are noted.
#[derive(Clone, Copy)]
pub struct Totals {
    pub rows: usize,
    pub rules: usize,
    pub noted: Noted,
}

// Why and where a source is refused.
#[derive(Clone, Copy, Debug, PartialEq, Eq)]
pub struct Fault {
    pub reason: Reason,
    pub place: usize,
}

// What the end of a walk means: after the last token of a source no other may stand, and a source that ends early is
// refused at its length.
fn finish(src: &[u8], end: Result<State, Halt>) -> Result<Totals, Fault>
    ensures { outcome result ≡ ended (length src.now) (standing end) }
{
    match end {
        Ok(s) if s.token.class == END => Ok(Totals {
            rows: s.rows,
            rules: s.rules,
            noted: s.noted,
        }),
        Ok(s) => Err(Fault {
            reason: Reason::Syntax,
            place: s.token.start,
        }),
        Err(halt) if halt.token.class == END => Err(Fault {
            reason: Reason::Syntax,
            place: src.len(),
        }),
        Err(halt) => Err(Fault {
            reason: halt.reason,
            place: halt.token.start,
        }),
    }
}

// The form set, from its opening to its end.
fn form_set(src: &[u8], table: &mut [u64]) -> Result<State, Halt>
    ensures { WalksSource src.now (standing result) table.old table.new }
{
    let open = open_form_set(src, table)?;
    let all = form_list(src, table, open)?;
    close(src, all, phrase::FORM_SET_CLOSE)
}

// A whole source. Where it is refused, the table is all zeros.
pub fn walk(src: &[u8], table: &mut [u64]) -> Result<Totals, Fault>
    ensures { Walks src.now (outcome result) table.old table.new }
{
    let end = form_set(src, table);
    let found = finish(src, end);
    if found.is_err() {
        rows::clear(table, 0);
    }
    found
}
