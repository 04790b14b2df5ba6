// The smallest steps of a walk.
ghost use Rattle.std.specs.Prelude.{◌≡◌, [], ◌∷◌, ◌+◌, ◌<◌, ◌≤◌, ◌^◌};
ghost use Rattle.lexemes.specs.Classes.{BAD};
ghost use Rattle.grammar.specs.Notation.{t};
ghost use Rattle.grammar.specs.Source.{number_at};
ghost use Rattle.answers.specs.Drafts.{encoded};
ghost use Rattle.rows.specs.Table.{with_row};
ghost use Rattle.fields.specs.Phrases.{kept, phrase_draft};
ghost use Rattle.phrases.specs.Stream.{Within};
ghost use Rattle.elements.specs.Symbols.{GROUP_CLOSE};
ghost use Rattle.walk.specs.Meanings.{Counted, Worded};
ghost use Rattle.walk.specs.Standing.{going, standing, refused_deep};
ghost use Rattle.walk.specs.Walked.{Room, Reads, Takes, Closes, WithRow, passed, ReadsRow};

use crate::{Halt, State};
use elements::KEPT;
use fields::{phrase_row, word_row};
use lex::Token;
use refusals::Reason;

// The walk is refused at its token, which opens a depth too many.
pub fn too_deep(s: State) -> Halt
    ensures { result ≡ refused_deep s }
{
    Halt {
        reason: Reason::TooDeep,
        token: s.token,
    }
}

// Goes past the token.
pub fn pass(src: &[u8], s: &mut State)
    ensures { going s.new ≡ passed src.now (going s.old) }
{
    s.token = lex::token_at(src, s.token.end);
}

// A phrase, whose entries are kept.
pub fn read_phrase(src: &[u8], s: State, phrase: u8, kept: &mut [u64]) -> Result<State, Halt>
    requires { Within src.now s.token }
    ensures { Takes src.now phrase (going s) (standing result) kept.old kept.new }
{
    let c = phrases::read(src, 0, s.token, s.noted, phrase, kept);
    if c.no != 0 {
        return Err(Halt {
            reason: Reason::Syntax,
            token: c.token,
        });
    }
    Ok(State {
        token: c.token,
        noted: c.noted,
        ..s
    })
}

// A phrase that makes no row.
pub fn close(src: &[u8], s: State, phrase: u8) -> Result<State, Halt>
    requires { Within src.now s.token }
    ensures { Closes src.now phrase (going s) (standing result) }
{
    let mut kept = [0; KEPT];
    read_phrase(src, s, phrase, &mut kept)
}

// Writes the row of a phrase that starts with the state's token, where a whole one fits; else it is not made.
pub fn put_phrase_row(src: &[u8], table: &mut [u64], s: State, parent: usize, entries: [u64; KEPT])
    ensures { table.new ≡ with_row table.old s.rows (encoded (phrase_draft (number_at src.now) s.token.class parent s.token.start (kept entries))) }
{
    if s.rows < rows::whole_rows(table) {
        rows::put_row(table, s.rows, phrase_row(src, s.token, parent, entries));
    }
}

// A phrase that makes a row.
pub fn flat(
    src: &[u8],
    table: &mut [u64],
    s: State,
    parent: usize,
    phrase: u8,
) -> Result<State, Halt>
    requires { Room src.now (going s) × (phrase ≤ GROUP_CLOSE) }
    ensures { ReadsRow src.now phrase parent (going s) (standing result) table.old table.new }
{
    let mut kept = [0; KEPT];
    let end = read_phrase(src, s, phrase, &mut kept)?;
    put_phrase_row(src, table, s, parent, kept);
    Ok(State {
        rows: s.rows + 1,
        ..end
    })
}

// Writes the row of a word, after what was read.
pub fn put_word_row(table: &mut [u64], s: &mut State, parent: usize, word: Token)
    requires { s.old.rows + 1 < 2 ^ 64 }
    ensures { WithRow parent word (going s.old) (going s.new) table.old table.new }
{
    rows::put_row(table, s.rows, word_row(word, parent));
    s.rows += 1;
}

// A word, and its row.
pub fn word(src: &[u8], table: &mut [u64], s: State, parent: usize) -> State
    requires { Room src.now (going s) × (s.token.class < BAD) }
    ensures { Reads src.now (t s.token.class ∷ []) (Counted (Worded src.now parent)) (going s) (going result) table.old table.new }
{
    let mut end = s;
    pass(src, &mut end);
    put_word_row(table, &mut end, parent, s.token);
    end
}
