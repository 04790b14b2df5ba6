// Reading the grammar's fixed phrases: each by its number (document 01, Grammar).
#![tactic(auto)]

mod kept;
mod reader;

ghost use Rattle.std.specs.Prelude.{◌≡◌};
ghost use Rattle.phrases.specs.Phrase.{kept_at, reader, went_at, phrase_read};

use crate::kept::Findings;
use crate::reader::read_phrase;
use elements::noted::Noted;
use elements::patterns::pattern;
use lex::Token;
use lexemes::classes::BAD;

// The refusal of a token that does not fit (document 01, No. 3).
// Stays: a number, as the refusals that `read` takes and `Cursor` holds: `read` hands on whatever number it is given.
pub const SYNTAX: u64 = 3;

// Where the reader of a phrase stands: the refusal or 0, the token, the faults that are noted, how many entries are kept.
#[derive(Clone, Copy)]
pub struct Cursor {
    pub no: u64,
    pub token: Token,
    pub noted: Noted,
    pub count: usize,
}

// Where a phrase ends, or is refused, with the faults that are noted then and how many entries are kept.
fn ended(end: Result<Token, Token>, noted: Noted, count: usize) -> Cursor
    ensures { (l : _) → reader result l ≡ went_at end noted (kept_at count l) }
{
    match end {
        Ok(token) => Cursor {
            no: 0,
            token,
            noted,
            count,
        },
        Err(token) => Cursor {
            no: SYNTAX,
            token,
            noted,
            count,
        },
    }
}

// Reads a phrase by its number, from a token of the source on, where `no` is 0; hands a refusal on, with no entries. Its
// entries are kept from the first one on. A number that no phrase has reads nothing, nor is anything read from a token
// that starts past the source.
pub fn read(src: &[u8], no: u64, token: Token, noted: Noted, phrase: u8, kept: &mut [u64]) -> Cursor
    ensures { reader result kept.new ≡ phrase_read src.now no token noted phrase kept.old }
{
    let starts_past = (token.class < BAD) & (src.len() <= token.start);
    if (no != 0) | starts_past {
        return Cursor {
            no,
            token,
            noted,
            count: 0,
        };
    }
    let mut found = Findings {
        lent: kept,
        count: 0,
        noted,
    };
    let end = read_phrase(src, token, pattern(phrase), &mut found);
    ended(end, found.noted, found.count)
}
