// The viewer's token reader (document 01, The shape of some places): a struct that keeps the lent source, a place in it and that place's line
// and column (W-201), and thin functions over it. The work is done by `view`, on a slice and numbers: it reads only from the kept place on.
#![tactic(auto)]

ghost use Rattle.std.specs.Prelude.{◌≡◌};
ghost use Rattle.viewer.specs.Viewed.{seen_from, nth_token, positioned, seen_by, moved_to, moved_on};

use lex::Token;
use lexemes::classes::BAD;
use positions::Position;

#[derive(Clone, Copy)]
pub struct Reader<'a> {
    pub src: &'a [u8],
    pub at: usize,
    pub line: usize,
    pub column: usize,
}

// A token with the line and column of its start.
#[derive(Clone, Copy, Debug, PartialEq, Eq)]
pub struct Positioned {
    pub token: Token,
    pub line: usize,
    pub column: usize,
}

// A token, and the place past it with its line and column.
#[derive(Clone, Copy, Debug, PartialEq, Eq)]
pub struct Seen {
    pub token: Positioned,
    pub at: usize,
    pub line: usize,
    pub column: usize,
}

// What a reader at the place `at` gives, where `at` has that line and column: the token that stands first from there on, and the place at
// which to go on, past that token. At a bad token and at the end that is `at`.
pub fn view(src: &[u8], at: usize, line: usize, column: usize) -> Seen
    ensures { result ≡ seen_from src.now at line column }
{
    let t = lex::token_at(src, at);
    let p = positions::onward(src, at, t.start, Position { line, column });
    let token = Positioned {
        token: t,
        line: p.line,
        column: p.column,
    };
    if t.class < BAD {
        let q = positions::onward(src, t.start, t.end, p);
        return Seen {
            token,
            at: t.end,
            line: q.line,
            column: q.column,
        };
    }
    Seen {
        token,
        at,
        line,
        column,
    }
}

// A reader at the start of a source.
pub fn new<'a>(src: &'a [u8]) -> Reader<'a>
    ensures { result ≡ record { src = src.entry; at = 0; line = 1; column = 1 } }
{
    Reader {
        src,
        at: 0,
        line: 1,
        column: 1,
    }
}

// The reader at the place past what was seen.
fn moved<'a>(r: Reader<'a>, s: Seen) -> Reader<'a>
    ensures { result ≡ moved_to r.entry s }
{
    Reader {
        at: s.at,
        line: s.line,
        column: s.column,
        ..r
    }
}

// The token that the reader stands before.
pub fn token<'a>(r: Reader<'a>) -> Positioned
    ensures { result ≡ (seen_by r.entry).token }
{
    view(r.src, r.at, r.line, r.column).token
}

// The reader past that token; at a bad token and at the end its place stays.
pub fn advanced<'a>(r: Reader<'a>) -> Reader<'a>
    ensures { result ≡ moved_on r.entry }
{
    moved(r, view(r.src, r.at, r.line, r.column))
}

// The token that the reader stands before; the reader is then past it, and at a bad token and at the end where it was.
pub fn next<'s, 'a>(r: &'s mut Reader<'a>) -> Positioned
    ensures { (result ≡ (seen_by r.old).token) × (r.new ≡ moved_on r.old) }
{
    let s = view(r.src, r.at, r.line, r.column);
    *r = moved(*r, s);
    s.token
}

// The n-th token of a source, counted from 0, with its own line and column; a bad token and the end repeat.
pub fn nth_token(src: &[u8], n: usize) -> Positioned
    ensures { result ≡ positioned src.now (nth_token src.now n) }
{
    let mut at = 0;
    let mut line = 1;
    let mut column = 1;
    for _i in 0..n {
        let s = view(src, at, line, column);
        at = s.at;
        line = s.line;
        column = s.column;
    }
    view(src, at, line, column).token
}
