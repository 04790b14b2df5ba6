// Forms, and the opening of the form set round them (document 01, Grammar).
ghost use Rattle.std.specs.Prelude.{[], ◌∷◌};
ghost use Rattle.ll1.specs.Trees.{depth};
ghost use Rattle.grammar.specs.Notation.{r};
ghost use Rattle.grammar.specs.Rules.{<form>, <form>*, <guid_end>};
ghost use Rattle.phrases.specs.Stream.{Within};
ghost use Rattle.elements.specs.Symbols.{title_and_help};
ghost use Rattle.walk.specs.Standing.{going, standing};
ghost use Rattle.walk.specs.Walked.{Room, TakesSymbols, OpensSet, WalkedUnder};

use crate::items::{CONDITIONS, items};
use crate::steps::{close, flat, read_phrase};
use crate::{Halt, State};
use elements::noted::nothing_noted;
use elements::{KEPT, phrase};
use fields::form_set_row;
use lexemes::classes::*;

fn form(src: &[u8], table: &mut [u64], s: State) -> Result<State, Halt>
    requires { Room src.now (going s) }
    ensures { WalkedUnder src.now (depth 0 0) (r <form> ∷ []) 0 (going s) (standing result) table.old table.new }
{
    let open = flat(src, table, s, 0, phrase::FORM_OPEN)?;
    let all = items(src, table, open, s.rows, CONDITIONS)?;
    close(src, all, phrase::FORM_CLOSE)
}

// One or more forms.
pub fn form_list(src: &[u8], table: &mut [u64], s: State) -> Result<State, Halt>
    requires { Room src.now (going s) }
    ensures { WalkedUnder src.now (depth 0 0) (r <form> ∷ r <form>* ∷ []) 0 (going s) (standing result) table.old table.new }
{
    let mut s = form(src, table, s)?;
    while s.token.class == KW_FORM {
        s = form(src, table, s)?;
    }
    Ok(s)
}

// The rest of a form set's opening, from the inner brace of its GUID on, if there is one.
fn guid_end(src: &[u8], s: State, kept: &mut [u64]) -> Result<State, Halt>
    requires { Within src.now s.token }
    ensures { TakesSymbols src.now (r <guid_end> ∷ title_and_help) (going s) (standing result) kept.old kept.new }
{
    if s.token.class == OPEN_BRACE {
        return read_phrase(src, s, phrase::FORM_SET_BRACED, kept);
    }
    read_phrase(src, s, phrase::FORM_SET_PLAIN, kept)
}

// The form set's opening, with its row.
pub fn open_form_set(src: &[u8], table: &mut [u64]) -> Result<State, Halt>
    ensures { OpensSet src.now (standing result) table.old table.new }
{
    let first = State {
        token: lex::token_at(src, 0),
        rows: 0,
        rules: 0,
        noted: nothing_noted(),
    };
    let mut high = [0; KEPT];
    let s = read_phrase(src, first, phrase::FORM_SET_OPEN, &mut high)?;
    let mut low = [0; KEPT];
    let s = guid_end(src, s, &mut low)?;
    rows::put_row(table, 0, form_set_row(src, first.token.start, high, low));
    Ok(State { rows: 1, ..s })
}
