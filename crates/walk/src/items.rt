// Items, the conditions round them, and rules (document 01, Grammar).
ghost use Rattle.std.specs.Prelude.{◌≡◌, true, [], ◌∷◌, ◌≤◌};
ghost use Rattle.lexemes.specs.Classes.{«numeric», «oneof», «rule»};
ghost use Rattle.ll1.specs.Trees.{depth};
ghost use Rattle.grammar.specs.Notation.{r};
ghost use Rattle.grammar.specs.Rules.{<item>, <rule>, <option>, <option>*};
ghost use Rattle.grammar.specs.Derivation.{max_conditions};
ghost use Rattle.elements.specs.Symbols.{symbols_of, RULE_OPEN};
ghost use Rattle.walk.specs.Meanings.{Counted, RuleRow};
ghost use Rattle.walk.specs.Standing.{going, standing};
ghost use Rattle.walk.specs.Starts.{is_condition, starts_item};
ghost use Rattle.walk.specs.Walked.{Room, Reads, OpensCondition, WalkedUnder, ReadsUnder, ReadsItems};

use crate::expressions::expression;
use crate::starts::{is_condition, starts_item};
use crate::steps::{close, flat, put_phrase_row, read_phrase, too_deep, word};
use crate::{Halt, State};
use elements::noted::with_outside;
use elements::{KEPT, phrase};
use fields::{first_oversized, rule_row};
use lexemes::classes::*;

// How many conditions may be open at once (document 01, Depths).
pub const CONDITIONS: usize = 16;

// One or more options of the oneof in row `parent`.
// Stays: its like is forms::form_list; one function with a closure `one_or_more(word, s, |s| flat(..))` would need a contract of the closure.
fn option_list(src: &[u8], table: &mut [u64], s: State, parent: usize) -> Result<State, Halt>
    requires { Room src.now (going s) }
    ensures { ReadsUnder src.now (r <option> ∷ r <option>* ∷ []) parent (going s) (standing result) table.old table.new }
{
    let mut s = flat(src, table, s, parent, phrase::OPTION)?;
    while s.token.class == KW_OPTION {
        s = flat(src, table, s, parent, phrase::OPTION)?;
    }
    Ok(s)
}

fn one_of(src: &[u8], table: &mut [u64], s: State, parent: usize) -> Result<State, Halt>
    requires { Room src.now (going s) × (s.token.class ≡ «oneof») }
    ensures { ReadsUnder src.now (r <item> ∷ []) parent (going s) (standing result) table.old table.new }
{
    let open = flat(src, table, s, parent, phrase::ONE_OF_OPEN)?;
    let all = option_list(src, table, open, s.rows)?;
    close(src, all, phrase::ONE_OF_CLOSE)
}

// A numeric, with its row; the first of its numbers that does not fit its size is noted after the faults in its phrase.
fn numeric(src: &[u8], table: &mut [u64], s: State, parent: usize) -> Result<State, Halt>
    requires { Room src.now (going s) × (s.token.class ≡ «numeric») }
    ensures { ReadsUnder src.now (r <item> ∷ []) parent (going s) (standing result) table.old table.new }
{
    let mut kept = [0; KEPT];
    let end = read_phrase(src, s, phrase::NUMERIC, &mut kept)?;
    put_phrase_row(src, table, s, parent, kept);
    let noted = with_outside(end.noted, first_oversized(src, kept));
    Ok(State {
        rows: s.rows + 1,
        noted,
        ..end
    })
}

// A rule's word, name and comma, and its row.
fn open_rule(src: &[u8], table: &mut [u64], s: State, parent: usize) -> Result<State, Halt>
    requires { Room src.now (going s) }
    ensures { Reads src.now (symbols_of RULE_OPEN) (Counted (RuleRow src.now parent)) (going s) (standing result) table.old table.new }
{
    let mut kept = [0; KEPT];
    let end = read_phrase(src, s, phrase::RULE_OPEN, &mut kept)?;
    let rules = s.rules + 1;
    let cells = rule_row(parent, s.token.start, rules as u64, kept[0]);
    rows::put_row(table, s.rows, cells);
    Ok(State {
        rows: s.rows + 1,
        rules,
        ..end
    })
}

fn rule(src: &[u8], table: &mut [u64], s: State, parent: usize) -> Result<State, Halt>
    requires { Room src.now (going s) × (s.token.class ≡ «rule») }
    ensures { WalkedUnder src.now (depth 0 0) (r <rule> ∷ []) parent (going s) (standing result) table.old table.new }
{
    let open = open_rule(src, table, s, parent)?;
    let whole = expression(src, table, open, s.rows)?;
    close(src, whole, phrase::RULE_CLOSE)
}

// A condition's word, expression and `;`.
fn open_condition(src: &[u8], table: &mut [u64], s: State, parent: usize) -> Result<State, Halt>
    requires { Room src.now (going s) × (is_condition s.token.class ≡ true) }
    ensures { OpensCondition src.now parent (going s) (standing result) table.old table.new }
{
    let open = word(src, table, s, parent);
    let whole = expression(src, table, open, s.rows)?;
    close(src, whole, phrase::EXPRESSION_CLOSE)
}

// An item that is no condition.
fn item(src: &[u8], table: &mut [u64], s: State, parent: usize) -> Result<State, Halt>
    requires { Room src.now (going s) × (starts_item s.token.class ≡ true) }
    ensures { ReadsUnder src.now (r <item> ∷ []) parent (going s) (standing result) table.old table.new }
{
    match s.token.class {
        KW_SUBTITLE => flat(src, table, s, parent, phrase::SUBTITLE),
        KW_TEXT => flat(src, table, s, parent, phrase::TEXT),
        KW_LABEL => flat(src, table, s, parent, phrase::LABEL),
        KW_GOTO => flat(src, table, s, parent, phrase::GOTO),
        KW_CHECKBOX => flat(src, table, s, parent, phrase::CHECKBOX),
        KW_NUMERIC => numeric(src, table, s, parent),
        _ => one_of(src, table, s, parent),
    }
}

// The items up to the first token that starts none, with `left` conditions left to open; where none is open, in a form,
// rules too. A condition's items are read by the same function.
pub fn items(
    src: &[u8],
    table: &mut [u64],
    s: State,
    parent: usize,
    left: usize,
) -> Result<State, Halt>
    requires { Room src.now (going s) × (left ≤ max_conditions) }
    ensures { ReadsItems src.now left parent (going s) (standing result) table.old table.new }
{
    // In a form no condition is open.
    let in_form = left == CONDITIONS;
    let mut s = s;
    loop {
        let class = s.token.class;
        if is_condition(class) {
            if left == 0 {
                return Err(too_deep(s));
            }
            let open = open_condition(src, table, s, parent)?;
            let inner = items(src, table, open, s.rows, left - 1)?;
            s = close(src, inner, phrase::CONDITION_CLOSE)?;
        } else if starts_item(class) {
            s = item(src, table, s, parent)?;
        } else if in_form && class == KW_RULE {
            s = rule(src, table, s, parent)?;
        } else {
            return Ok(s);
        }
    }
}
