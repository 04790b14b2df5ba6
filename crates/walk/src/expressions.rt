// Expressions: the rows of operands, then that of their operator (document 01, Grammar and Rows).
ghost use Rattle.std.specs.Prelude.{◌≡◌, ◌≢◌, [], ◌∷◌, ◌≤◌};
ghost use Rattle.lexemes.specs.Classes.{open_paren, «NOT»};
ghost use Rattle.grammar.specs.Notation.{r};
ghost use Rattle.grammar.specs.Rules.{level_rule, <atom>, <or>};
ghost use Rattle.grammar.specs.Derivation.{max_groups};
ghost use Rattle.fields.specs.Operators.{LEVELS};
ghost use Rattle.walk.specs.Meanings.{Counted, OperandRows};
ghost use Rattle.walk.specs.Standing.{going, standing, standing_in};
ghost use Rattle.walk.specs.Walked.{Room, Reads, ReadsOperand};

use crate::starts::is_constant;
use crate::steps::{close, flat, pass, put_word_row, too_deep, word};
use crate::{Halt, State};
use elements::phrase;
use fields::operators::{LEVELS, level_of};
use lexemes::classes::*;

// How many grouping parentheses and NOTs may be unfinished at once (document 01, Depths).
const GROUPS: usize = 32;

// An atom that holds no other.
fn leaf(src: &[u8], table: &mut [u64], s: State, parent: usize) -> Result<State, Halt>
    requires { Room src.now (going s) × (s.token.class ≢ «NOT») × (s.token.class ≢ open_paren) }
    ensures { Reads src.now (r <atom> ∷ []) (Counted (OperandRows src.now parent)) (going s) (standing result) table.old table.new }
{
    match s.token.class {
        class if is_constant(class) => Ok(word(src, table, s, parent)),
        KW_QUESTIONREF => flat(src, table, s, parent, phrase::QUESTION_REF),
        KW_RULEREF => flat(src, table, s, parent, phrase::RULE_REF),
        _ => flat(src, table, s, parent, phrase::NUMBER),
    }
}

// An atom, with `left` groups left to open. It and `level` change the state in place, so that a deep source takes little stack.
#[cycle(atom_level)]
fn atom(
    src: &[u8],
    table: &mut [u64],
    s: &mut State,
    parent: usize,
    left: usize,
) -> Result<(), Halt>
    requires { Room src.now (going s.old) × (left ≤ max_groups) }
    ensures { ReadsOperand src.now left <atom> parent (going s.old) (standing_in result s.new) table.old table.new }
{
    match s.token.class {
        NOT | OPEN_PAREN if left == 0 => Err(too_deep(*s)),
        NOT => {
            let word = s.token;
            pass(src, s);
            atom(src, table, s, parent, left - 1)?;
            put_word_row(table, s, parent, word);
            Ok(())
        }
        OPEN_PAREN => {
            pass(src, s);
            level(src, table, s, parent, left - 1, 0)?;
            *s = close(src, *s, phrase::GROUP_CLOSE)?;
            Ok(())
        }
        _ => {
            *s = leaf(src, table, *s, parent)?;
            Ok(())
        }
    }
}

// An atom, and the operators of the level or tighter ones with their right operands, grouping to the left: after an
// operator only those of its own level or looser ones are left for this reader.
#[cycle(atom_level)]
fn level(
    src: &[u8],
    table: &mut [u64],
    s: &mut State,
    parent: usize,
    left: usize,
    at: u8,
) -> Result<(), Halt>
    requires { Room src.now (going s.old) × (left ≤ max_groups) × (at ≤ LEVELS) }
    ensures { ReadsOperand src.now left (level_rule at) parent (going s.old) (standing_in result s.new) table.old table.new }
{
    atom(src, table, s, parent, left)?;
    let mut bound = LEVELS;
    loop {
        let operator = s.token;
        let own = level_of(operator.class);
        if own < at || bound <= own {
            return Ok(());
        }
        pass(src, s);
        level(src, table, s, parent, left, own + 1)?;
        put_word_row(table, s, parent, operator);
        bound = own + 1;
    }
}

// A whole expression, whose rows have the parent.
pub fn expression(src: &[u8], table: &mut [u64], s: State, parent: usize) -> Result<State, Halt>
    requires { Room src.now (going s) }
    ensures { ReadsOperand src.now max_groups <or> parent (going s) (standing result) table.old table.new }
{
    let mut s = s;
    level(src, table, &mut s, parent, GROUPS, 0)?;
    Ok(s)
}
