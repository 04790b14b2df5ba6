// The levels of operators by their tokens, and the words of operators and constants by the codes of their rows.
ghost use Rattle.std.specs.Prelude.{◌≡◌};
ghost use Rattle.fields.specs.Operators.{level_of, code_class};

use lexemes::classes::*;
use rows::codes;

// How many levels there are.
pub const LEVELS: u8 = 9;

// The level of an operator's token, the loosest being 0; LEVELS for any other.
// Stays: LEVELS for none, since walk's and text's clauses speak of the level of any token, and compare it with others.
#[tactic(auto, unfolding(crate::specs::Operators::level_of, crate::specs::Operators::operator_levels))]
pub fn level_of(class: u8) -> u8
    ensures { result ≡ level_of class }
{
    match class {
        OR => 0,
        AND => 1,
        BAR => 2,
        AMPERSAND => 3,
        EQUAL => 4,
        NOT_EQUAL => 4,
        LESS => 5,
        LESS_EQUAL => 5,
        GREATER => 5,
        GREATER_EQUAL => 5,
        SHIFT_LEFT => 6,
        SHIFT_RIGHT => 6,
        PLUS => 7,
        MINUS => 7,
        STAR => 8,
        SLASH => 8,
        PERCENT => 8,
        _ => LEVELS,
    }
}

// The class of an operator's or a constant's word; NAME for any other row.
// Stays: NAME for none, since text's clauses speak of the class of any row.
#[tactic(auto, unfolding(crate::specs::Operators::code_class, crate::specs::Operators::code_classes))]
pub fn class_of(code: u64) -> u8
    ensures { result ≡ code_class code }
{
    match code {
        codes::OR => OR,
        codes::AND => AND,
        codes::BITWISE_OR => BAR,
        codes::BITWISE_AND => AMPERSAND,
        codes::EQUAL => EQUAL,
        codes::NOT_EQUAL => NOT_EQUAL,
        codes::LESS_THAN => LESS,
        codes::LESS_EQUAL => LESS_EQUAL,
        codes::GREATER_THAN => GREATER,
        codes::GREATER_EQUAL => GREATER_EQUAL,
        codes::SHIFT_LEFT => SHIFT_LEFT,
        codes::SHIFT_RIGHT => SHIFT_RIGHT,
        codes::ADD => PLUS,
        codes::SUBTRACT => MINUS,
        codes::MULTIPLY => STAR,
        codes::DIVIDE => SLASH,
        codes::MODULO => PERCENT,
        codes::TRUE => TRUE,
        codes::FALSE => FALSE,
        codes::ZERO => ZERO,
        codes::ONE => ONE,
        codes::ONES => ONES,
        codes::UNDEFINED => UNDEFINED,
        _ => NAME,
    }
}
