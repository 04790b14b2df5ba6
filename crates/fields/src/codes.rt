// The code of a word's row.
ghost use Rattle.std.specs.Prelude.{◌≡◌};
ghost use Rattle.fields.specs.Words.{code_of};

use lexemes::classes::*;
use rows::codes;

// The code of a row that is no more than a word: a condition's, an operator's or a constant's. 0 for any other word.
// Stays: 0 for none, as `word_row` makes a row of any word: `code_of(token.class).unwrap_or(0)`, its only use, is no plainer.
#[tactic(auto, unfolding(crate::specs::Words::code_of, crate::specs::Words::word_codes))]
pub fn code_of(class: u8) -> u64
    ensures { result ≡ code_of class }
{
    match class {
        KW_SUPPRESSIF => codes::SUPPRESS_IF,
        KW_GRAYOUTIF => codes::GRAY_OUT_IF,
        KW_DISABLEIF => codes::DISABLE_IF,
        NOT => codes::NOT,
        OR => codes::OR,
        AND => codes::AND,
        BAR => codes::BITWISE_OR,
        AMPERSAND => codes::BITWISE_AND,
        EQUAL => codes::EQUAL,
        NOT_EQUAL => codes::NOT_EQUAL,
        LESS => codes::LESS_THAN,
        LESS_EQUAL => codes::LESS_EQUAL,
        GREATER => codes::GREATER_THAN,
        GREATER_EQUAL => codes::GREATER_EQUAL,
        SHIFT_LEFT => codes::SHIFT_LEFT,
        SHIFT_RIGHT => codes::SHIFT_RIGHT,
        PLUS => codes::ADD,
        MINUS => codes::SUBTRACT,
        STAR => codes::MULTIPLY,
        SLASH => codes::DIVIDE,
        PERCENT => codes::MODULO,
        TRUE => codes::TRUE,
        FALSE => codes::FALSE,
        ZERO => codes::ZERO,
        ONE => codes::ONE,
        ONES => codes::ONES,
        UNDEFINED => codes::UNDEFINED,
        _ => 0,
    }
}
