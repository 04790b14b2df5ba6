// The fixed phrases of the grammar as lists of elements (document 01, Grammar).
// Stays: what several phrases hold (STR, HEAD) is written out in each, since no constant is joined of others: `[MAYBE, ..HEAD]`.
ghost use Rattle.std.specs.Prelude.{◌≡◌};
ghost use Rattle.elements.specs.Symbols.{elements_of};

use crate::kinds::*;
use crate::phrase;
use lexemes::classes::*;

// `formset guid = { H8 , H4 , H4 ,`
pub const FORM_SET_OPEN: [u8; 10] = [
    KW_FORMSET, KW_GUID, ASSIGN, OPEN_BRACE, H8, COMMA, H4, COMMA, H4, COMMA,
];

// The rest of a form set's opening, with the inner braces: `{ eight H2 } } , title = STR , help = STR ,`
pub const FORM_SET_BRACED: [u8; 33] = [
    OPEN_BRACE,
    H2,
    COMMA,
    H2,
    COMMA,
    H2,
    COMMA,
    H2,
    COMMA,
    H2,
    COMMA,
    H2,
    COMMA,
    H2,
    COMMA,
    H2,
    CLOSE_BRACE,
    CLOSE_BRACE,
    COMMA,
    KW_TITLE,
    ASSIGN,
    STRING_TOKEN,
    OPEN_PAREN,
    SMALL,
    CLOSE_PAREN,
    COMMA,
    KW_HELP,
    ASSIGN,
    STRING_TOKEN,
    OPEN_PAREN,
    SMALL,
    CLOSE_PAREN,
    COMMA,
];

// The same without them: `eight H2 } , title = STR , help = STR ,`
pub const FORM_SET_PLAIN: [u8; 31] = [
    H2,
    COMMA,
    H2,
    COMMA,
    H2,
    COMMA,
    H2,
    COMMA,
    H2,
    COMMA,
    H2,
    COMMA,
    H2,
    COMMA,
    H2,
    CLOSE_BRACE,
    COMMA,
    KW_TITLE,
    ASSIGN,
    STRING_TOKEN,
    OPEN_PAREN,
    SMALL,
    CLOSE_PAREN,
    COMMA,
    KW_HELP,
    ASSIGN,
    STRING_TOKEN,
    OPEN_PAREN,
    SMALL,
    CLOSE_PAREN,
    COMMA,
];

// `endformset ;`
pub const FORM_SET_CLOSE: [u8; 2] = [KW_ENDFORMSET, SEMICOLON];

// `form formid = N , title = STR ;`
pub const FORM_OPEN: [u8; 12] = [
    KW_FORM,
    KW_FORMID,
    ASSIGN,
    ID,
    COMMA,
    KW_TITLE,
    ASSIGN,
    STRING_TOKEN,
    OPEN_PAREN,
    SMALL,
    CLOSE_PAREN,
    SEMICOLON,
];

// `endform ;`
pub const FORM_CLOSE: [u8; 2] = [KW_ENDFORM, SEMICOLON];

// `rule NAME ,`
pub const RULE_OPEN: [u8; 3] = [KW_RULE, NAME, COMMA];

// `endrule ;`
pub const RULE_CLOSE: [u8; 2] = [KW_ENDRULE, SEMICOLON];

// `subtitle text = STR ;`
pub const SUBTITLE: [u8; 8] = [
    KW_SUBTITLE,
    KW_TEXT,
    ASSIGN,
    STRING_TOKEN,
    OPEN_PAREN,
    SMALL,
    CLOSE_PAREN,
    SEMICOLON,
];

// `text help = STR , text = STR ;`
pub const TEXT: [u8; 15] = [
    KW_TEXT,
    KW_HELP,
    ASSIGN,
    STRING_TOKEN,
    OPEN_PAREN,
    SMALL,
    CLOSE_PAREN,
    COMMA,
    KW_TEXT,
    ASSIGN,
    STRING_TOKEN,
    OPEN_PAREN,
    SMALL,
    CLOSE_PAREN,
    SEMICOLON,
];

// `label N ;`
pub const LABEL: [u8; 3] = [KW_LABEL, SMALL, SEMICOLON];

// `goto N , HEAD [, flags = FL] ;`
pub const GOTO: [u8; 32] = [
    KW_GOTO,
    ID,
    COMMA,
    MAYBE,
    KW_NAME,
    ASSIGN,
    NAME,
    COMMA,
    MAYBE,
    KW_QUESTIONID,
    ASSIGN,
    ID,
    COMMA,
    KW_PROMPT,
    ASSIGN,
    STRING_TOKEN,
    OPEN_PAREN,
    SMALL,
    CLOSE_PAREN,
    COMMA,
    KW_HELP,
    ASSIGN,
    STRING_TOKEN,
    OPEN_PAREN,
    SMALL,
    CLOSE_PAREN,
    MAYBE,
    COMMA,
    KW_FLAGS,
    ASSIGN,
    FLAG_LIST,
    SEMICOLON,
];

// `checkbox HEAD , [flags = FL ,] [default = TRUE or FALSE ,] endcheckbox ;`
pub const CHECKBOX: [u8; 37] = [
    KW_CHECKBOX,
    MAYBE,
    KW_NAME,
    ASSIGN,
    NAME,
    COMMA,
    MAYBE,
    KW_QUESTIONID,
    ASSIGN,
    ID,
    COMMA,
    KW_PROMPT,
    ASSIGN,
    STRING_TOKEN,
    OPEN_PAREN,
    SMALL,
    CLOSE_PAREN,
    COMMA,
    KW_HELP,
    ASSIGN,
    STRING_TOKEN,
    OPEN_PAREN,
    SMALL,
    CLOSE_PAREN,
    COMMA,
    MAYBE,
    KW_FLAGS,
    ASSIGN,
    FLAG_LIST,
    COMMA,
    MAYBE,
    KW_DEFAULT,
    ASSIGN,
    TRUTH,
    COMMA,
    KW_ENDCHECKBOX,
    SEMICOLON,
];

// `numeric HEAD , [flags = FL ,] minimum = N , maximum = N , [step = N ,] [default = N ,] endnumeric ;`
pub const NUMERIC: [u8; 50] = [
    KW_NUMERIC,
    MAYBE,
    KW_NAME,
    ASSIGN,
    NAME,
    COMMA,
    MAYBE,
    KW_QUESTIONID,
    ASSIGN,
    ID,
    COMMA,
    KW_PROMPT,
    ASSIGN,
    STRING_TOKEN,
    OPEN_PAREN,
    SMALL,
    CLOSE_PAREN,
    COMMA,
    KW_HELP,
    ASSIGN,
    STRING_TOKEN,
    OPEN_PAREN,
    SMALL,
    CLOSE_PAREN,
    COMMA,
    MAYBE,
    KW_FLAGS,
    ASSIGN,
    NUMERIC_FLAGS,
    COMMA,
    KW_MINIMUM,
    ASSIGN,
    NUMERIC_VALUE,
    COMMA,
    KW_MAXIMUM,
    ASSIGN,
    NUMERIC_VALUE,
    COMMA,
    MAYBE,
    KW_STEP,
    ASSIGN,
    NUMERIC_VALUE,
    COMMA,
    MAYBE,
    KW_DEFAULT,
    ASSIGN,
    NUMERIC_VALUE,
    COMMA,
    KW_ENDNUMERIC,
    SEMICOLON,
];

// `oneof HEAD , [flags = FL ,]`
pub const ONE_OF_OPEN: [u8; 30] = [
    KW_ONEOF,
    MAYBE,
    KW_NAME,
    ASSIGN,
    NAME,
    COMMA,
    MAYBE,
    KW_QUESTIONID,
    ASSIGN,
    ID,
    COMMA,
    KW_PROMPT,
    ASSIGN,
    STRING_TOKEN,
    OPEN_PAREN,
    SMALL,
    CLOSE_PAREN,
    COMMA,
    KW_HELP,
    ASSIGN,
    STRING_TOKEN,
    OPEN_PAREN,
    SMALL,
    CLOSE_PAREN,
    COMMA,
    MAYBE,
    KW_FLAGS,
    ASSIGN,
    FLAG_LIST,
    COMMA,
];

// `endoneof ;`
pub const ONE_OF_CLOSE: [u8; 2] = [KW_ENDONEOF, SEMICOLON];

// `option text = STR , value = N , flags = (N or DEFAULT) ;`
pub const OPTION: [u8; 16] = [
    KW_OPTION,
    KW_TEXT,
    ASSIGN,
    STRING_TOKEN,
    OPEN_PAREN,
    SMALL,
    CLOSE_PAREN,
    COMMA,
    KW_VALUE,
    ASSIGN,
    LARGE,
    COMMA,
    KW_FLAGS,
    ASSIGN,
    OPTION_FLAGS,
    SEMICOLON,
];

// `endif ;`
pub const CONDITION_CLOSE: [u8; 2] = [KW_ENDIF, SEMICOLON];

// The `;` after an expression.
pub const EXPRESSION_CLOSE: [u8; 1] = [SEMICOLON];

// `N`
pub const NUMBER: [u8; 1] = [LARGE];

// `questionref ( NAME or N )`
pub const QUESTION_REF: [u8; 4] = [KW_QUESTIONREF, OPEN_PAREN, REFERENCE, CLOSE_PAREN];

// `ruleref ( NAME )`
pub const RULE_REF: [u8; 4] = [KW_RULEREF, OPEN_PAREN, NAME, CLOSE_PAREN];

// `)`
pub const GROUP_CLOSE: [u8; 1] = [CLOSE_PAREN];

// The elements of a phrase by its number; a number that no phrase has has none.
#[tactic(auto, unfolding(crate::specs::Symbols::phrase_elements, crate::specs::Symbols::elements_of))]
pub fn pattern(phrase: u8) -> &'static [u8]
    ensures { result.now ≡ elements_of phrase }
{
    match phrase {
        phrase::FORM_SET_OPEN => &FORM_SET_OPEN,
        phrase::FORM_SET_BRACED => &FORM_SET_BRACED,
        phrase::FORM_SET_PLAIN => &FORM_SET_PLAIN,
        phrase::FORM_SET_CLOSE => &FORM_SET_CLOSE,
        phrase::FORM_OPEN => &FORM_OPEN,
        phrase::FORM_CLOSE => &FORM_CLOSE,
        phrase::RULE_OPEN => &RULE_OPEN,
        phrase::RULE_CLOSE => &RULE_CLOSE,
        phrase::SUBTITLE => &SUBTITLE,
        phrase::TEXT => &TEXT,
        phrase::LABEL => &LABEL,
        phrase::GOTO => &GOTO,
        phrase::CHECKBOX => &CHECKBOX,
        phrase::NUMERIC => &NUMERIC,
        phrase::ONE_OF_OPEN => &ONE_OF_OPEN,
        phrase::ONE_OF_CLOSE => &ONE_OF_CLOSE,
        phrase::OPTION => &OPTION,
        phrase::CONDITION_CLOSE => &CONDITION_CLOSE,
        phrase::EXPRESSION_CLOSE => &EXPRESSION_CLOSE,
        phrase::NUMBER => &NUMBER,
        phrase::QUESTION_REF => &QUESTION_REF,
        phrase::RULE_REF => &RULE_REF,
        phrase::GROUP_CLOSE => &GROUP_CLOSE,
        _ => &[],
    }
}
