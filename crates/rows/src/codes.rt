// The codes of rows, in the order of document 01's table. They are operation codes of UEFI 2.10 and bear its
// names, but for GOTO (REF), OPTION (ONE_OF_OPTION), LABEL (GUID), NUMBER (UINT64) and QUESTION_REF (QUESTION_REF1).
// Stays: codes are what stands in the lent table, which C reads (W-202, `face`), so they are numbers and no enum.
ghost use Rattle.std.specs.Prelude.{◌≡◌};
ghost use Rattle.rows.specs.Codes.{is_question, is_expression};

// ---- the form set

pub const FORM_SET: u64 = 0x0E;

// ---- a form, and what shows a text

pub const FORM: u64 = 0x01;

pub const SUBTITLE: u64 = 0x02;

pub const TEXT: u64 = 0x03;

// ---- the questions

pub const GOTO: u64 = 0x0F;

pub const CHECKBOX: u64 = 0x06;

pub const NUMERIC: u64 = 0x07;

pub const ONE_OF: u64 = 0x05;

// ---- an option of a oneof, a label and a rule

pub const OPTION: u64 = 0x09;

pub const LABEL: u64 = 0x5F;

pub const RULE: u64 = 0x18;

// ---- the conditions

pub const SUPPRESS_IF: u64 = 0x0A;

pub const GRAY_OUT_IF: u64 = 0x19;

pub const DISABLE_IF: u64 = 0x1E;

// ---- the operators

pub const OR: u64 = 0x16;

pub const AND: u64 = 0x15;

pub const NOT: u64 = 0x17;

pub const BITWISE_OR: u64 = 0x36;

pub const BITWISE_AND: u64 = 0x35;

pub const EQUAL: u64 = 0x2F;

pub const NOT_EQUAL: u64 = 0x30;

pub const GREATER_THAN: u64 = 0x31;

pub const GREATER_EQUAL: u64 = 0x32;

pub const LESS_THAN: u64 = 0x33;

pub const LESS_EQUAL: u64 = 0x34;

pub const SHIFT_LEFT: u64 = 0x38;

pub const SHIFT_RIGHT: u64 = 0x39;

pub const ADD: u64 = 0x3A;

pub const SUBTRACT: u64 = 0x3B;

pub const MULTIPLY: u64 = 0x3C;

pub const DIVIDE: u64 = 0x3D;

pub const MODULO: u64 = 0x3E;

// ---- the constants

pub const NUMBER: u64 = 0x45;

pub const TRUE: u64 = 0x46;

pub const FALSE: u64 = 0x47;

pub const ZERO: u64 = 0x52;

pub const ONE: u64 = 0x53;

pub const ONES: u64 = 0x54;

pub const UNDEFINED: u64 = 0x55;

// ---- the references

pub const QUESTION_REF: u64 = 0x40;

pub const RULE_REF: u64 = 0x3F;

// ---- kinds of codes

// Whether a row of this code is a question.
#[tactic(auto, unfolding(crate::specs::Codes::is_question, crate::specs::Codes::member, crate::specs::Codes::questions))]
pub fn is_question(code: u64) -> bool
    ensures { result ≡ is_question code }
{
    matches!(code, GOTO | CHECKBOX | NUMERIC | ONE_OF)
}

// Whether a row of this code is part of an expression. The codes of expressions are five runs of numbers.
#[tactic(auto, unfolding(crate::specs::Codes::is_expression, crate::specs::Codes::member, crate::specs::Codes::expressions))]
pub fn is_expression(code: u64) -> bool
    ensures { result ≡ is_expression code }
{
    matches!(
        code,
        AND..=NOT
            | EQUAL..=BITWISE_OR
            | SHIFT_LEFT..=QUESTION_REF
            | NUMBER..=FALSE
            | ZERO..=UNDEFINED
    )
}
