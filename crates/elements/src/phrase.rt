// The phrases by number. A statement's phrase is its whole alternative; other phrases are the fixed parts of one.
// Stays: a phrase is a number, since `phrases::read` answers for every number: one that no phrase has reads nothing.
pub const FORM_SET_OPEN: u8 = 0;

pub const FORM_SET_BRACED: u8 = 1;

pub const FORM_SET_PLAIN: u8 = 2;

pub const FORM_SET_CLOSE: u8 = 3;

pub const FORM_OPEN: u8 = 4;

pub const FORM_CLOSE: u8 = 5;

pub const RULE_OPEN: u8 = 6;

pub const RULE_CLOSE: u8 = 7;

pub const SUBTITLE: u8 = 8;

pub const TEXT: u8 = 9;

pub const LABEL: u8 = 10;

pub const GOTO: u8 = 11;

pub const CHECKBOX: u8 = 12;

pub const NUMERIC: u8 = 13;

pub const ONE_OF_OPEN: u8 = 14;

pub const ONE_OF_CLOSE: u8 = 15;

pub const OPTION: u8 = 16;

pub const CONDITION_CLOSE: u8 = 17;

pub const EXPRESSION_CLOSE: u8 = 18;

pub const NUMBER: u8 = 19;

pub const QUESTION_REF: u8 = 20;

pub const RULE_REF: u8 = 21;

pub const GROUP_CLOSE: u8 = 22;
