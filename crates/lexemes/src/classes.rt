// The classes of tokens, each named once. The signs come first, in document 01's order, then the reserved
// words in byte order: those that document 01 writes in small letters are named with KW_ before them.
// Stays: numbers, since the C interface (`vfr_token`), the clause of `class_of` and the table of the grammar hold a class as its number.

pub const OPEN_BRACE: u8 = 0;

pub const CLOSE_BRACE: u8 = 1;

pub const OPEN_PAREN: u8 = 2;

pub const CLOSE_PAREN: u8 = 3;

pub const COMMA: u8 = 4;

pub const SEMICOLON: u8 = 5;

pub const ASSIGN: u8 = 6;

pub const BAR: u8 = 7;

pub const AMPERSAND: u8 = 8;

pub const EQUAL: u8 = 9;

pub const NOT_EQUAL: u8 = 10;

pub const LESS: u8 = 11;

pub const LESS_EQUAL: u8 = 12;

pub const GREATER: u8 = 13;

pub const GREATER_EQUAL: u8 = 14;

pub const SHIFT_LEFT: u8 = 15;

pub const SHIFT_RIGHT: u8 = 16;

pub const PLUS: u8 = 17;

pub const MINUS: u8 = 18;

pub const STAR: u8 = 19;

pub const SLASH: u8 = 20;

pub const PERCENT: u8 = 21;

pub const AND: u8 = 22;

pub const DEFAULT: u8 = 23;

pub const DISPLAY_INT_DEC: u8 = 24;

pub const DISPLAY_UINT_DEC: u8 = 25;

pub const DISPLAY_UINT_HEX: u8 = 26;

pub const FALSE: u8 = 27;

pub const INTERACTIVE: u8 = 28;

pub const NOT: u8 = 29;

pub const NUMERIC_SIZE_1: u8 = 30;

pub const NUMERIC_SIZE_2: u8 = 31;

pub const NUMERIC_SIZE_4: u8 = 32;

pub const NUMERIC_SIZE_8: u8 = 33;

pub const ONE: u8 = 34;

pub const ONES: u8 = 35;

pub const OR: u8 = 36;

pub const READ_ONLY: u8 = 37;

pub const RESET_REQUIRED: u8 = 38;

pub const STRING_TOKEN: u8 = 39;

pub const TRUE: u8 = 40;

pub const UNDEFINED: u8 = 41;

pub const ZERO: u8 = 42;

pub const KW_CHECKBOX: u8 = 43;

pub const KW_DEFAULT: u8 = 44;

pub const KW_DISABLEIF: u8 = 45;

pub const KW_ENDCHECKBOX: u8 = 46;

pub const KW_ENDFORM: u8 = 47;

pub const KW_ENDFORMSET: u8 = 48;

pub const KW_ENDIF: u8 = 49;

pub const KW_ENDNUMERIC: u8 = 50;

pub const KW_ENDONEOF: u8 = 51;

pub const KW_ENDRULE: u8 = 52;

pub const KW_FLAGS: u8 = 53;

pub const KW_FORM: u8 = 54;

pub const KW_FORMID: u8 = 55;

pub const KW_FORMSET: u8 = 56;

pub const KW_GOTO: u8 = 57;

pub const KW_GRAYOUTIF: u8 = 58;

pub const KW_GUID: u8 = 59;

pub const KW_HELP: u8 = 60;

pub const KW_LABEL: u8 = 61;

pub const KW_MAXIMUM: u8 = 62;

pub const KW_MINIMUM: u8 = 63;

pub const KW_NAME: u8 = 64;

pub const KW_NUMERIC: u8 = 65;

pub const KW_ONEOF: u8 = 66;

pub const KW_OPTION: u8 = 67;

pub const KW_PROMPT: u8 = 68;

pub const KW_QUESTIONID: u8 = 69;

pub const KW_QUESTIONREF: u8 = 70;

pub const KW_RULE: u8 = 71;

pub const KW_RULEREF: u8 = 72;

pub const KW_STEP: u8 = 73;

pub const KW_SUBTITLE: u8 = 74;

pub const KW_SUPPRESSIF: u8 = 75;

pub const KW_TEXT: u8 = 76;

pub const KW_TITLE: u8 = 77;

pub const KW_VALUE: u8 = 78;

// A word that is not reserved.
pub const NAME: u8 = 79;
// A number that starts with `0x`.
pub const HEX: u8 = 80;
// A number of decimal digits.
pub const DECIMAL: u8 = 81;
// A bad token: neither it nor the end has bytes, so that every class below is a token with bytes.
pub const BAD: u8 = 82;
// The end of the source.
pub const END: u8 = 83;

// How many signs there are: as a sign's class, none.
pub const SIGNS: u8 = 22;
