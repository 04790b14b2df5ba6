// Where the values of a phrase's elements come from: a column of its row, or a part of the GUID in columns a and b.
// The elements that have values are those that reading keeps.
ghost use Rattle.std.specs.Prelude.{◌≡◌};
ghost use Rattle.rows.specs.Table.{row_at};
ghost use Rattle.print.specs.Phrase.{value_from};

use rows::cell;
use rows::columns::*;

// The columns as bytes.
const OWN_NUMBER: u8 = OWN as u8;

const FIRST_STRING: u8 = FIRST as u8;

const SECOND_STRING: u8 = SECOND as u8;

const FLAG_SET: u8 = FLAGS as u8;

const FIRST_VALUE: u8 = A as u8;

const SECOND_VALUE: u8 = B as u8;

const THIRD_VALUE: u8 = C as u8;

const FOURTH_VALUE: u8 = D as u8;

// No question's name is printed.
const NO_NAME: u8 = NAME as u8;

// The sources from here on are the parts of a GUID, of 32, 16 and 16 bits, and its eight bytes, in order.
const GUID: u8 = 64;

const GUID_BYTES: u8 = GUID + 3;

// Stays: a source is a number, and no enum, since `value_from` answers for every number (its contract), and the edit
// guid_from_the_fourteenth_column gives it one from 13 on.
pub fn value_from(table: &[u64], row: usize, source: u8) -> u64
    ensures { result ≡ value_from (row_at table.now row) source }
{
    if source < GUID {
        return cell(table, row, usize::from(source));
    }
    let a = cell(table, row, A);
    let b = cell(table, row, B);
    match source - GUID {
        0 => a >> 32,
        1 => (a >> 16) % 0x1_0000,
        2 => a % 0x1_0000,
        part => u64::from(b.to_be_bytes()[usize::from(part - 3).min(7)]),
    }
}

// ---- of each phrase

// A GUID's first three parts.
pub const FORM_SET_OPEN: [u8; 3] = [GUID, GUID + 1, GUID + 2];

// Its eight bytes; title, help.
pub const FORM_SET_BRACED: [u8; 10] = [
    GUID_BYTES,
    GUID_BYTES + 1,
    GUID_BYTES + 2,
    GUID_BYTES + 3,
    GUID_BYTES + 4,
    GUID_BYTES + 5,
    GUID_BYTES + 6,
    GUID_BYTES + 7,
    FIRST_STRING,
    SECOND_STRING,
];

// Form number, title.
pub const FORM: [u8; 2] = [OWN_NUMBER, FIRST_STRING];

// A rule's own number makes its name.
pub const RULE: [u8; 1] = [OWN_NUMBER];

// Text.
pub const SUBTITLE: [u8; 1] = [FIRST_STRING];

// Help, text.
pub const TEXT: [u8; 2] = [SECOND_STRING, FIRST_STRING];

// Number.
pub const LABEL: [u8; 1] = [OWN_NUMBER];

// Form number; HEAD, which is name, number, prompt and help; flags.
pub const GOTO: [u8; 6] = [
    FIRST_VALUE,
    NO_NAME,
    OWN_NUMBER,
    FIRST_STRING,
    SECOND_STRING,
    FLAG_SET,
];

// HEAD, flags, default.
pub const CHECKBOX: [u8; 6] = [
    NO_NAME,
    OWN_NUMBER,
    FIRST_STRING,
    SECOND_STRING,
    FLAG_SET,
    FOURTH_VALUE,
];

// HEAD, flags, minimum, maximum, step, default.
pub const NUMERIC: [u8; 9] = [
    NO_NAME,
    OWN_NUMBER,
    FIRST_STRING,
    SECOND_STRING,
    FLAG_SET,
    FIRST_VALUE,
    SECOND_VALUE,
    THIRD_VALUE,
    FOURTH_VALUE,
];

// HEAD, flags.
pub const ONE_OF: [u8; 5] = [NO_NAME, OWN_NUMBER, FIRST_STRING, SECOND_STRING, FLAG_SET];

// Text, value, flags.
pub const OPTION: [u8; 3] = [FIRST_STRING, FIRST_VALUE, FLAG_SET];

// A number, or the number found by a reference.
pub const OPERAND: [u8; 1] = [FIRST_VALUE];

// Of a phrase that has none.
pub const NOTHING: [u8; 0] = [];
