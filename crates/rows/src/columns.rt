// The columns of a row (document 01, "Rows", and document 02, W-204).
// Stays: columns are places in the lent table, which C reads, so they are numbers and no fields of a struct.

// How many numbers a row has.
pub const ROW: usize = 13;

pub const CODE: usize = 0;

// The parent's row.
pub const PARENT: usize = 1;

// The own number of a form, a question, a label or a rule.
pub const OWN: usize = 2;

// The first string.
pub const FIRST: usize = 3;

// The second string.
pub const SECOND: usize = 4;

pub const FLAGS: usize = 5;

// a, b, c, d: what they hold depends on the code.
pub const A: usize = 6;

pub const B: usize = 7;

pub const C: usize = 8;

pub const D: usize = 9;

// The place plus one of the name that a question or rule declares; 0 for none.
pub const NAME: usize = 10;

// The place of the first token; of an operator, the operator itself.
pub const PLACE: usize = 11;

// "size times 4 plus 0, 1 or 2 for the display" of a numeric; 0 for other rows.
pub const SIZE: usize = 12;
