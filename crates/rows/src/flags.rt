// The bits of a row's flags (document 01, "Grammar" and "Rows").
// Stays: flags are bits of the lent table, which C reads, so they are numbers.

// The flags of a question.
pub const READ_ONLY: u64 = 1;

pub const INTERACTIVE: u64 = 4;

pub const RESET_REQUIRED: u64 = 16;

// A checkbox or numeric whose `default` is written.
pub const HAS_DEFAULT: u64 = 256;

// An option marked `DEFAULT`.
pub const OPTION_DEFAULT: u64 = 16;
