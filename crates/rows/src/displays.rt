// The displays of numerics, and what column 12 holds of a numeric that names neither size nor display (document 02, W-204).
// Stays: displays are what stands in the lent table, which C reads, so they are numbers and no enum.

pub const INT_DEC: u64 = 0;

pub const UINT_DEC: u64 = 1;

pub const UINT_HEX: u64 = 2;

// Eight bytes and UINT_DEC: the size times 4 plus the display.
pub const UNSIGNED_8: u64 = 33;
