// Draft rows: while a source is read, the upper half of a cell keeps a mark, which is a place plus one, or 0 for
// none. The lower half is what the finished row holds there.
// Stays: a mark stands in half a cell of the lent table, which the clauses read by `mark_of`, so it is a number and no Option.
ghost use Rattle.std.specs.Prelude.{◌≡◌};
ghost use Rattle.rows.specs.Draft.{low_of, mark_of, with_mark};

// How many numbers half a cell can hold.
pub const HALF: u64 = 0x1_0000_0000;

// A cell of two halves, of which each keeps its lowest 32 bits.
pub fn with_mark(low: u64, mark: u64) -> u64
    ensures { result ≡ with_mark low mark }
{
    low % HALF + mark % HALF * HALF
}

// What the finished row holds.
pub fn low(cell: u64) -> u64
    ensures { result ≡ low_of cell }
{
    cell % HALF
}

// A place plus one, or 0 for none.
pub fn mark(cell: u64) -> u64
    ensures { result ≡ mark_of cell }
{
    cell / HALF
}
