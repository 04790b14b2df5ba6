// The table of rows: numbers that the caller lends, ROW to a row (document 01, "Rows"). Where a table has no
// such row or cell, reading gives 0 and writing changes nothing.
#![tactic(auto)]

pub mod codes;
pub mod columns;
pub mod displays;
pub mod draft;
pub mod flags;

ghost use Rattle.std.specs.Prelude.{◌≡◌, ℕ, ◌-◌, ◌*◌, List, ◌++◌, length, take, replicate};
ghost use Rattle.rows.specs.Columns.{ROW};
ghost use Rattle.rows.specs.Table.{whole_rows, cell_at, with_cell, with_row, cleared, cleared_filled};

use columns::ROW;

// How many whole rows are lent.
pub fn whole_rows(table: &[u64]) -> usize
    ensures { result ≡ whole_rows table.now }
{
    table.len() / ROW
}

// A cell of a row.
pub fn cell(table: &[u64], row: usize, column: usize) -> u64
    ensures { result ≡ cell_at table.now row column }
{
    if whole_rows(table) <= row || ROW <= column {
        return 0;
    }
    table[row * ROW + column]
}

// Sets a cell of a row.
pub fn set_cell(table: &mut [u64], row: usize, column: usize, value: u64)
    ensures { table.new ≡ with_cell table.old row column value }
{
    if row < whole_rows(table) && column < ROW {
        let at = row * ROW + column;
        table[at] = value;
    }
}

// Writes a row, where a whole one fits.
pub fn put_row(table: &mut [u64], row: usize, cells: [u64; ROW])
    ensures { table.new ≡ with_row table.old row cells }
{
    if row < whole_rows(table) {
        let first = row * ROW;
        table[first..first + ROW].copy_from_slice(&cells);
    }
}

// What is lent and cleared: the numbers of a table, the bytes of an output.
pub trait Cleared: Copy {
    const ZERO: Self;

    ghost ZERO: { Self };

    // Elements with zero from an index on.
    ghost cleared: { List Self → ℕ → List Self };

    // These are all elements up to there, and then as many zeros as there were elements.
    ghost clears: { (xs : List Self) (from : ℕ) → cleared xs from ≡ take from xs ++ replicate (length xs - from) ZERO };
}

impl Cleared for u64 {
    const ZERO: u64 = 0;

    ghost ZERO = { 0 };

    ghost cleared = { cleared };

    ghost clears = { cleared_filled };
}

impl Cleared for u8 {
    const ZERO: u8 = 0;

    ghost ZERO = { 0 };

    ghost cleared = { cleared };

    ghost clears = { cleared_filled };
}

// Sets all elements from an index on to zero.
pub fn clear<T: Cleared>(out: &mut [T], from: usize)
    ensures { out.new ≡ T.cleared out.old from }
{
    if from < out.len() {
        let rest = &mut out[from..];
        for x in rest.iter_mut() {
            *x = T::ZERO;
        }
    }
}

// Sets all numbers past `count` rows to 0, those of no whole row too.
pub fn clear_past(table: &mut [u64], count: usize)
    ensures { table.new ≡ cleared table.old (count * ROW) }
{
    if count <= whole_rows(table) {
        clear(table, count * ROW);
    }
}
