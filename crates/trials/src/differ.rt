// Where what came differs from what is expected. Behind what is expected stand zeros.
ghost use Rattle.std.specs.Prelude.{◌≡◌, ◌<◌, length, slice_index, IfSome};
ghost use Rattle.trials.specs.Differences.{FirstDifference, index_or};

// The number at an index, and 0 past the end.
pub fn number_at(numbers: &[u64], k: usize) -> u64
    ensures { result ≡ slice_index numbers.now k }
{
    numbers.get(k).copied().unwrap_or(0)
}

// The first index at which a table differs from the expected numbers.
pub fn first_difference(table: &[u64], expected: &[u64]) -> Option<usize>
    ensures first { FirstDifference table.now expected.now (index_or (length table.now) result) }
    ensures inside { IfSome result (λ k. k < length table.now) }
{
    for (k, number) in table.iter().enumerate() {
        if *number != number_at(expected, k) {
            return Some(k);
        }
    }
    None
}
