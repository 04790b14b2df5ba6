// The rows of an accepted source as statements in a table: see specs/ and proofs/. The code tells where an expression ends.
#![tactic(auto)]

ghost use Rattle.std.specs.Prelude.{◌≡◌};
ghost use Rattle.laid.specs.Ends.{end_from};
ghost use Rattle.laid.specs.Laid.{Stretch};

use rows::columns::CODE;
use rows::{cell, codes};

// The first row from `from` on, of the first `count`, that is part of no expression.
pub fn expression_end(table: &[u64], from: usize, count: usize) -> usize
    ensures is { result ≡ end_from table.now count from }
    ensures stretch { Stretch table.now count from result }
{
    (from..count)
        .find(|&row| !codes::is_expression(cell(table, row, CODE)))
        .unwrap_or(from.max(count))
}
