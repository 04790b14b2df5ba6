// The value of the expression that follows a row of a table (document 02, W-202).
#![tactic(auto)]

ghost use Rattle.std.specs.Prelude.{◌≡◌};
ghost use Rattle.expression_rows.specs.Ends.{value_after};

use evaluate::{Known, evaluate};
use laid::expression_end;
use operators::Scalar;

// The value of the expression that follows a row, one of the first `count`.
pub fn value_after(table: &[u64], count: usize, row: usize, known: Known) -> Scalar
    ensures { result ≡ value_after known.entry.answers.saved.now known.entry.answers.gotos.now
        known.entry.answers.checkboxes.now known.entry.rules.now table.now count row }
{
    if count <= row {
        return Scalar::Undefined;
    }
    let end = expression_end(table, row + 1, count);
    evaluate(table, row + 1, end, known)
}
