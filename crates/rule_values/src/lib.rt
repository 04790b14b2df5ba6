// The values of a form set's rules, each found once (document 02, W-202): rule after rule in an order in which each comes
// after those that it refers to.
#![tactic(auto)]

ghost use Rattle.std.specs.Prelude.{◌≡◌};
ghost use Rattle.rule_values.specs.Values.{placed_row, placed_rows, with_rules};

use evaluate::Known;
use expression_rows::value_after;
use operators::Scalar;
use rows::columns::{CODE, OWN};
use rows::{cell, codes};
use saved_answers::Answers;
use stored::put_value;

// ---- the rows of rules

// Notes a row as that of its rule, if it is a rule's and there is a place for it.
fn place_row(places: &mut [u64], table: &[u64], row: usize)
    ensures { places.new ≡ placed_row table.now places.old row }
{
    if cell(table, row, CODE) != codes::RULE {
        return;
    }
    let rule = cell(table, row, OWN) as usize;
    if places.len() <= rule {
        return;
    }
    places[rule] = row as u64;
}

// Notes the row of each rule of the first `count` rows, by the rule's number.
pub fn place_rows(places: &mut [u64], table: &[u64], count: usize)
    ensures { places.new ≡ placed_rows table.now places.old 0 count }
{
    for row in 0..count {
        place_row(places, table, row);
    }
}

// ---- their values

// Finds the values of rules, in the order given: `places` has the row of each rule, by its number.
pub fn find_values(
    values: &mut [Scalar],
    order: &[u64],
    places: &[u64],
    table: &[u64],
    count: usize,
    answers: Answers,
)
    ensures { values.new
        ≡ with_rules answers.entry.saved.now answers.entry.gotos.now answers.entry.checkboxes.now
        table.now count places.now values.old order.now }
{
    for &k in order {
        let row = places.get(k as usize).copied().unwrap_or(0) as usize;
        let known = Known {
            answers,
            rules: values,
        };
        let v = value_after(table, count, row, known);
        put_value(values, k as usize, v);
    }
}
