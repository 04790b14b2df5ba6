// Which items are hidden or grey (document 02, W-202), from the rows of a table and the answers alone: the rules' values
// are found once each, and then the bytes of the rows. Total for every table.
// (Measured for a chain of 255 rules in 1,030 rows, and for 4,503 rows without rules: about 0.1 ms each.)
#![tactic(auto)]

ghost use Rattle.std.specs.Prelude.{◌≡◌, length};
ghost use Rattle.ranks.specs.Ranks.{order_of};
ghost use Rattle.rule_steps.specs.Steps.{table_steps};
ghost use Rattle.table_screen.specs.TableScreen.{rule_count, rule_places, no_values, rule_values, table_screen};

use circles::{close, last_rule};
use evaluate::Known;
use operators::Scalar;
use ranks::{PerRule, order};
use rows::columns::CODE;
use rows::{cell, codes};
use rule_steps::add_steps;
use rule_values::{find_values, place_rows};
use saved_answers::Answers;
use screen_rows::show_rows;

// ---- the rules of a table's first rows

// How many rules the first `count` rows have.
fn count_rules(table: &[u64], count: usize) -> u64
    ensures { result ≡ rule_count table.now count }
{
    let mut rules = 0;
    for row in 0..count {
        if cell(table, row, CODE) == codes::RULE {
            rules += 1;
        }
    }
    rules
}

// The rules 1 to n, without circles each after those that it refers to, and then 0.
fn order_rules(table: &[u64], count: usize, n: u64) -> PerRule
    ensures { result ≡ order_of (table_steps table.now count) n }
{
    let mut map = numbers::empty();
    add_steps(table, count, &mut map);
    close(&mut map, n);
    order(&map, n)
}

// ---- their values

// The row of each rule, by its number; 0 where there is none.
fn find_places(table: &[u64], count: usize) -> PerRule
    ensures { result ≡ rule_places table.now count }
{
    let mut places = [0; 256];
    place_rows(&mut places, table, count);
    places
}

// The values of rules, by their numbers.
type Values = [Scalar; 256];

// All undefined.
fn no_values() -> Values
    ensures { result ≡ no_values }
{
    [Scalar::Undefined; 256]
}

// The values of the rules in the first `count` rows; a table without rules has none to order.
fn values_of(table: &[u64], count: usize, answers: Answers) -> Values
    ensures { result
        ≡ rule_values answers.entry.saved.now answers.entry.gotos.now
        answers.entry.checkboxes.now table.now count }
{
    let mut values = no_values();
    let n = last_rule(count_rules(table, count)) as usize;
    if n == 0 {
        return values;
    }
    let rules = order_rules(table, count, n as u64);
    let places = find_places(table, count);
    find_values(&mut values, &rules[..n], &places, table, count, answers);
    values
}

// ---- the bytes

// The bytes of a table's first rows, as many as there are bytes.
pub fn show_table(out: &mut [u8], table: &[u64], answers: Answers)
    ensures { out.new
        ≡ table_screen answers.entry.saved.now answers.entry.gotos.now
        answers.entry.checkboxes.now table.now (length out.old) }
{
    let values = values_of(table, out.len(), answers);
    let known = Known {
        answers,
        rules: &values,
    };
    show_rows(out, table, known);
}
