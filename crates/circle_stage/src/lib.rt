// 14 over settled rows: a rule that reaches itself through references (document 02, W-202).
#![tactic(auto)]

ghost use Rattle.std.specs.Prelude.{◌≡◌};
ghost use Rattle.answers.specs.Drafts.{drafts_from};
ghost use Rattle.answers.specs.Stages.{draft_rows};
ghost use Rattle.circles.specs.Circles.{circular_in};
ghost use Rattle.drafts.specs.Faults.{draft_at};
ghost use Rattle.rows.specs.Marks.{marked};
ghost use Rattle.circle_stage.specs.Circular.{mark_if, circle_fault, first_by};

use circles::{circular, close};
use drafts::own_mark;
use numbers::Map;
use rows::cell;
use rows::columns::A;
use rule_steps::{add_steps, rule_round};

// The place of the name in a row that is, by a closed map, a step on a circle.
fn place_in(table: &[u64], count: usize, row: usize, map: &Map) -> Option<usize>
    ensures { marked result ≡ mark_if (circular_in map.now) (draft_rows (drafts_from table.now 0 count)) (draft_at table.now row) }
{
    let from = rule_round(table, count, row)?;
    if circular(map, from, cell(table, row, A)) {
        own_mark(table, row)
    } else {
        None
    }
}

// The first of them.
fn first_place(table: &[u64], count: usize, map: &Map) -> Option<usize>
    ensures { marked result ≡ first_by (mark_if (circular_in map.now)) (drafts_from table.now 0 count) }
{
    (0..count).find_map(|row| place_in(table, count, row, map))
}

// 14: the place of the name in the first ruleref, inside a rule, that is a step on a circle.
pub fn circular_reference(table: &[u64], count: usize) -> Option<usize>
    ensures { marked result ≡ first_by circle_fault (drafts_from table.now 0 count) }
{
    let mut map = numbers::empty();
    let last = add_steps(table, count, &mut map)?;
    close(&mut map, last);
    first_place(table, count, &map)
}
