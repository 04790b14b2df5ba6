// 10: too many rules.
ghost use Rattle.std.specs.Prelude.{◌≡◌};
ghost use Rattle.answers.specs.Drafts.{drafts_from};
ghost use Rattle.rows.specs.Marks.{marked};
ghost use Rattle.drafts.specs.Faults.{draft_at, alone, first_fault};
ghost use Rattle.stages.specs.Rules.{rule_fault};

use rows::columns::{CODE, OWN, PLACE};
use rows::draft::low;
use rows::{cell, codes};

// How many rules there may be.
pub const RULES: u64 = 255;

// The place of a rule over the limit.
fn over_limit(table: &[u64], row: usize) -> Option<usize>
    ensures { marked result ≡ rule_fault (draft_at table.now row) }
{
    if cell(table, row, CODE) == codes::RULE && RULES < cell(table, row, OWN) {
        Some(low(cell(table, row, PLACE)) as usize)
    } else {
        None
    }
}

// 10: a 256th rule.
pub fn rule_over_limit(table: &[u64], count: usize) -> Option<usize>
    ensures { marked result ≡ first_fault (alone rule_fault) (drafts_from table.now 0 count) }
{
    (0..count).find_map(|row| over_limit(table, row))
}
