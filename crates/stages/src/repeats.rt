// 7 and 8: repeated numbers.
ghost use Rattle.std.specs.Prelude.{◌≡◌, ◌<◌, ℕ};
ghost use Rattle.answers.specs.Drafts.{drafts_from};
ghost use Rattle.answers.specs.Rows.{Draft};
ghost use Rattle.rows.specs.Marks.{marked};
ghost use Rattle.drafts.specs.Faults.{draft_at};
ghost use Rattle.stages.specs.Repeats.{form_number, written_number, repeated_mark, map_after};

use drafts::own_mark;
use numbers::Map;
use rows::codes::is_question;
use rows::columns::{CODE, OWN};
use rows::{cell, codes};

// Stays: 0 for no number, here and below; the contract of `repeated_form` looks 0 up too, in whatever map it is given.
// The number of a form; 0 of another row.
fn number_of_form(table: &[u64], row: usize) -> u64
    ensures { result ≡ form_number (draft_at table.now row) }
{
    if cell(table, row, CODE) == codes::FORM {
        cell(table, row, OWN)
    } else {
        0
    }
}

// The number that a question writes; 0 of another row.
fn written_number(table: &[u64], row: usize) -> u64
    ensures { result ≡ written_number (draft_at table.now row) }
{
    if is_question(cell(table, row, CODE)) {
        cell(table, row, OWN)
    } else {
        0
    }
}

// The mark of the first number that the map has already. The map gains the numbers before it.
fn repeated<F: Fn(&[u64], usize) -> u64>(
    table: &[u64],
    count: usize,
    map: &mut Map,
    number: F,
) -> Option<usize>
    ghost of_draft: { Draft → ℕ }
    requires callable { F.IsAlwaysCallable number }
    requires told { (rows : _) (row n : ℕ) → row < count → F.post number rows row n → n ≡ of_draft (draft_at rows.now row) }
    ensures value { marked result ≡ repeated_mark of_draft map.old (drafts_from table.now 0 count) }
    ensures map_after { map.new ≡ map_after of_draft map.old (drafts_from table.now 0 count) }
{
    for row in 0..count {
        let n = number(table, row);
        if numbers::has(map, n) {
            return own_mark(table, row);
        }
        numbers::mark(map, n);
    }
    None
}

// 7: a form number repeated. Where there is none, the map gains the numbers of all forms.
pub fn repeated_form(table: &[u64], count: usize, forms: &mut Map) -> Option<usize>
    ensures value { marked result ≡ repeated_mark form_number forms.old (drafts_from table.now 0 count) }
    ensures forms_after { forms.new ≡ map_after form_number forms.old (drafts_from table.now 0 count) }
{
    repeated(table, count, forms, number_of_form)
}

// 8: a written question number repeated. Where there is none, the map gains all written numbers.
pub fn repeated_question(table: &[u64], count: usize, used: &mut Map) -> Option<usize>
    ensures value { marked result ≡ repeated_mark written_number used.old (drafts_from table.now 0 count) }
    ensures used_after { used.new ≡ map_after written_number used.old (drafts_from table.now 0 count) }
{
    repeated(table, count, used, written_number)
}
